// The operators over time, for all places at one sample: they read the signals of earlier lines where they stand in the words of an answer, from that
// sample to the end of a window. Always is the dual of eventually: the opposite of the operator on opposites. Once and historically, codes 13 and 14,
// are eventually and always read from the upper bound earlier (proofs/Later.antt). A row may be longer than the places, as in operators: its room is a clause.
#![tactic(auto)]

pub mod eventually;
mod group;
pub mod until;
