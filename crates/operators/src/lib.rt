// The operators at one sample, for all places. Atoms read the samples of a sheet, and the others the signals of earlier lines where they stand in the words
// of an answer: a signal begins at an index of the words and has `places` words to a sample. A row has the chain number of each place. It may be longer than
// the places, and what stands after them is promised to stay: so the places are told beside it, and its room is a clause. Or is the dual of and: the opposite
// of the operator on opposites.
#![tactic(auto)]

pub mod atoms;
pub mod connectives;
pub mod signals;
