// A line of the answer: its verdicts and margins as words, sample by sample or, over space, in blocks of samples, and what they add to the result.
#![tactic(auto)]

pub mod around;
pub mod row;
mod row_values;
