// What every check of a sheet is made of: the refusals, the kinds of words, the limits, the words with which it begins, and the tests of a word.
#![tactic(auto)]

pub mod beginning;
pub mod fault;
pub mod head;
pub mod kind;
pub mod limits;
pub mod word;
