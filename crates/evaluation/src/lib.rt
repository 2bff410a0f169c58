// Every line of an accepted sheet, one after the other: how many words their answer needs, and their verdicts.
#![tactic(auto)]

pub mod accepted;
mod line;
pub mod walk;
