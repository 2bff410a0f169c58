// The lines of a table, decoded: each with the samples for which it has verdicts, and the refusals 10 and 13. Knows nothing of what formulas mean.
#![tactic(auto)]

pub mod extent;
pub mod line;
pub mod table;
