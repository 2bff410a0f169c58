// The sheet: its layout, its check with the refusals 1 to 14 and 17, and the distances of its network. Knows nothing of what formulas mean.
#![tactic(auto)]

pub mod check;
mod stages;
pub mod survey;
