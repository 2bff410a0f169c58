// A list of corrections (M-107): what each says, and the check of each for itself, 19.
#![tactic(auto)]

pub mod check;
pub mod correction;
pub mod list;
mod naming;
