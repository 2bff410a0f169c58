// The roads of a sheet: their check with the refusals 4 to 7, and the network that they make.
#![tactic(auto)]

pub mod check;
pub mod road;
