// Definition 4.4's iteration, for several samples side by side, from the rows that the ball about a centre masks.
#![tactic(auto)]

pub mod iteration;
pub mod mask;
