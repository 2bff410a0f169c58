// The surround, for several samples side by side.
#![tactic(auto)]

mod runs;
pub mod surround;
