// What is done on all processors at once, and the clocks.
#![tactic(auto)]

pub mod clocks;
pub mod lanes;
