// Lines of numbers, read.
#![tactic(auto)]

mod inner;
mod numbers;
pub mod reader;
