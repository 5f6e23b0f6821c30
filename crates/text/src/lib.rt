// A target that was found, written as text.
#![tactic(auto)]

pub mod named;
pub mod solution;
