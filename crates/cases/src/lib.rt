// Uses of the library that are written as a caller has them. The must-not-compile cases are edits of them.
#![tactic(auto)]

pub mod flat;
pub mod latest;
