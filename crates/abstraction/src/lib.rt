// Sheets over groups of facts: what guides are made from.
#![tactic(auto)]

pub mod fold;
pub mod laws;
pub mod make;
