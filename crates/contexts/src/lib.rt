// Contexts: for each fact the least weight of a chain of moves to the target.
#![tactic(auto)]

mod close;
mod link;
mod moves;
mod offer;
pub mod rests;
mod spread;
