// The search for a derivation of least weight.
#![tactic(auto)]

mod chain;
mod closed;
pub mod columns;
mod explore;
pub mod find;
pub mod held;
mod line;
mod rules;
mod run;
mod seed;
mod solve;
pub mod survey;
mod visit;
mod weigh;
