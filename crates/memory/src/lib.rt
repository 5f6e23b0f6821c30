// Memory of the programs: the input, and the columns of a search.
#![tactic(auto)]

pub mod columns;
pub mod failure;
pub mod input;
#[cfg(test)]
mod tests;
