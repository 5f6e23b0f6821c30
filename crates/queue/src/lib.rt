// A priority queue over a lent column, for every element with an order.
#![tactic(auto)]

pub mod entry;
pub mod heap;
pub mod lent;
pub mod order;
pub mod run;
mod sift;
