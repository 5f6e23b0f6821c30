// Lists of calls, run one after another on a new sheet and ended by a search of it.
#![tactic(auto)]

pub mod call;
mod one;
pub mod replay;
pub mod run;
mod seek;
