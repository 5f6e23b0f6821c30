// Sheets of rules: slots, the edits of a sheet, and the passed view.
#![tactic(auto)]

pub mod edit;
pub mod passed;
pub mod refusal;
pub mod rule;
pub mod slot;
