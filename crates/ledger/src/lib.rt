//! What the book keeps besides its rules, the lent table, and the checks by which a call is refused.
#![tactic(auto)]

pub mod checks;
pub mod ledgers;
pub mod tables;
