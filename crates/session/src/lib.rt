//! A book with a table and a page of its own, and the run of a script on it.
#![tactic(auto)]

pub mod faults;
pub mod runs;
pub mod sessions;
