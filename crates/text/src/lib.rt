//! Scripts and listings: bytes to calls, outcomes to text.
#![tactic(auto)]

pub mod faults;
mod lines;
pub mod listing;
mod names;
pub mod numbers;
pub mod reader;
pub mod reading;
