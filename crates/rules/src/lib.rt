//! The subject's records (securities and quotes, intents, orders, slips, calls, answers, refusals) and its rules: who may
//! trade with whom, at what price, and who goes first.
#![tactic(auto)]

pub mod calls;
pub mod eligibility;
pub mod incoming;
pub mod intents;
pub mod minimums;
pub mod orders;
pub mod phases;
pub mod prices;
pub mod priorities;
pub mod quotes;
pub mod ranges;
pub mod refusals;
pub mod securities;
pub mod slips;
pub mod worked_examples;
