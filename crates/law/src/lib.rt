//! What is promised of the engine, apart from how it is done: the calls and their answers, what a rule set means, the account
//! of a run, the model of a turn and of each call, and the law that turns keep.
#![tactic(auto)]

pub mod answers;
pub mod calls;
pub mod rule_sets;
