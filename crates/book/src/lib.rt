//! The book: a ledger of 64 securities with the rules that it is kept by, and the calls on it.
#![tactic(auto)]

mod among;
pub mod books;
mod turns;

pub use books::Book;
pub use ledger::ledgers::SECURITIES;
