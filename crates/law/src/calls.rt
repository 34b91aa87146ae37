ghost use Rattle.std.specs.Prelude.{◌≡◌};
ghost use Rattle.law.specs.Accounts.{new_intent};

use rules::intents::{Intent, Side};
use rules::minimums::Minimums;
use rules::orders::Order;

/// The terms of a new intent, as the caller gave them.
#[derive(Clone, Copy)]
pub struct Terms {
    pub security: u32,
    pub subscriber: u32,
    /// The dealer's own priority group.
    pub group: u32,
    pub side: Side,
    pub volume: u32,
    /// In ticks.
    pub limit: u32,
    pub minimums: Minimums,
    pub last_day: u32,
}

impl Terms {
    /// The intent that comes in with these terms, under its arrival number: all of it remains.
    pub fn intent(&self, number: u32) -> Intent
        ensures { result ≡ new_intent number self.now }
    {
        Intent {
            security: self.security,
            subscriber: self.subscriber,
            group: self.group,
            side: self.side,
            entered: self.volume,
            remaining: self.volume,
            limit: self.limit,
            minimums: self.minimums,
            last_day: self.last_day,
            number,
        }
    }
}

/// What a subscriber names one of its resting intents by.
#[derive(Clone, Copy)]
pub struct Reference {
    pub subscriber: u32,
    /// The arrival number.
    pub number: u32,
}

/// A call on the book. Its numbers come as the caller gave them: nothing is narrowed before the book has checked it.
#[derive(Clone, Copy)]
pub enum Call {
    List { security: u32 },
    Enter(Terms),
    Cancel(Reference),
    Order(Order),
}
