ghost use Rattle.std.specs.Prelude.{◌≡◌};
ghost use Rattle.rules.specs.Intents.{in_range, standing, is_blank};

use crate::minimums::Minimums;
use crate::ranges::Range;

/// The side of the market that an order or an intent is on.
#[derive(Clone, Copy, PartialEq, Eq)]
pub enum Side {
    Buy,
    Sell,
}

/// A block of shares that a dealer would trade and shows to nobody.
#[derive(Clone, Copy, PartialEq, Eq)]
pub struct Intent {
    pub security: u32,
    pub subscriber: u32,
    /// The dealer's own priority group: 1 comes first.
    pub group: u32,
    pub side: Side,
    pub entered: u32,
    pub remaining: u32,
    /// In ticks.
    pub limit: u32,
    pub minimums: Minimums,
    pub last_day: u32,
    /// The arrival number.
    pub number: u32,
}

/// What a priority may read of an intent, and no more.
#[derive(Clone, Copy)]
pub struct Standing {
    pub subscriber: u32,
    pub group: u32,
    /// The entered volume, however little of it remains.
    pub entered: u32,
    /// The arrival number.
    pub number: u32,
}

impl Intent {
    /// What stands in a place of the table where no intent rests.
    pub const BLANK: Intent = Intent {
        security: 0,
        subscriber: 0,
        group: 0,
        side: Side::Buy,
        entered: 0,
        remaining: 0,
        limit: 0,
        minimums: Minimums::NONE,
        last_day: 0,
        number: 0,
    };

    /// Whether every field is in its range, and from 1 share up to the entered volume remains.
    pub fn is_in_range(&self) -> bool
        ensures { result ≡ in_range self.now }
    {
        Range::SECURITIES.contains(self.security)
            && Range::SUBSCRIBERS.contains(self.subscriber)
            && Range::GROUPS.contains(self.group)
            && Range::VOLUMES.contains(self.entered)
            && 1 <= self.remaining
            && self.remaining <= self.entered
            && Range::PRICES.contains(self.limit)
            && self.minimums.are_in_range()
            && Range::DAYS.contains(self.last_day)
            && Range::NUMBERS.contains(self.number)
    }

    /// Whether this is what stands where no intent rests: zeros, and side buy.
    pub fn is_blank(&self) -> bool
        ensures { result ≡ is_blank self.now }
    {
        *self == Intent::BLANK
    }
}

impl From<&Intent> for Standing {
    ghost from_gives = { λ intent r. r ≡ standing intent.now };

    fn from(intent: &Intent) -> Standing {
        Standing {
            subscriber: intent.subscriber,
            group: intent.group,
            entered: intent.entered,
            number: intent.number,
        }
    }
}
