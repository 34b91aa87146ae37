ghost use Rattle.std.specs.Prelude.{◌≡◌};
ghost use Rattle.rules.specs.Minimums.{are_minimums};

use crate::ranges::Range;

/// What an intent asks of the quote before it trades. An order asks nothing.
#[derive(Clone, Copy, PartialEq, Eq)]
pub struct Minimums {
    /// In ticks.
    pub spread: u32,
    /// Of the quoted volume on the intent's own side, in shares.
    pub volume: u32,
}

impl Minimums {
    /// An order's: they ask nothing.
    pub const NONE: Minimums = Minimums {
        spread: 0,
        volume: 0,
    };

    /// Whether both are in their ranges.
    pub fn are_in_range(&self) -> bool
        ensures { result ≡ are_minimums self.now }
    {
        Range::MIN_SPREADS.contains(self.spread) && Range::MIN_VOLUMES.contains(self.volume)
    }
}
