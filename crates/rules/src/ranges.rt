//! The ranges of the quantities. A caller's numbers are any 32-bit numbers until they are held against these.
ghost use Rattle.std.specs.Prelude.{◌≡◌};
ghost use Rattle.rules.specs.Ranges.{within};

/// Numbers from `low` to `high`, both included.
#[derive(Clone, Copy)]
pub struct Range {
    pub low: u32,
    pub high: u32,
}

impl Range {
    pub const SECURITIES: Range = Range { low: 0, high: 63 };

    pub const SUBSCRIBERS: Range = Range { low: 1, high: 999 };

    pub const GROUPS: Range = Range { low: 1, high: 9 };

    pub const DAYS: Range = Range {
        low: 1,
        high: 99_999,
    };

    /// Limits, bids and offers, in ticks.
    pub const PRICES: Range = Range {
        low: 1,
        high: 1_000_000,
    };

    /// Of intents and orders, in shares.
    pub const VOLUMES: Range = Range {
        low: 1,
        high: 100_000_000,
    };

    /// Of bids and offers, in shares.
    pub const QUOTED_VOLUMES: Range = Range {
        low: 1,
        high: 1_000_000_000,
    };

    /// In ticks.
    pub const MIN_SPREADS: Range = Range {
        low: 0,
        high: 1_000_000,
    };

    /// In shares.
    pub const MIN_VOLUMES: Range = Range {
        low: 0,
        high: 1_000_000_000,
    };

    /// Arrival numbers.
    pub const NUMBERS: Range = Range {
        low: 1,
        high: 999_999_999,
    };

    /// Whether the number is in the range.
    pub fn contains(self, x: u32) -> bool
        ensures { result ≡ within self.low self.high x }
    {
        self.low <= x && x <= self.high
    }
}
