/// A match: what the active party took from a resting intent.
#[derive(Clone, Copy, Debug, PartialEq, Eq)]
pub struct Fill {
    /// The arrival number of the intent that had its turn, or 0 for an order.
    pub active: u32,
    pub passive: u32,
    pub volume: u32,
    /// In half ticks.
    pub price: u64,
    /// The letter of the price rule.
    pub mark: char,
}

/// An intent that has passed its last day, with what it had left.
#[derive(Clone, Copy, Debug, PartialEq, Eq)]
pub struct Lapse {
    pub number: u32,
    pub volume: u32,
}

/// What a call writes to the page.
#[derive(Clone, Copy, Debug, PartialEq, Eq)]
pub enum Slip {
    Filled(Fill),
    Lapsed(Lapse),
}

impl Slip {
    /// What stands in a place of a new page: no intent has the number 0.
    pub const BLANK: Slip = Slip::Lapsed(Lapse {
        number: 0,
        volume: 0,
    });
}
