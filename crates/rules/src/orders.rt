use crate::intents::Side;

/// An order on its way to the exchange. It takes what it can from resting intents and never rests.
#[derive(Clone, Copy)]
pub struct Order {
    pub security: u32,
    pub subscriber: u32,
    pub side: Side,
    pub volume: u32,
    /// In ticks; none for a market order.
    pub limit: Option<u32>,
    /// Whether a dealer carries it out for another dealer.
    pub jitney: bool,
}
