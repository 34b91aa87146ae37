ghost use Rattle.std.specs.Prelude.{◌≡◌};
ghost use Rattle.rules.specs.Quotes.{lawful_quote, spread, volume_on, reaches};

use crate::intents::Side;
use crate::minimums::Minimums;
use crate::ranges::Range;

/// The best bid and offer of the market, in ticks, with their volumes. Its numbers may be any caller's: only where
/// `is_lawful` says so are they a quote that can be in force.
#[derive(Clone, Copy)]
pub struct Quote {
    pub bid: u32,
    pub bid_volume: u32,
    pub offer: u32,
    pub offer_volume: u32,
}

impl Quote {
    /// Whether prices and volumes are in their ranges and the bid is below the offer.
    pub fn is_lawful(&self) -> bool
        ensures { result ≡ lawful_quote self.now }
    {
        Range::PRICES.contains(self.bid)
            && Range::PRICES.contains(self.offer)
            && Range::QUOTED_VOLUMES.contains(self.bid_volume)
            && Range::QUOTED_VOLUMES.contains(self.offer_volume)
            && self.bid < self.offer
    }

    /// Offer less bid, in ticks, and 0 where the offer is below the bid.
    pub fn spread(&self) -> u32
        ensures { result ≡ spread self.now }
    {
        self.offer.saturating_sub(self.bid)
    }

    /// The quoted volume on a side: the bid's for a buy, the offer's for a sell.
    pub fn volume_on(&self, side: Side) -> u32
        ensures { result ≡ volume_on self.now side }
    {
        match side {
            Side::Buy => self.bid_volume,
            Side::Sell => self.offer_volume,
        }
    }

    /// Whether the quote is wide and, on this side, deep enough for an intent's minimums.
    pub fn reaches(&self, side: Side, minimums: &Minimums) -> bool
        ensures { result ≡ reaches self.now side minimums.now }
    {
        minimums.spread <= self.spread() && minimums.volume <= self.volume_on(side)
    }
}
