ghost use Rattle.rules.specs.Prices.{step_price, step_mark};
ghost use Rattle.std.proofs.Common.{rules};

use crate::intents::Side;
use crate::prices::PriceRule;
use crate::quotes::Quote;

/// Betters the touch for the incoming party by some ticks, but never by more than 100 or the spread. The touch is the offer
/// for a buy and the bid for a sell.
#[derive(Clone, Copy)]
pub struct StepRule {
    /// More than 100 counts as 100.
    pub ticks: u32,
}

impl PriceRule for StepRule {
    const MARK: char = 'S';

    ghost MARK = { step_mark };

    ghost price = { λ rule quote side. step_price rule.ticks quote side };

    ghost between = { Prim.search rules };

    fn price_of(&self, quote: &Quote, side: Side) -> u64 {
        let step = u64::from(self.ticks.min(100).min(quote.spread()));
        match side {
            Side::Buy => 2 * (u64::from(quote.offer) - step),
            Side::Sell => 2 * (u64::from(quote.bid) + step),
        }
    }
}
