ghost use Rattle.std.specs.Prelude.{◌*◌};
ghost use Rattle.rules.specs.declared.intents.Side.TheVariants.{Buy, Sell};
ghost use Rattle.std.proofs.Common.{rules};

use rules::intents::Side;
use rules::prices::PriceRule;
use rules::quotes::Quote;

/// An incoming buy pays the offer in full; an incoming sell goes by the rule below.
#[derive(Clone, Copy)]
pub struct OfferRule<R: PriceRule> {
    pub below: R,
}

impl<R: PriceRule> PriceRule for OfferRule<R> {
    const MARK: char = 'F';

    // the letter F
    ghost MARK = { 70 };

    ghost price = { λ rule quote side. elim side [ Buy ↦ 2 * quote.offer | Sell ↦ R.PriceRule.price rule.below quote Sell ] };

    ghost between = { Prim.search rules };

    fn price_of(&self, quote: &Quote, side: Side) -> u64 {
        match side {
            Side::Buy => 2 * u64::from(quote.offer),
            Side::Sell => self.below.price_of(quote, side),
        }
    }
}
