ghost use Rattle.std.specs.Prelude.{◌≡◌};
ghost use Rattle.rules.specs.Eligibility.{opposite, arrived_before, within_limit, within_any_limit, eligible};

use crate::incoming::Incoming;
use crate::intents::{Intent, Side};
use crate::prices::PriceRule;
use crate::quotes::Quote;

/// An incoming party with the quote in force and its price.
#[derive(Clone, Copy)]
pub struct Seeker {
    pub incoming: Incoming,
    /// The quote in force for the party's security (`Security::quote_in_force`).
    pub quote: Quote,
    /// The price rule's price for the quote and the party's side, in half ticks.
    pub price: u64,
}

impl Seeker {
    /// The party with the quote in force, and with the price that the rule has for it.
    pub fn new<R: PriceRule>(rule: &R, quote: Quote, incoming: Incoming) -> Seeker
        ensures { result ≡ record { incoming = incoming; quote = quote; price = R.price rule.now quote incoming.side } }
    {
        Seeker {
            incoming,
            quote,
            price: rule.price_of(&quote, incoming.side),
        }
    }

    /// Whether a resting intent is eligible for the party.
    pub fn is_eligible(&self, intent: &Intent) -> bool
        ensures { result ≡ eligible self.now.quote self.now.price self.now.incoming intent.now }
    {
        let incoming = &self.incoming;
        intent.security == incoming.security
            && are_opposite(intent.side, incoming.side)
            && has_arrived_before(intent.number, incoming.number)
            && is_within_limit(intent.side, intent.limit, self.price)
            && is_within_any_limit(incoming.side, incoming.limit, self.price)
            && self.quote.reaches(intent.side, &intent.minimums)
            && self.quote.reaches(incoming.side, &incoming.minimums)
            && !incoming.jitney
    }
}

/// Whether one is a buyer and the other a seller. By a `match`, since with the derived `!=` questions for a sell took up to twice
/// as long; the resting intent's side is asked first, since turns of sells took longer the other way round.
fn are_opposite(a: Side, b: Side) -> bool
    ensures { result ≡ opposite a b }
{
    match (a, b) {
        (Side::Buy, Side::Sell) | (Side::Sell, Side::Buy) => true,
        (Side::Buy, Side::Buy) | (Side::Sell, Side::Sell) => false,
    }
}

/// Whether a resting intent arrived before the incoming party, which has no number if it is an order.
fn has_arrived_before(number: u32, incoming: Option<u32>) -> bool
    ensures { result ≡ arrived_before number incoming }
{
    incoming.is_none_or(|later| number < later)
}

/// Whether a price in half ticks is no worse than a limit in ticks.
fn is_within_limit(side: Side, limit: u32, price: u64) -> bool
    ensures { result ≡ within_limit side limit price }
{
    let limit = 2 * u64::from(limit);
    match side {
        Side::Buy => price <= limit,
        Side::Sell => limit <= price,
    }
}

/// The same where there may be no limit: a market order has none.
fn is_within_any_limit(side: Side, limit: Option<u32>, price: u64) -> bool
    ensures { result ≡ within_any_limit side limit price }
{
    limit.is_none_or(|limit| is_within_limit(side, limit, price))
}
