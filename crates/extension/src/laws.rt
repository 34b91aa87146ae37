//! What holds of every price rule and priority, by the laws of the traits alone.
ghost use Rattle.std.specs.Prelude.{◌≡◌, true};

use rules::intents::{Side, Standing};
use rules::prices::PriceRule;
use rules::priorities::Priority;
use rules::quotes::Quote;

/// Whether the price for a lawful quote lies between bid and offer: always.
pub fn is_within_quote<R: PriceRule>(rule: &R, quote: &Quote, side: Side) -> bool
    ensures { result ≡ true }
{
    if !quote.is_lawful() {
        return true;
    }
    let price = rule.price_of(quote, side);
    2 * u64::from(quote.bid) <= price && price <= 2 * u64::from(quote.offer)
}

/// Whether exactly one of two intents is ahead of the other: always, if their arrival numbers differ.
pub fn is_decided<P: Priority>(priority: &P, subscriber: u32, a: &Standing, b: &Standing) -> bool
    ensures { result ≡ true }
{
    a.number == b.number
        || priority.is_ahead(subscriber, a, b) != priority.is_ahead(subscriber, b, a)
}

/// Whether the first is ahead of the third if it is ahead of the second and the second of the third: always.
pub fn is_carried_over<P: Priority>(
    priority: &P,
    subscriber: u32,
    a: &Standing,
    b: &Standing,
    c: &Standing,
) -> bool
    ensures { result ≡ true }
{
    !priority.is_ahead(subscriber, a, b)
        || !priority.is_ahead(subscriber, b, c)
        || priority.is_ahead(subscriber, a, c)
}
