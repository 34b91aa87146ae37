//! Worked examples of prices and eligibility, stated of the definitions and asked of the code.
ghost use Rattle.std.specs.Prelude.{◌≡◌, true};
ghost use Rattle.rules.specs.WorkedExamples.{market_order, intent, buys_as_passive, buys_as_active, sells_as_passive, sells_as_active, OneStepInsideAWideSpread, AStepStopsAtTheFarSide, HalfATickAboveALimitFails, AMinimumSpreadJustReached, AMinimumVolumeJustReached};

use crate::eligibility::Seeker;
use crate::incoming::Incoming;
use crate::intents::{Intent, Side};
use crate::minimums::Minimums;
use crate::orders::Order;
use crate::prices::PriceRule;
use crate::prices::midpoint::MidpointRule;
use crate::prices::step::StepRule;
use crate::quotes::Quote;

/// Ten ticks wide, and lawful.
pub const WIDE: Quote = Quote {
    bid: 1000,
    bid_volume: 3000,
    offer: 1010,
    offer_volume: 4000,
};

/// One tick wide, and lawful.
const NARROW: Quote = Quote {
    bid: 1000,
    bid_volume: 3000,
    offer: 1001,
    offer_volume: 4000,
};

fn market_order(side: Side) -> Order
    ensures { result ≡ market_order side }
{
    Order {
        security: 0,
        subscriber: 7,
        side,
        volume: 100,
        limit: None,
        jitney: false,
    }
}

fn intent_of(number: u32, side: Side, limit: u32, minimums: Minimums) -> Intent
    ensures { result ≡ intent number side limit minimums }
{
    Intent {
        security: 0,
        subscriber: 8,
        group: 1,
        side,
        entered: 500,
        remaining: 500,
        limit,
        minimums,
        last_day: 1,
        number,
    }
}

/// Whether a resting buy with a limit is eligible for a market order to sell, at the midpoint of the narrow quote.
fn buys_as_passive(limit: u32) -> bool
    ensures { result ≡ buys_as_passive limit }
{
    let buy = intent_of(1, Side::Buy, limit, Minimums::NONE);
    let order = Incoming::from(&market_order(Side::Sell));
    Seeker::new(&MidpointRule, NARROW, order).is_eligible(&buy)
}

/// Whether a resting sell is eligible for an incoming buy with a limit, at the midpoint of the narrow quote.
fn buys_as_active(limit: u32) -> bool
    ensures { result ≡ buys_as_active limit }
{
    let buy = Incoming::from(&intent_of(2, Side::Buy, limit, Minimums::NONE));
    let sell = intent_of(1, Side::Sell, 1000, Minimums::NONE);
    Seeker::new(&MidpointRule, NARROW, buy).is_eligible(&sell)
}

/// Whether a resting sell with these minimums is eligible for a market order to buy, at the wide quote.
fn sells_as_passive(spread: u32, volume: u32) -> bool
    ensures { result ≡ sells_as_passive spread volume }
{
    let minimums = Minimums { spread, volume };
    let sell = intent_of(1, Side::Sell, 1000, minimums);
    let order = Incoming::from(&market_order(Side::Buy));
    Seeker::new(&StepRule { ticks: 1 }, WIDE, order).is_eligible(&sell)
}

/// Whether a resting buy is eligible for an incoming sell with these minimums, at the wide quote.
fn sells_as_active(spread: u32, volume: u32) -> bool
    ensures { result ≡ sells_as_active spread volume }
{
    let minimums = Minimums { spread, volume };
    let sell = Incoming::from(&intent_of(2, Side::Sell, 1000, minimums));
    let buy = intent_of(1, Side::Buy, 1010, Minimums::NONE);
    Seeker::new(&StepRule { ticks: 1 }, WIDE, sell).is_eligible(&buy)
}

fn one_step_inside_a_wide_spread() -> bool
    ensures { result ≡ true }
{
    let step = StepRule { ticks: 1 };
    WIDE.is_lawful()
        && step.price_of(&WIDE, Side::Buy) == 2018
        && step.price_of(&WIDE, Side::Sell) == 2002
        && MidpointRule.price_of(&WIDE, Side::Buy) == 2010
}

fn a_step_stops_at_the_far_side() -> bool
    ensures { result ≡ true }
{
    let step = StepRule { ticks: 2 };
    NARROW.is_lawful()
        && step.price_of(&NARROW, Side::Buy) == 2000
        && step.price_of(&NARROW, Side::Sell) == 2002
        && MidpointRule.price_of(&NARROW, Side::Buy) == 2001
}

fn half_a_tick_above_a_limit_fails() -> bool
    ensures { result ≡ true }
{
    !buys_as_passive(1000) && buys_as_passive(1001) && !buys_as_active(1000) && buys_as_active(1001)
}

fn a_minimum_spread_just_reached() -> bool
    ensures { result ≡ true }
{
    sells_as_passive(10, 0)
        && !sells_as_passive(11, 0)
        && sells_as_active(10, 0)
        && !sells_as_active(11, 0)
}

fn a_minimum_volume_just_reached() -> bool
    ensures { result ≡ true }
{
    sells_as_passive(0, 4000)
        && !sells_as_passive(0, 4001)
        && sells_as_active(0, 4000)
        && !sells_as_active(0, 4001)
}

/// The worked examples: they hold of the definitions, and the code answers as they say.
pub fn worked_examples() -> bool
    ensures answered { result ≡ true }
    ensures wide_spread { OneStepInsideAWideSpread }
    ensures narrow_spread { AStepStopsAtTheFarSide }
    ensures half_tick { HalfATickAboveALimitFails }
    ensures minimum_spread { AMinimumSpreadJustReached }
    ensures minimum_volume { AMinimumVolumeJustReached }
{
    one_step_inside_a_wide_spread()
        && a_step_stops_at_the_far_side()
        && half_a_tick_above_a_limit_fails()
        && a_minimum_spread_just_reached()
        && a_minimum_volume_just_reached()
}

#[cfg(test)]
mod tests {
    use super::worked_examples;

    #[test]
    fn the_code_answers_as_the_examples_say(rt: HostRuntime) {
        assert!(rt; worked_examples());
    }
}
