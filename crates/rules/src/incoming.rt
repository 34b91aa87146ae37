ghost use Rattle.std.specs.Prelude.{◌≡◌};
ghost use Rattle.rules.specs.Incoming.{intent_incoming, order_incoming};

use crate::intents::{Intent, Side};
use crate::minimums::Minimums;
use crate::orders::Order;

/// The party that has its turn: an order, or an intent that seeks among those that arrived before it.
#[derive(Clone, Copy)]
pub struct Incoming {
    /// The arrival number; none for an order, which comes after all that rest.
    pub number: Option<u32>,
    pub security: u32,
    pub subscriber: u32,
    pub side: Side,
    pub volume: u32,
    /// In ticks; none for a market order.
    pub limit: Option<u32>,
    pub minimums: Minimums,
    pub jitney: bool,
}

/// The order as it has its turn.
impl From<&Order> for Incoming {
    ghost from_gives = { λ order r. r ≡ order_incoming order.now };

    fn from(order: &Order) -> Incoming {
        Incoming {
            number: None,
            security: order.security,
            subscriber: order.subscriber,
            side: order.side,
            volume: order.volume,
            limit: order.limit,
            minimums: Minimums::NONE,
            jitney: order.jitney,
        }
    }
}

/// The intent as it has its turn, with what remains of it.
impl From<&Intent> for Incoming {
    ghost from_gives = { λ intent r. r ≡ intent_incoming intent.now };

    fn from(intent: &Intent) -> Incoming {
        Incoming {
            number: Some(intent.number),
            security: intent.security,
            subscriber: intent.subscriber,
            side: intent.side,
            volume: intent.remaining,
            limit: Some(intent.limit),
            minimums: intent.minimums,
            jitney: false,
        }
    }
}
