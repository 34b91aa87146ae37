ghost use Rattle.rules.specs.Priorities.{by_time};
ghost use Rattle.std.proofs.Common.{rules};

use crate::intents::Standing;
use crate::priorities::Priority;

/// First come, first served.
#[derive(Clone, Copy)]
pub struct Time;

impl Priority for Time {
    ghost ahead = { λ _ _ a b. by_time a b };

    ghost total = { Prim.search rules };

    ghost transitive = { Prim.search rules };

    fn is_ahead(&self, _subscriber: u32, a: &Standing, b: &Standing) -> bool {
        a.number < b.number
    }
}
