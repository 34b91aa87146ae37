ghost use Rattle.std.specs.Prelude.{◌≡◌};
ghost use Rattle.rules.specs.Priorities.{house_first, by_group};
ghost use Rattle.std.proofs.Common.{rules};

use crate::intents::Standing;
use crate::priorities::Priority;

/// The incoming subscriber's own intents go first, by group and then by arrival; two of others go as the priority below
/// says.
#[derive(Clone, Copy)]
pub struct HouseTier<P: Priority> {
    pub below: P,
}

/// Whether the first has the smaller group or, in the same group, arrived earlier.
fn is_ahead_in_house(a: &Standing, b: &Standing) -> bool
    ensures { result ≡ by_group a.now b.now }
{
    (a.group, a.number) < (b.group, b.number)
}

impl<P: Priority> Priority for HouseTier<P> {
    ghost ahead = { λ p s a b. house_first s (P.Priority.ahead p.below s) a b };

    ghost total = { Prim.search rules };

    ghost transitive = { Prim.search rules };

    fn is_ahead(&self, subscriber: u32, a: &Standing, b: &Standing) -> bool {
        match (a.subscriber == subscriber, b.subscriber == subscriber) {
            (true, true) => is_ahead_in_house(a, b),
            (true, false) => true,
            (false, true) => false,
            (false, false) => self.below.is_ahead(subscriber, a, b),
        }
    }
}
