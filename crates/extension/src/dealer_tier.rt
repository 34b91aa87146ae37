ghost use Rattle.std.specs.Prelude.{nat_eq};
ghost use Rattle.rules.specs.Priorities.{tier};
ghost use Rattle.std.proofs.Common.{rules};

use rules::intents::Standing;
use rules::priorities::Priority;

/// One dealer's intents go first, whoever comes in; within each part the priority below decides. It shows its laws itself, as
/// any priority from outside may: `dealers` has the same by a membership alone.
#[derive(Clone, Copy)]
pub struct DealerTier<P: Priority> {
    pub dealer: u32,
    pub below: P,
}

impl<P: Priority> Priority for DealerTier<P> {
    ghost ahead = { λ p s a b. tier (λ x. nat_eq x.subscriber p.dealer) (P.Priority.ahead p.below s) (P.Priority.ahead p.below s) a b };

    ghost total = { Prim.search rules };

    ghost transitive = { Prim.search rules };

    fn is_ahead(&self, subscriber: u32, a: &Standing, b: &Standing) -> bool {
        match (a.subscriber == self.dealer, b.subscriber == self.dealer) {
            (true, false) => true,
            (false, true) => false,
            _ => self.below.is_ahead(subscriber, a, b),
        }
    }
}
