ghost use Rattle.std.specs.Prelude.{◌≡◌, ℕ, Bool};
ghost use Rattle.rules.specs.Priorities.{tier};
ghost use Rattle.rules.specs.declared.intents.Standing.{Standing};
ghost use Rattle.std.proofs.Common.{rules};

use crate::intents::Standing;
use crate::priorities::Priority;

/// Whom a tier puts first, for an incoming subscriber.
pub trait Membership {
    /// What the membership means.
    ghost member: { Self → ℕ → Standing → Bool };

    /// Whether an intent is in the tier.
    fn contains(&self, subscriber: u32, standing: &Standing) -> bool
        ensures { result ≡ member self.now subscriber standing.now };
}

/// Members go first; two of them, and two others, go as the priority below says.
#[derive(Clone, Copy)]
pub struct Tier<M: Membership, P: Priority> {
    pub members: M,
    pub below: P,
}

impl<M: Membership, P: Priority> Priority for Tier<M, P> {
    ghost ahead = { λ p s a b. tier (M.Membership.member p.members s) (P.Priority.ahead p.below s) (P.Priority.ahead p.below s) a b };

    ghost total = { Prim.search rules };

    ghost transitive = { Prim.search rules };

    fn is_ahead(&self, subscriber: u32, a: &Standing, b: &Standing) -> bool {
        let first = self.members.contains(subscriber, a);
        if first != self.members.contains(subscriber, b) {
            return first;
        }
        self.below.is_ahead(subscriber, a, b)
    }
}
