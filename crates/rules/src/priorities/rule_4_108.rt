ghost use Rattle.std.specs.Prelude.{◌≡◌};
ghost use Rattle.rules.specs.Priorities.{rule_4_108};

use crate::intents::Standing;
use crate::priorities::Priority;
use crate::priorities::house_tier::HouseTier;
use crate::priorities::large_tier::{Large, LargeTier};
use crate::priorities::time::Time;

/// The pile of Rule 4-108(6): house over large over time.
pub type Rule4108 = HouseTier<LargeTier<Time>>;

/// The pile of Rule 4-108(6), in which an intent of 5,000 shares is large.
pub fn rule_4_108() -> Rule4108
    ensures { result.below.members.threshold ≡ 5000 }
{
    HouseTier {
        below: LargeTier {
            members: Large { threshold: 5_000 },
            below: Time,
        },
    }
}

/// Whether by Rule 4-108(6) the first intent is ahead of the second.
pub fn is_ahead_by_rule_4_108(subscriber: u32, a: &Standing, b: &Standing) -> bool
    ensures { result ≡ rule_4_108 subscriber a.now b.now }
{
    rule_4_108().is_ahead(subscriber, a, b)
}
