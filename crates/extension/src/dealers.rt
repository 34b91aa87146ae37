ghost use Rattle.std.specs.Prelude.{nat_eq};

use rules::intents::Standing;
use rules::priorities::tier::Membership;

/// One dealer's intents, whoever comes in. A `Tier` of these members needs no law shown here.
#[derive(Clone, Copy)]
pub struct Dealer {
    pub dealer: u32,
}

impl Membership for Dealer {
    ghost member = { λ it _ standing. nat_eq standing.subscriber it.dealer };

    fn contains(&self, _subscriber: u32, standing: &Standing) -> bool {
        standing.subscriber == self.dealer
    }
}
