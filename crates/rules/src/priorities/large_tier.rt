ghost use Rattle.rules.specs.Priorities.{is_large};

use crate::intents::Standing;
use crate::priorities::tier::{Membership, Tier};

/// The intents whose entered volume reaches the threshold.
#[derive(Clone, Copy)]
pub struct Large {
    /// In shares.
    pub threshold: u32,
}

impl Membership for Large {
    ghost member = { λ large _ standing. is_large large.threshold standing };

    fn contains(&self, _subscriber: u32, standing: &Standing) -> bool {
        self.threshold <= standing.entered
    }
}

/// Large intents go first; two of them, and two others, go as the priority below says.
pub type LargeTier<P> = Tier<Large, P>;
