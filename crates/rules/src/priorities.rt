ghost use Rattle.std.specs.Prelude.{◌≡◌, ℕ, Bool, true, not, ◌≢◌};
ghost use Rattle.rules.specs.declared.intents.Standing.{Standing};

use crate::intents::Standing;

pub mod house_tier;
pub mod large_tier;
pub mod rule_4_108;
pub mod tier;
pub mod time;

/// A priority: for an incoming subscriber, which of two intents is ahead of the other. Turns and sweeps know of a priority
/// no more than is said here.
pub trait Priority {
    /// What the priority means: for a subscriber, whether the first intent is ahead of the second.
    ghost ahead: { Self → ℕ → Standing → Standing → Bool };

    /// Whether the first is ahead of the second.
    fn is_ahead(&self, subscriber: u32, a: &Standing, b: &Standing) -> bool
        ensures { result ≡ ahead self.now subscriber a.now b.now };

    /// Of two intents with different arrival numbers exactly one is ahead.
    ghost total: { (p : Self) (s : ℕ) (a b : Standing) → (a.number ≢ b.number) → ahead p s a b ≡ not (ahead p s b a) };

    /// What is ahead of one is ahead of all that one is ahead of.
    ghost transitive: { (p : Self) (s : ℕ) (a b c : Standing) → ahead p s a b ≡ true → ahead p s b c ≡ true → ahead p s a c ≡ true };
}
