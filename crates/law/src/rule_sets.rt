//! What a book matches by.
ghost use Rattle.law.specs.Turns.{Rules, rules_by};

use rules::prices::PriceRule;
use rules::priorities::Priority;

/// A priority and a price rule: all that the rules of a turn leave open.
#[derive(Clone, Copy, Drop)]
pub struct RuleSet<P: Priority, R: PriceRule> {
    pub priority: P,
    pub rule: R,
}

/// What a rule set means, in the words of the law: clauses name it so.
pub trait Meaning {
    ghost rules: { Self → Rules };
}

impl<P: Priority, R: PriceRule> Meaning for RuleSet<P, R> {
    ghost rules = { λ set. rules_by (P.Priority.ahead set.priority) (R.PriceRule.price set.rule) R.PriceRule.MARK };
}
