ghost use Rattle.std.specs.Prelude.{◌≡◌, ◌≤◌, true, [], length, take, IfOk};
ghost use Rattle.book.specs.Matches.{ComesNew, Matched};
ghost use Rattle.law.specs.Memories.{account, lawful_table, laid_out};
ghost use Rattle.law.specs.Accounts.{new_intent};
ghost use Rattle.law.specs.Outcomes.{enter_answer, cancel_answer, order_answer, after};
ghost use Rattle.law.specs.Turns.{LawfulQuotes, OnlyTurn, fills};
ghost use Rattle.law.specs.declared.calls.Call.TheVariants.{Enter as enter_call, Cancel as cancel_call, Order as order_call};
ghost use Rattle.ledger.specs.Ledgers.{new_ledger, memory, ledger_of, list_answer, list_after};
ghost use Rattle.rules.specs.Incoming.{intent_incoming, order_incoming};

use crate::among::{close_among, rest_behind, turn_among};
use crate::turns::Turned;
use law::answers::{Entered, Ordered};
use law::calls::{Reference, Terms};
use law::rule_sets::{Meaning, RuleSet};
use ledger::ledgers::Ledger;
use ledger::tables::{blank, capacity_of};
use rules::incoming::Incoming;
use rules::intents::Intent;
use rules::orders::Order;
use rules::prices::PriceRule;
use rules::priorities::Priority;
use rules::refusals::Refusal;
use rules::slips::Slip;

#[cfg(test)]
mod tests;

/// A book that matches by a priority and a price rule.
#[derive(Clone, Copy, Drop)]
pub struct Book<P: Priority, R: PriceRule> {
    rule_set: RuleSet<P, R>,
    ledger: Ledger,
}

impl<P: Priority, R: PriceRule> Book<P, R> {
    /// A new book over a lent table, whose places it blanks up to its capacity.
    pub fn open(priority: P, rule: R, table: &mut [Intent]) -> Book<P, R>
        ensures book { result ≡ record { rule_set = record { priority = priority; rule = rule }; ledger = new_ledger } }
        ensures table { table.new ≡ laid_out [] table.old }
    {
        let capacity = capacity_of(table);
        blank(&mut table[0..capacity]);
        Book {
            rule_set: RuleSet { priority, rule },
            ledger: Ledger::open(),
        }
    }

    /// Lists a security: it is open then and has no quote. It needs neither table nor page.
    pub fn list(&mut self, security: u32) -> Result<(), Refusal>
        ensures answer { result ≡ list_answer self.old.ledger security }
        ensures book { self.new ≡ record self.old { ledger = list_after self.old.ledger security } }
    {
        self.ledger.list(security)
    }

    /// A new intent: it takes the next number, has its turn, and what is left of it rests behind all others.
    #[tactic(auto, using(law::proofs::Outcomes::after_refused, crate::proofs::Entering::enter_after))]
    pub fn enter(
        &mut self,
        table: &mut [Intent],
        page: &mut [Slip],
        terms: &Terms,
    ) -> Result<Entered, Refusal>
        ensures answer { result ≡ enter_answer (⟦<RuleSet<P, R> as Meaning>⟧.rules self.old.rule_set) (memory self.old.ledger table.old page.old) terms.now }
        ensures book { self.new ≡ record self.old { ledger = ledger_of (after (⟦<RuleSet<P, R> as Meaning>⟧.rules self.old.rule_set) (memory self.old.ledger table.old page.old) (enter_call terms.now)) } }
        ensures table { table.new ≡ (after (⟦<RuleSet<P, R> as Meaning>⟧.rules self.old.rule_set) (memory self.old.ledger table.old page.old) (enter_call terms.now)).table }
        ensures page { page.new ≡ (after (⟦<RuleSet<P, R> as Meaning>⟧.rules self.old.rule_set) (memory self.old.ledger table.old page.old) (enter_call terms.now)).page }
        ensures fits { IfOk result (λ x. x.slips ≤ length page.old) }
        ensures turn { IfOk result (λ x. LawfulQuotes self.old.ledger.securities → OnlyTurn (⟦<RuleSet<P, R> as Meaning>⟧.rules self.old.rule_set) (account (memory self.old.ledger table.old page.old)) (intent_incoming (new_intent self.old.ledger.next terms.now)) (fills (take x.slips page.new))) }
    {
        self.ledger.check_enter(table, page, terms)?;
        let number = self.ledger.next;
        let intent = terms.intent(number);
        let turned = self.match_incoming(table, page, &Incoming::from(&intent));
        self.ledger.next = number + 1;
        self.ledger.count = rest_behind(table, self.ledger.count, &intent, turned.left);
        Ok(Entered {
            number,
            resting: turned.left,
            slips: turned.slips,
        })
    }

    /// Withdraws what remains of a subscriber's resting intent, and answers how much that was.
    #[tactic(auto, using(crate::proofs::Cancelling::cancel_refused, crate::proofs::Cancelling::cancel_after))]
    pub fn cancel(&mut self, table: &mut [Intent], reference: &Reference) -> Result<u32, Refusal>
        ensures answer { result ≡ cancel_answer (memory self.old.ledger table.old []) reference.now.subscriber reference.now.number }
        ensures book { self.new ≡ record self.old { ledger = ledger_of (after (⟦<RuleSet<P, R> as Meaning>⟧.rules self.old.rule_set) (memory self.old.ledger table.old []) (cancel_call reference.now)) } }
        ensures table { table.new ≡ (after (⟦<RuleSet<P, R> as Meaning>⟧.rules self.old.rule_set) (memory self.old.ledger table.old []) (cancel_call reference.now)).table }
    {
        let place = self.ledger.check_cancel(table, reference)?;
        let withdrawn = table[place].remaining;
        table[place].remaining = 0;
        self.ledger.count = close_among(table, self.ledger.count);
        Ok(withdrawn)
    }

    /// An order's turn: it takes what it can from resting intents and never rests.
    #[tactic(auto, using(law::proofs::Outcomes::after_refused, crate::proofs::Ordering::order_after))]
    pub fn order(
        &mut self,
        table: &mut [Intent],
        page: &mut [Slip],
        order: &Order,
    ) -> Result<Ordered, Refusal>
        ensures answer { result ≡ order_answer (⟦<RuleSet<P, R> as Meaning>⟧.rules self.old.rule_set) (memory self.old.ledger table.old page.old) order.now }
        ensures book { self.new ≡ record self.old { ledger = ledger_of (after (⟦<RuleSet<P, R> as Meaning>⟧.rules self.old.rule_set) (memory self.old.ledger table.old page.old) (order_call order.now)) } }
        ensures table { table.new ≡ (after (⟦<RuleSet<P, R> as Meaning>⟧.rules self.old.rule_set) (memory self.old.ledger table.old page.old) (order_call order.now)).table }
        ensures page { page.new ≡ (after (⟦<RuleSet<P, R> as Meaning>⟧.rules self.old.rule_set) (memory self.old.ledger table.old page.old) (order_call order.now)).page }
        ensures fits { IfOk result (λ x. x.slips ≤ length page.old) }
        ensures turn { IfOk result (λ x. LawfulQuotes self.old.ledger.securities → OnlyTurn (⟦<RuleSet<P, R> as Meaning>⟧.rules self.old.rule_set) (account (memory self.old.ledger table.old page.old)) (order_incoming order.now) (fills (take x.slips page.new))) }
    {
        self.ledger.check_order(table, page, order)?;
        let turned = self.match_incoming(table, page, &Incoming::from(order));
        Ok(Ordered {
            residual: turned.left,
            slips: turned.slips,
        })
    }

    /// The turn of a new party against the resting intents; those that it empties leave.
    #[tactic(auto, using(crate::proofs::Matching::few_alive))]
    fn match_incoming(
        &mut self,
        table: &mut [Intent],
        page: &mut [Slip],
        incoming: &Incoming,
    ) -> Turned
        requires lawful { lawful_table self.old.ledger.count self.old.ledger.next table.old ≡ true }
        requires room { self.old.ledger.count ≤ length page.old }
        requires new { ComesNew incoming.now.number self.old.ledger.next }
        ensures matched { Matched (⟦<RuleSet<P, R> as Meaning>⟧.rules self.old.rule_set) incoming.now (memory self.old.ledger table.old page.old) (memory self.new.ledger table.new page.new) result }
        ensures rule_set { self.new.rule_set ≡ self.old.rule_set }
    {
        let quote = self.ledger.quote_in_force(incoming.security);
        let count = self.ledger.count;
        let turned = turn_among(&self.rule_set, quote, incoming, table, count, page);
        self.ledger.count = close_among(table, count);
        turned
    }
}
