//! The checks of each call, in their order: the first that fails is the refusal.
ghost use Rattle.std.specs.Prelude.{◌≡◌, ◌<◌, ◌&&◌, [], ◌∷◌, length, take, IfOk, nat_le, slice_index_or};
ghost use Rattle.std.specs.List.{position_or_len};
ghost use Rattle.law.specs.Accounts.{find};
ghost use Rattle.law.specs.Checks.{checked, is_price_if_any, is_of, table_check, page_check, enter_checks, order_checks, cancel_checks};
ghost use Rattle.ledger.specs.Ledgers.{memory};
ghost use Rattle.ledger.specs.Places.{has_number};
ghost use Rattle.rules.specs.Minimums.{are_minimums};
ghost use Rattle.rules.specs.Ranges.{is_security, is_subscriber, is_group, is_price, is_day};
ghost use Rattle.rules.specs.Securities.{unlisted, is_listed};
ghost use Rattle.rules.specs.declared.refusals.Refusal.TheVariants.{NotResting};

use crate::ledgers::Ledger;
use crate::tables::{capacity_of, is_lawful, position_of};
use law::calls::{Reference, Terms};
use rules::intents::Intent;
use rules::minimums::Minimums;
use rules::orders::Order;
use rules::ranges::Range;
use rules::refusals::Refusal;
use rules::slips::Slip;

/// Refuses where a test failed.
fn need(test: bool, refusal: Refusal) -> Result<(), Refusal>
    ensures { result ≡ checked ((test, refusal) ∷ []) tt }
{
    if test { Ok(()) } else { Err(refusal) }
}

/// Whether there can be such a subscriber, with such a group.
fn is_party(subscriber: u32, group: u32) -> bool
    ensures { result ≡ is_subscriber subscriber && is_group group }
{
    Range::SUBSCRIBERS.contains(subscriber) && Range::GROUPS.contains(group)
}

/// Whether a limit and the minimums of an intent are in range.
fn are_bounds(limit: u32, minimums: &Minimums) -> bool
    ensures { result ≡ is_price limit && are_minimums minimums.now }
{
    Range::PRICES.contains(limit) && minimums.are_in_range()
}

/// Whether an order's limit is in range, if it has one.
fn is_limit(limit: Option<u32>) -> bool
    ensures { result ≡ is_price_if_any limit }
{
    limit.is_none_or(|limit| Range::PRICES.contains(limit))
}

/// The place of the intent that a subscriber names.
#[tactic(auto, using(crate::proofs::Scans::found))]
fn place_of(intents: &[Intent], reference: &Reference) -> Result<usize, Refusal>
    ensures within { IfOk result (λ k. k < length intents.now) }
    ensures answer { result ≡ checked ((is_of reference.now.subscriber (find reference.now.number intents.now), NotResting) ∷ []) (position_or_len (has_number reference.now.number) intents.now) }
{
    match position_of(intents, reference.number) {
        Some(place) if intents[place].subscriber == reference.subscriber => Ok(place),
        _ => Err(Refusal::NotResting),
    }
}

impl Ledger {
    /// Whether the security is listed.
    fn is_listed(&self, security: u32) -> bool
        ensures { result ≡ is_security security && is_listed (slice_index_or self.now.securities security unlisted) }
    {
        let security = self.securities.get(security as usize);
        security.is_some_and(|security| security.is_listed())
    }

    /// Whether a last day has not passed yet.
    fn is_last_day(&self, day: u32) -> bool
        ensures { result ≡ nat_le self.now.day day && is_day day }
    {
        self.day <= day && Range::DAYS.contains(day)
    }

    /// Checks the lent table.
    fn check_table(&self, table: &[Intent]) -> Result<(), Refusal>
        ensures { result ≡ checked (table_check (memory self.now table.now []) ∷ []) tt }
    {
        need(is_lawful(table, self.count, self.next), Refusal::Table)
    }

    /// Checks the lent table and the lent page.
    fn check_memory(&self, table: &[Intent], page: &[Slip]) -> Result<(), Refusal>
        ensures { result ≡ checked (table_check (memory self.now table.now page.now) ∷ (page_check (memory self.now table.now page.now) ∷ [])) tt }
    {
        self.check_table(table)?;
        need(self.count <= page.len(), Refusal::Page)
    }

    /// Checks the call enter.
    pub fn check_enter(&self, table: &[Intent], page: &[Slip], terms: &Terms) -> Result<(), Refusal>
        ensures { result ≡ checked (enter_checks (memory self.now table.now page.now) terms.now) tt }
    {
        self.check_memory(table, page)?;
        need(self.is_listed(terms.security), Refusal::NotListed)?;
        need(is_party(terms.subscriber, terms.group), Refusal::Party)?;
        need(Range::VOLUMES.contains(terms.volume), Refusal::Volume)?;
        need(are_bounds(terms.limit, &terms.minimums), Refusal::Limit)?;
        need(self.is_last_day(terms.last_day), Refusal::LastDay)?;
        need(self.count < capacity_of(table), Refusal::Full)?;
        need(self.next <= Range::NUMBERS.high, Refusal::NumbersUsedUp)
    }

    /// Checks the call order.
    pub fn check_order(&self, table: &[Intent], page: &[Slip], order: &Order) -> Result<(), Refusal>
        ensures { result ≡ checked (order_checks (memory self.now table.now page.now) order.now) tt }
    {
        self.check_memory(table, page)?;
        need(self.is_listed(order.security), Refusal::NotListed)?;
        need(
            Range::SUBSCRIBERS.contains(order.subscriber),
            Refusal::Party,
        )?;
        need(Range::VOLUMES.contains(order.volume), Refusal::Volume)?;
        need(is_limit(order.limit), Refusal::Limit)
    }

    /// Checks the call cancel, and answers the place of the intent.
    pub fn check_cancel(&self, table: &[Intent], reference: &Reference) -> Result<usize, Refusal>
        ensures within { IfOk result (λ k. k < length table.now) }
        ensures answer { result ≡ checked (cancel_checks (memory self.now table.now []) reference.now.subscriber reference.now.number) (position_or_len (has_number reference.now.number) (take self.now.count table.now)) }
    {
        self.check_table(table)?;
        place_of(&table[0..self.count], reference)
    }
}
