//! A turn and a closing up among the first places of a longer table.
ghost use Rattle.std.specs.Prelude.{◌≡◌, ◌+◌, ◌-◌, ◌<◌, ◌≤◌, ◌++◌, length, take, drop, replicate, if◌then◌else◌, nat_lt, slice_set};
ghost use Rattle.std.specs.List.{filter};
ghost use Rattle.book.specs.InPlace.{Distinct, turn_under, alive, Handed};
ghost use Rattle.law.specs.Accounts.{with_left};
ghost use Rattle.ledger.specs.Places.{live};
ghost use Rattle.rules.specs.Blanks.{blank_intent};

use crate::turns::{Turned, turn};
use law::rule_sets::{Meaning, RuleSet};
use ledger::tables::close_up;
use rules::incoming::Incoming;
use rules::intents::Intent;
use rules::prices::PriceRule;
use rules::priorities::Priority;
use rules::quotes::Quote;
use rules::slips::Slip;

/// The turn of an incoming party against the first `count` intents.
pub(crate) fn turn_among<P: Priority, R: PriceRule>(
    rule_set: &RuleSet<P, R>,
    quote: Option<Quote>,
    incoming: &Incoming,
    table: &mut [Intent],
    count: usize,
    page: &mut [Slip],
) -> Turned
    requires within { count ≤ length table.old }
    requires apart { Distinct table.old count }
    requires room { alive (take count table.old) ≤ length page.old }
    ensures handed { Handed (turn_under (⟦<RuleSet<P, R> as Meaning>⟧.rules rule_set.now) quote incoming.now (take count table.old)) incoming.now.volume (take count table.old) (take count table.new) page.old page.new result }
    ensures beyond { drop count table.new ≡ drop count table.old }
{
    turn(rule_set, quote, incoming, &mut table[0..count], page)
}

/// Closes up the first `count` places, and answers how many intents have something left.
pub(crate) fn close_among(table: &mut [Intent], count: usize) -> usize
    requires { count ≤ length table.old }
    ensures count { result ≡ length (filter live (take count table.old)) }
    ensures table { table.new ≡ filter live (take count table.old) ++ (replicate (count - result) blank_intent ++ drop count table.old) }
{
    close_up(&mut table[0..count])
}

/// Puts what is left of an intent, if anything is, behind the `count` that rest. Answers how many rest then.
pub(crate) fn rest_behind(table: &mut [Intent], count: usize, intent: &Intent, left: u32) -> usize
    requires { count < length table.old }
    ensures count { result ≡ (if nat_lt 0 left then count + 1 else count) }
    ensures table { table.new ≡ (if nat_lt 0 left then slice_set table.old count (with_left intent.now left) else table.old) }
{
    if left == 0 {
        return count;
    }
    table[count] = Intent {
        remaining: left,
        ..*intent
    };
    count + 1
}
