//! The lent table: which places of it count, whether it is lawful, and how it is closed up.
ghost use Rattle.std.specs.Prelude.{◌≡◌, ◌-◌, ◌++◌, length, replicate};
ghost use Rattle.std.specs.List.{position, filter, list_all};
ghost use Rattle.law.specs.Memories.{capacity, lawful_intents, lawful_table};
ghost use Rattle.ledger.specs.Places.{live, may_follow, has_number};
ghost use Rattle.rules.specs.Blanks.{blank_intent};
ghost use Rattle.rules.specs.Intents.{is_blank};

use rules::intents::Intent;

/// The most places of a table that a book uses.
pub const MOST_PLACES: usize = 4_096;

/// How many places of the table a book may use: those beyond are neither read nor written.
pub fn capacity_of(table: &[Intent]) -> usize
    ensures { result ≡ capacity table.now }
{
    table.len().min(MOST_PLACES)
}

/// Whether an intent may rest behind one with the number `last`: in range, with a number above that and below the next one.
fn may_follow(intent: &Intent, last: u32, next: u32) -> bool
    ensures { result ≡ may_follow last next intent.now }
{
    intent.is_in_range() && last < intent.number && intent.number < next
}

/// Whether all are in range, with numbers that rise and are below the next one.
fn are_lawful(intents: &[Intent], next: u32) -> bool
    ensures { result ≡ lawful_intents 0 next intents.now }
{
    let mut last: u32 = 0;
    for i in 0..intents.len() {
        if !may_follow(&intents[i], last, next) {
            return false;
        }
        last = intents[i].number;
    }
    true
}

/// Whether no intent rests in any of these places.
fn are_blank(places: &[Intent]) -> bool
    ensures { result ≡ list_all is_blank places.now }
{
    for i in 0..places.len() {
        if !places[i].is_blank() {
            return false;
        }
    }
    true
}

/// Whether the first places, as many as `count`, hold intents that may rest there, and all later places up to the capacity
/// are blank.
#[tactic(auto, using(crate::proofs::Scans::lawful_parts))]
pub fn is_lawful(table: &[Intent], count: usize, next: u32) -> bool
    ensures { result ≡ lawful_table count next table.now }
{
    let capacity = capacity_of(table);
    if count > capacity {
        return false;
    }
    are_lawful(&table[0..count], next) && are_blank(&table[count..capacity])
}

/// The place of the intent with this number.
pub fn position_of(intents: &[Intent], number: u32) -> Option<usize>
    ensures { result ≡ position (has_number number) intents.now }
{
    intents.iter().position(|intent| intent.number == number)
}

/// Blanks all places.
pub fn blank(places: &mut [Intent])
    ensures { places.new ≡ replicate (length places.old) blank_intent }
{
    places.fill(Intent::BLANK);
}

/// Moves the intents that have something left together, in their order, and blanks the places that come free. Answers how
/// many are left.
pub fn close_up(table: &mut [Intent]) -> usize
    ensures count { result ≡ length (filter live table.old) }
    ensures table { table.new ≡ filter live table.old ++ replicate (length table.old - result) blank_intent }
{
    let mut left: usize = 0;
    for i in 0..table.len() {
        if table[i].remaining > 0 {
            table[left] = table[i];
            left += 1;
        }
    }
    blank(&mut table[left..]);
    left
}
