//! One turn, over intents in place.
ghost use Rattle.std.specs.Prelude.{◌≡◌, ◌≤◌, length, MatchOption};
ghost use Rattle.book.specs.InPlace.{ready, Nowhere, Foremost, Distinct, turn_of, turn_under, alive, Handed};
ghost use Rattle.law.specs.Turns.{active_number};

use law::rule_sets::{Meaning, RuleSet};
use rules::eligibility::Seeker;
use rules::incoming::Incoming;
use rules::intents::{Intent, Standing};
use rules::prices::PriceRule;
use rules::priorities::Priority;
use rules::quotes::Quote;
use rules::slips::{Fill, Slip};

/// What a turn comes to.
#[derive(Clone, Copy)]
pub(crate) struct Turned {
    /// How many slips it wrote.
    pub(crate) slips: usize,
    /// What is left of the incoming volume.
    pub(crate) left: u32,
}

/// The number that a party's fill slips carry: 0 for an order.
fn active_number(number: Option<u32>) -> u32
    ensures { result ≡ active_number number }
{
    number.unwrap_or(0)
}

/// Whether the intent is eligible and has something left.
#[tactic(auto, unfolding(crate::specs::InPlace::ready))]
fn is_ready(seeker: &Seeker, intent: &Intent) -> bool
    ensures { result ≡ ready seeker.now.quote seeker.now.price seeker.now.incoming intent.now }
{
    0 < intent.remaining && seeker.is_eligible(intent)
}

/// The place of the ready intent that no other ready one is ahead of.
fn foremost<P: Priority>(priority: &P, seeker: &Seeker, intents: &[Intent]) -> Option<usize>
    requires { Distinct intents.now (length intents.now) }
    ensures { MatchOption result (Nowhere (ready seeker.now.quote seeker.now.price seeker.now.incoming) intents.now (length intents.now)) (λ i. Foremost (P.Priority.ahead priority.now seeker.now.incoming.subscriber) (ready seeker.now.quote seeker.now.price seeker.now.incoming) intents.now (length intents.now) i) }
{
    let mut best: Option<usize> = None;
    for (i, intent) in intents.iter().enumerate() {
        if is_ready(seeker, intent) {
            match best {
                None => best = Some(i),
                Some(b) => {
                    if priority.is_ahead(
                        seeker.incoming.subscriber,
                        &Standing::from(intent),
                        &Standing::from(&intents[b]),
                    ) {
                        best = Some(i);
                    }
                }
            }
        }
    }
    best
}

/// Hands the incoming volume to the ready intents, foremost first, and writes a slip for each handing, from the page's first
/// place on. An emptied intent keeps its place.
#[tactic(auto, unfolding(crate::specs::InPlace::ready))]
fn hand_out<P: Priority>(
    priority: &P,
    seeker: &Seeker,
    mark: char,
    intents: &mut [Intent],
    page: &mut [Slip],
) -> Turned
    requires apart { Distinct intents.old (length intents.old) }
    requires room { alive intents.old ≤ length page.old }
    ensures { Handed (turn_of (P.Priority.ahead priority.now seeker.now.incoming.subscriber) seeker.now.quote seeker.now.price mark seeker.now.incoming seeker.now.incoming.volume intents.old) seeker.now.incoming.volume intents.old intents.new page.old page.new result }
{
    let active = active_number(seeker.incoming.number);
    let mut left = seeker.incoming.volume;
    let mut slips: usize = 0;
    while left > 0 {
        let Some(i) = foremost(priority, seeker, intents) else {
            break;
        };
        let volume = intents[i].remaining.min(left);
        page[slips] = Slip::Filled(Fill {
            active,
            passive: intents[i].number,
            volume,
            price: seeker.price,
            mark,
        });
        intents[i].remaining -= volume;
        left -= volume;
        slips += 1;
    }
    Turned { slips, left }
}

/// The turn of an incoming party under the quote in force. Where there is none, nobody is eligible.
pub(crate) fn turn<P: Priority, R: PriceRule>(
    rule_set: &RuleSet<P, R>,
    quote: Option<Quote>,
    incoming: &Incoming,
    intents: &mut [Intent],
    page: &mut [Slip],
) -> Turned
    requires apart { Distinct intents.old (length intents.old) }
    requires room { alive intents.old ≤ length page.old }
    ensures { Handed (turn_under (⟦<RuleSet<P, R> as Meaning>⟧.rules rule_set.now) quote incoming.now intents.old) incoming.now.volume intents.old intents.new page.old page.new result }
{
    match quote {
        Some(quote) => {
            let seeker = Seeker::new(&rule_set.rule, quote, *incoming);
            hand_out(&rule_set.priority, &seeker, R::MARK, intents, page)
        }
        None => Turned {
            slips: 0,
            left: incoming.volume,
        },
    }
}
