//! Turns driven through the book's calls. No call sets a quote or the phase yet, so a book is made ready here, in its own
//! crate.
use crate::books::Book;
use law::calls::{Reference, Terms};
use rules::intents::{Intent, Side};
use rules::minimums::Minimums;
use rules::orders::Order;
use rules::phases::Phase;
use rules::prices::PriceRule;
use rules::prices::step::StepRule;
use rules::priorities::Priority;
use rules::priorities::rule_4_108::rule_4_108;
use rules::priorities::time::Time;
use rules::refusals::Refusal;
use rules::securities::{Security, State};
use rules::slips::{Fill, Slip};
use rules::worked_examples::WIDE;
use std::test::Fail;

const STEP: StepRule = StepRule { ticks: 1 };

/// Subscriber, group and volume of five sells, by arrival.
const SELLS: [(u32, u32, u32); 5] = [
    (8, 1, 4_999),
    (7, 2, 1_000),
    (9, 1, 5_000),
    (7, 1, 500),
    (7, 1, 6_000),
];

/// A book in the regular phase, with security 0 listed and quoted.
fn ready<P: Priority>(priority: P, table: &mut [Intent]) -> Book<P, StepRule> {
    let mut book = Book::open(priority, STEP, table);
    book.ledger.phase = Phase::Regular;
    book.ledger.securities[0] = Security {
        listed: true,
        state: State::Open,
        quote: Some(WIDE),
    };
    book
}

fn terms(subscriber: u32, group: u32, side: Side, volume: u32, limit: u32) -> Terms {
    Terms {
        security: 0,
        subscriber,
        group,
        side,
        volume,
        limit,
        minimums: Minimums::NONE,
        last_day: 1,
    }
}

fn reference(subscriber: u32, number: u32) -> Reference {
    Reference { subscriber, number }
}

fn market_buy(subscriber: u32, volume: u32, jitney: bool) -> Order {
    Order {
        security: 0,
        subscriber,
        side: Side::Buy,
        volume,
        limit: None,
        jitney,
    }
}

/// Enters the five sells.
fn enter_sells<P: Priority>(
    book: &mut Book<P, StepRule>,
    table: &mut [Intent],
    page: &mut [Slip],
) -> Result<(), Refusal> {
    for (subscriber, group, volume) in SELLS {
        let sell = terms(subscriber, group, Side::Sell, volume, 1000);
        book.enter(table, page, &sell)?;
    }
    Ok(())
}

/// The slip of a fill by the step rule.
fn filled(active: u32, passive: u32, volume: u32, price: u64) -> Slip {
    Slip::Filled(Fill {
        active,
        passive,
        volume,
        price,
        mark: StepRule::MARK,
    })
}

#[test]
fn house_then_large_then_time(rt: HostRuntime) -> Result<(), Fail> {
    let mut table = [Intent::BLANK; 8];
    let mut page = [Slip::BLANK; 8];
    let mut book = ready(rule_4_108(), &mut table);
    assert!(rt; enter_sells(&mut book, &mut table, &mut page).is_ok());
    let first = accepted(book.order(&mut table, &mut page, &market_buy(7, 9_000, false)))?;
    assert_eq!(rt; (first.residual, first.slips), (0, 4));
    assert_eq!(rt; page[0], filled(0, 4, 500, 2018));
    assert_eq!(rt; page[1], filled(0, 5, 6_000, 2018));
    assert_eq!(rt; page[2], filled(0, 2, 1_000, 2018));
    assert_eq!(rt; page[3], filled(0, 3, 1_500, 2018));
    // Number 3 has 3,500 left of 5,000, and stays large.
    let second = accepted(book.order(&mut table, &mut page, &market_buy(6, 4_000, false)))?;
    assert_eq!(rt; (second.residual, second.slips), (0, 2));
    assert_eq!(rt; page[0], filled(0, 3, 3_500, 2018));
    assert_eq!(rt; page[1], filled(0, 1, 500, 2018));
    assert_eq!(rt;
        (book.ledger.count, table[0].remaining, table[1].number),
        (1, 4_499, 0)
    );
    Ok(())
}

#[test]
fn by_time_alone(rt: HostRuntime) -> Result<(), Fail> {
    let mut table = [Intent::BLANK; 8];
    let mut page = [Slip::BLANK; 8];
    let mut book = ready(Time, &mut table);
    assert!(rt; enter_sells(&mut book, &mut table, &mut page).is_ok());
    let ordered = accepted(book.order(&mut table, &mut page, &market_buy(7, 9_000, false)))?;
    assert_eq!(rt; (ordered.residual, ordered.slips), (0, 3));
    assert_eq!(rt; page[0], filled(0, 1, 4_999, 2018));
    assert_eq!(rt; page[1], filled(0, 2, 1_000, 2018));
    assert_eq!(rt; page[2], filled(0, 3, 3_001, 2018));
    Ok(())
}

#[test]
fn who_came_first_decides_the_price(rt: HostRuntime) -> Result<(), Fail> {
    let mut table = [Intent::BLANK; 2];
    let mut page = [Slip::BLANK; 2];
    let buy = terms(8, 1, Side::Buy, 500, 1003);
    let sell = terms(9, 1, Side::Sell, 700, 1000);
    let mut book = ready(rule_4_108(), &mut table);
    assert!(rt; book.enter(&mut table, &mut page, &buy).is_ok());
    let entered = accepted(book.enter(&mut table, &mut page, &sell))?;
    assert_eq!(rt;
        (entered.number, entered.resting, entered.slips),
        (2, 200, 1)
    );
    assert_eq!(rt; page[0], filled(2, 1, 500, 2002));
    // With the arrivals exchanged the buy would have to pay 2018, and both rest.
    let mut book = ready(rule_4_108(), &mut table);
    assert!(rt; book.enter(&mut table, &mut page, &sell).is_ok());
    assert!(rt; book.enter(&mut table, &mut page, &buy).is_ok());
    assert_eq!(rt;
        (book.ledger.count, table[0].remaining, table[1].remaining),
        (2, 700, 500)
    );
    Ok(())
}

/// The answer of a call that is not to be refused.
fn accepted<T: Drop>(outcome: Result<T, Refusal>) -> Result<T, Fail> {
    outcome.map_err(|_| Fail::new("refused"))
}

/// The number of a refusal.
fn refused<T: Drop>(outcome: Result<T, Refusal>) -> Option<u32> {
    outcome.err().map(u32::from)
}

#[test]
fn refusals_of_memory_and_room(rt: HostRuntime) {
    let mut table = [Intent::BLANK; 1];
    let mut page = [Slip::BLANK; 1];
    let mut book = ready(rule_4_108(), &mut table);
    let sell = terms(9, 1, Side::Sell, 700, 1000);
    let buy = terms(8, 1, Side::Buy, 500, 1010);
    assert_eq!(rt; refused(book.enter(&mut table, &mut page, &sell)), None);
    // Full, although the buy would be filled at once.
    assert_eq!(rt; refused(book.enter(&mut table, &mut page, &buy)), Some(25));
    assert_eq!(rt;
        refused(book.order(&mut table, &mut [], &market_buy(8, 100, false))),
        Some(2)
    );
    book.ledger.count = 0;
    assert_eq!(rt;
        refused(book.order(&mut table, &mut page, &market_buy(8, 100, false))),
        Some(1)
    );
    book.ledger.count = 1;
    book.ledger.next = 1_000_000_000;
    assert_eq!(rt;
        refused(book.cancel(&mut table, &reference(8, 1))),
        Some(24)
    );
    assert_eq!(rt; refused(book.cancel(&mut table, &reference(9, 1))), None);
    assert_eq!(rt; refused(book.enter(&mut table, &mut page, &buy)), Some(26));
}

#[test]
fn a_jitney_order_meets_nobody(rt: HostRuntime) -> Result<(), Fail> {
    let mut table = [Intent::BLANK; 8];
    let mut page = [Slip::BLANK; 8];
    let mut book = ready(rule_4_108(), &mut table);
    assert!(rt; enter_sells(&mut book, &mut table, &mut page).is_ok());
    let ordered = accepted(book.order(&mut table, &mut page, &market_buy(7, 9_000, true)))?;
    assert_eq!(rt; (ordered.residual, ordered.slips), (9_000, 0));
    Ok(())
}
