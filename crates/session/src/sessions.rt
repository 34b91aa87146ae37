ghost use Rattle.std.specs.Prelude.{◌≡◌, replicate, IfOk};
ghost use Rattle.ledger.specs.Ledgers.{new_ledger};
ghost use Rattle.rules.specs.Blanks.{blank_intent, blank_slip};

use book::Book;
use rules::calls::{Answer, Call};
use rules::intents::Intent;
use rules::prices::step::StepRule;
use rules::priorities::rule_4_108::{Rule4108, rule_4_108};
use rules::refusals::Refusal;
use rules::slips::Slip;
use std::alloc::{AllocError, Global};

/// A book with the table and the page that it works on. It matches by the pile of Rule 4-108(6), one step inside the quote.
#[derive(Drop)]
pub struct Session {
    book: Book<Rule4108, StepRule>,
    table: Vec<Intent>,
    page: Vec<Slip>,
}

impl Session {
    ghost use Rattle.session.specs.Calls.{call_answer, call_after, with_ledger};

    /// A new book, with a table and a page of that many places.
    pub fn open(heap: Global, places: usize) -> Result<Session, AllocError>
        ensures book { IfOk result (λ s. s.book.ledger ≡ new_ledger) }
        ensures priority { IfOk result (λ s. s.book.rule_set.priority.below.members.threshold ≡ 5000) }
        ensures rule { IfOk result (λ s. s.book.rule_set.rule.ticks ≡ 1) }
        ensures table { IfOk result (λ s. s.table.items ≡ replicate places blank_intent) }
        ensures page { IfOk result (λ s. s.page.items ≡ replicate places blank_slip) }
    {
        let table = vec![in heap; Intent::BLANK; places]?;
        let page = vec![in heap; Slip::BLANK; places]?;
        // the table is made blank: lent here, it would be blanked once more
        let book = Book::open(rule_4_108(), StepRule { ticks: 1 }, &mut []);
        Ok(Session { book, table, page })
    }

    /// Makes a call on the book. A refused call changes nothing.
    pub fn call(&mut self, call: Call) -> Result<Answer, Refusal>
        ensures answer { result ≡ call_answer self.old.book.ledger call }
        ensures after { self.new ≡ with_ledger self.old (call_after self.old.book.ledger call) }
    {
        match call {
            Call::List { security } => {
                self.book.list(security)?;
                Ok(Answer::Listed)
            }
        }
    }
}
