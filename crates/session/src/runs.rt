ghost use Rattle.std.specs.Prelude.{◌≡◌, replicate, IfOk, string_bytes, OnOk};
ghost use Rattle.ledger.specs.Ledgers.{new_ledger};
ghost use Rattle.rules.specs.Blanks.{blank_intent, blank_slip};
ghost use Rattle.session.specs.Calls.{with_ledger};
ghost use Rattle.session.specs.Plays.{Played, UnlessMemory, Closed};
ghost use Rattle.session.specs.Runs.{listing_text, after_run};
ghost use Rattle.text.specs.Readings.{reading};

use crate::faults::Fault;
use crate::sessions::Session;
use std::alloc::{AllocError, Global};
use text::listing::{write_fault, write_outcome};
use text::reader::Reader;
use text::reading::check_length;

/// How many places the program's table and page have.
pub const PLACES: usize = 256;

/// What a script came to: the session after it, and its listing.
#[derive(Drop)]
pub struct Transcript {
    pub session: Session,
    pub listing: String,
}

/// Runs a script on a new book with a table and a page of 256 places each.
pub fn run_script(heap: Global, script: &[u8]) -> Result<Transcript, AllocError>
    ensures listing { IfOk result (λ t. string_bytes t.listing ≡ listing_text new_ledger (reading script.now)) }
    ensures book { IfOk result (λ t. t.session.book.ledger ≡ after_run new_ledger (reading script.now)) }
    ensures priority { IfOk result (λ t. t.session.book.rule_set.priority.below.members.threshold ≡ 5000) }
    ensures rule { IfOk result (λ t. t.session.book.rule_set.rule.ticks ≡ 1) }
    ensures table { IfOk result (λ t. t.session.table.items ≡ replicate 256 blank_intent) }
    ensures page { IfOk result (λ t. t.session.page.items ≡ replicate 256 blank_slip) }
{
    let session = Session::open(heap, PLACES)?;
    session.run(heap, script)
}

/// Closes a listing by the fault that ended the script, if one did.
fn close(listing: &mut String, ended: Result<(), Fault>) -> Result<(), AllocError>
    ensures { OnOk result (Closed ended (string_bytes listing.old) (string_bytes listing.new)) }
{
    match ended {
        Ok(()) => Ok(()),
        Err(Fault::Script(fault)) => write_fault(listing, &fault),
        Err(Fault::Memory(error)) => Err(error),
    }
}

impl Session {
    /// Runs a script: makes its calls, up to its end or its first fault, and writes its listing.
    pub fn run(mut self, heap: Global, script: &[u8]) -> Result<Transcript, AllocError>
        ensures listing { IfOk result (λ t. string_bytes t.listing ≡ listing_text self.book.ledger (reading script.now)) }
        ensures session { IfOk result (λ t. t.session ≡ with_ledger self (after_run self.book.ledger (reading script.now))) }
    {
        let mut listing = String::new(heap);
        let ended = self.play(script, &mut listing);
        close(&mut listing, ended)?;
        Ok(Transcript {
            session: self,
            listing,
        })
    }

    /// Makes the calls of a script, and appends what each came to.
    fn play(&mut self, script: &[u8], listing: &mut String) -> Result<(), Fault>
        ensures played { UnlessMemory result (Played (reading script.now) self.old.book.ledger (string_bytes listing.old) self.new.book.ledger (string_bytes listing.new) result) }
        ensures stays { self.new ≡ with_ledger self.old self.new.book.ledger }
    {
        check_length(script)?;
        let mut reader = Reader::new(script);
        while let Some(call) = reader.next_call()? {
            let outcome = self.call(call);
            write_outcome(listing, &call, &outcome)?;
        }
        Ok(())
    }
}
