ghost use Rattle.std.specs.Prelude.{◌≡◌, [], ◌∷◌, slice_index_or};
ghost use Rattle.law.specs.Checks.{checked};
ghost use Rattle.ledger.specs.Ledgers.{new_ledger, list_answer, list_after};
ghost use Rattle.rules.specs.Ranges.{is_security};
ghost use Rattle.rules.specs.Securities.{unlisted, in_force};
ghost use Rattle.rules.specs.declared.refusals.Refusal.TheVariants.{Listing};

use rules::phases::Phase;
use rules::quotes::Quote;
use rules::refusals::Refusal;
use rules::securities::Security;

/// How many securities a book has.
pub const SECURITIES: usize = 64;

/// What a book keeps besides its rules.
#[derive(Clone, Copy)]
pub struct Ledger {
    pub phase: Phase,
    /// The present day.
    pub day: u32,
    /// The arrival number that the next intent gets.
    pub next: u32,
    /// By their numbers.
    pub securities: [Security; SECURITIES],
    /// How many intents rest in the table.
    pub count: usize,
}

/// The place of a security that is to be listed. Refused for a number above 63.
fn place_to_list(security: u32) -> Result<usize, Refusal>
    ensures { result ≡ checked ((is_security security, Listing) ∷ []) security }
{
    let place = security as usize;
    if place < SECURITIES {
        Ok(place)
    } else {
        Err(Refusal::Listing)
    }
}

impl Ledger {
    /// The ledger of a new book: pre-open on day 1, nothing listed and nothing resting.
    pub fn open() -> Ledger
        ensures { result ≡ new_ledger }
    {
        Ledger {
            phase: Phase::PreOpen,
            day: 1,
            next: 1,
            securities: [Security::UNLISTED; SECURITIES],
            count: 0,
        }
    }

    /// Lists a security: it is open then and has no quote. Refused for a number above 63 and for a security that is
    /// listed already; nothing changes then.
    pub fn list(&mut self, security: u32) -> Result<(), Refusal>
        ensures answer { result ≡ list_answer self.old security }
        ensures after { self.new ≡ list_after self.old security }
    {
        let place = place_to_list(security)?;
        self.securities[place].list()
    }

    /// The quote that a security trades under now, if there is one.
    pub fn quote_in_force(&self, security: u32) -> Option<Quote>
        ensures { result ≡ in_force self.now.phase (slice_index_or self.now.securities security unlisted) }
    {
        let security = self.securities.get(security as usize)?;
        security.quote_in_force(self.phase)
    }
}
