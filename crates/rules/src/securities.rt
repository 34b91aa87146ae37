ghost use Rattle.std.specs.Prelude.{◌≡◌, is_ok, if◌then◌else◌};
ghost use Rattle.rules.specs.Securities.{is_listed, list_outcome, just_listed, in_force};

use crate::phases::Phase;
use crate::quotes::Quote;
use crate::refusals::Refusal;

/// Whether a listed security trades, and if not, why.
#[derive(Clone, Copy)]
pub enum State {
    Open,
    Halted,
    Delayed,
    Frozen,
    Inhibited,
}

/// One security as the book keeps it.
#[derive(Clone, Copy)]
pub struct Security {
    /// Whether somebody has listed it. Beside the state, and no `Option` of it: an unlisted record may hold any state too.
    pub listed: bool,
    pub state: State,
    /// None before the first quote and after one is withdrawn.
    pub quote: Option<Quote>,
}

impl Security {
    /// A security that nobody has listed yet.
    pub const UNLISTED: Security = Security {
        listed: false,
        state: State::Open,
        quote: None,
    };

    /// Lists the security: it is open then and has no quote. Refused where it is listed already.
    pub fn list(&mut self) -> Result<(), Refusal>
        ensures answer { result ≡ list_outcome self.old }
        ensures after { self.new ≡ (if is_ok result then just_listed else self.old) }
    {
        if self.is_listed() {
            return Err(Refusal::Listing);
        }
        *self = Security {
            listed: true,
            state: State::Open,
            quote: None,
        };
        Ok(())
    }

    /// Whether somebody has listed it.
    pub fn is_listed(&self) -> bool
        ensures { result ≡ is_listed self.now }
    {
        self.listed
    }

    /// The quote that the security trades under now: none outside the regular phase, and none unless it is open.
    pub fn quote_in_force(&self, phase: Phase) -> Option<Quote>
        ensures { result ≡ in_force phase self.now }
    {
        match (phase, self.state) {
            (Phase::Regular, State::Open) => self.quote,
            _ => None,
        }
    }
}
