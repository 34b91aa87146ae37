ghost use Rattle.std.specs.Prelude.{◌≡◌, Some};
ghost use Rattle.std.specs.Str.{bytes_eq};
ghost use Rattle.text.specs.Names.{spelled, named, known, name_of};

use crate::faults::Cause;
use rules::calls::Call;
use std::fmt;

/// What a script calls a call.
#[derive(Clone, Copy)]
pub(crate) enum CallName {
    List,
}

impl From<&Call> for CallName {
    ghost from_gives = { λ call r. r ≡ name_of call.now };

    fn from(call: &Call) -> CallName {
        match call {
            Call::List { .. } => CallName::List,
        }
    }
}

impl CallName {
    /// The name as it is written.
    pub(crate) fn text(self) -> &'static str
        ensures { result.now ≡ spelled self }
    {
        match self {
            CallName::List => "list",
        }
    }

    /// Whether the bytes spell this name.
    fn spells(self, bytes: &[u8]) -> bool
        ensures { result ≡ bytes_eq bytes.now (spelled self) }
    {
        bytes == self.text().as_bytes()
    }
}

/// Bytes that name no call are no key that is due.
impl TryFrom<&[u8]> for CallName {
    type Error = Cause;

    ghost try_from_gives = { λ bytes r. r ≡ known (named bytes.now) };

    fn try_from(bytes: &[u8]) -> Result<CallName, Cause> {
        let name = CallName::List.spells(bytes).then_some(CallName::List);
        name.ok_or(Cause::Key)
    }
}

impl fmt::Display for CallName {
    ghost output = { λ name. Some (spelled name) };

    fn fmt<W: fmt::Write>(&self, f: &mut fmt::Formatter<W>) -> fmt::Result {
        f.write_str(self.text())
    }
}
