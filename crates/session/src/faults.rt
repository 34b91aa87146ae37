ghost use Rattle.std.specs.Prelude.{◌≡◌};
ghost use Rattle.session.specs.Faults.{fault_of};
ghost use Rattle.session.specs.declared.faults.Fault.TheVariants.{Memory};

use std::alloc::AllocError;
use text::faults::ReadFault;

/// What ends the run of a script before its end.
#[derive(Clone, Copy)]
pub enum Fault {
    /// The reader's own fault, with the line that it stands on.
    Script(ReadFault),
    /// No memory was left for the listing.
    Memory(AllocError),
}

impl From<ReadFault> for Fault {
    ghost from_gives = { λ f r. r ≡ fault_of f };

    fn from(f: ReadFault) -> Fault {
        Fault::Script(f)
    }
}

impl From<AllocError> for Fault {
    ghost from_gives = { λ error r. r ≡ Memory error };

    fn from(error: AllocError) -> Fault {
        Fault::Memory(error)
    }
}
