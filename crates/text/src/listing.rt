ghost use Rattle.std.specs.Prelude.{◌≡◌, ◌++◌, is_ok, if◌then◌else◌, string_bytes};
ghost use Rattle.text.specs.Listings.{outcome_text, fault_text};

use crate::faults::ReadFault;
use crate::names::CallName;
use rules::calls::{Answer, Call};
use rules::refusals::Refusal;
use std::alloc::AllocError;

/// Appends what a call came to. Where memory is wanting, the listing stays as it was.
pub fn write_outcome(
    listing: &mut String,
    call: &Call,
    outcome: &Result<Answer, Refusal>,
) -> Result<(), AllocError>
    ensures { string_bytes listing.new ≡ (if is_ok result then string_bytes listing.old ++ outcome_text call.now outcome.now else string_bytes listing.old) }
{
    let heap = *listing.allocator();
    let text = match outcome {
        Ok(_) => {
            let name = CallName::from(call);
            format!(in heap; "ok={name}\n")?
        }
        Err(refusal) => {
            let number = u32::from(*refusal);
            format!(in heap; "refused={number}\n")?
        }
    };
    listing.push_str(&text)
}

/// Appends the fault that ended a script. Where memory is wanting, the listing stays as it was.
pub fn write_fault(listing: &mut String, fault: &ReadFault) -> Result<(), AllocError>
    ensures { string_bytes listing.new ≡ (if is_ok result then string_bytes listing.old ++ fault_text fault.now else string_bytes listing.old) }
{
    let heap = *listing.allocator();
    let text = format!(in heap; "{fault}")?;
    listing.push_str(&text)
}
