ghost use Rattle.std.specs.Prelude.{◌≡◌};
ghost use Rattle.rules.specs.Refusals.{number};

/// Why a call is refused, with the number by which a listing prints it. The book checks by rising number, and the first
/// that applies is the only answer.
#[derive(Clone, Copy)]
pub enum Refusal {
    /// The table is not lawful.
    Table = 1,
    /// The page has fewer places than intents rest.
    Page = 2,
    /// The security's number is above 63, or it is listed already.
    Listing = 10,
    /// The security's number is above 63, or it is not listed.
    NotListed = 11,
    /// The subscriber or the group is out of range.
    Party = 20,
    /// The volume is out of range.
    Volume = 21,
    /// The limit or a minimum is out of range.
    Limit = 22,
    /// The last day is before the present day, or out of range.
    LastDay = 23,
    /// No intent of this subscriber rests under the number.
    NotResting = 24,
    /// As many intents rest as the table has places.
    Full = 25,
    /// No arrival number is left.
    NumbersUsedUp = 26,
}

impl From<Refusal> for u32 {
    ghost from_gives = { λ refusal r. r ≡ number refusal };

    fn from(refusal: Refusal) -> u32 {
        refusal as u32
    }
}
