ghost use Rattle.std.specs.Prelude.{◌≡◌};
ghost use Rattle.law.specs.Answers.{slip_count};

/// What enter answers.
#[derive(Clone, Copy)]
pub struct Entered {
    /// The arrival number that the intent got.
    pub number: u32,
    /// What rests of it after its turn.
    pub resting: u32,
    /// How many slips were written.
    pub slips: usize,
}

/// What order answers.
#[derive(Clone, Copy)]
pub struct Ordered {
    /// What is left of the order after its turn.
    pub residual: u32,
    /// How many slips were written.
    pub slips: usize,
}

/// What an accepted call answers.
#[derive(Clone, Copy)]
pub enum Answer {
    Listed,
    Entered(Entered),
    Cancelled { withdrawn: u32 },
    Ordered(Ordered),
}

impl Answer {
    /// How many slips the call wrote.
    pub fn slips(&self) -> usize
        ensures { result ≡ slip_count self.now }
    {
        match self {
            Answer::Listed | Answer::Cancelled { .. } => 0,
            Answer::Entered(entered) => entered.slips,
            Answer::Ordered(ordered) => ordered.slips,
        }
    }
}
