/// A call on the book. Its numbers come as the caller gave them: nothing is narrowed before the book has checked it.
#[derive(Clone, Copy)]
pub enum Call {
    List { security: u32 },
}

/// What an accepted call answers.
#[derive(Clone, Copy)]
pub enum Answer {
    Listed,
}
