ghost use Rattle.std.specs.Prelude.{◌≤◌, length};

/// A script, and how far it has been read.
#[derive(Clone, Copy)]
pub struct Reader<'a> {
    pub(crate) text: &'a [u8],
    /// Where the next line begins.
    pub(crate) at: usize,
    /// How many lines have been read.
    pub(crate) line: usize,
    ghost within: { at ≤ length text.now },
    ghost counted: { line ≤ at },
}
