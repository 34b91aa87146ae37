ghost use Rattle.std.specs.Prelude.{◌≡◌, ◌<◌, length, IfSome};
ghost use Rattle.text.specs.Lines.{lines, cut};

/// Where the first line ends, if it does.
pub(crate) fn line_end(text: &[u8]) -> Option<usize>
    ensures within { IfSome result (λ i. i < length text.now) }
    ensures lines { lines text.now ≡ cut result text.now }
{
    text.iter().position(|byte| *byte == b'\n')
}
