ghost use Rattle.std.specs.Prelude.{◌≡◌};
ghost use Rattle.text.specs.Numbers.{number_of};

/// The largest number that a script can carry.
const LARGEST: u64 = 4_294_967_295;

/// The number that the bytes write in decimal: digits alone, no leading zero, at most 4,294,967,295.
#[tactic(auto, using(crate::proofs::Numerals::too_large))]
pub fn number(value: &[u8]) -> Option<u32>
    ensures { result ≡ number_of value.now }
{
    if matches!(value, [] | [b'0', _, ..]) {
        return None;
    }
    let mut n: u64 = 0;
    for b in value {
        if !b.is_ascii_digit() {
            return None;
        }
        n = n * 10 + u64::from(*b - b'0');
        if n > LARGEST {
            return None;
        }
    }
    u32::try_from(n).ok()
}
