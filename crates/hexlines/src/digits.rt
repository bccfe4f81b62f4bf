ghost use Rattle.std.specs.Prelude.{◌≡◌, ◌/◌, ◌%◌, ◌<◌, [], ◌∷◌, drop, Some, None, MatchOption};
ghost use Rattle.hexlines.specs.Hex.{digit, Nibble, Pair};

// The digit of a number below sixteen.
fn digit_of(n: u8) -> u8
    requires { n < 16 }
    ensures { result ≡ digit n }
{
    if n < 10 { b'0' + n } else { b'a' - 10 + n }
}

// The two digits of a byte, the high one first.
pub fn digits_of(b: u8) -> [u8; 2]
    ensures { result ≡ digit (b / 16) ∷ digit (b % 16) ∷ [] }
{
    [digit_of(b / 16), digit_of(b % 16)]
}

// The number of a digit; no other character is one.
fn value_of(c: u8) -> Option<u8>
    ensures { Nibble c result }
{
    match c {
        b'0'..=b'9' => Some(c - b'0'),
        b'a'..=b'f' => Some(c - b'a' + 10),
        _ => None,
    }
}

// The byte whose digits begin a text, if some do, and the text after them.
pub(crate) fn split_byte(text: &[u8]) -> Option<(u8, &[u8])>
    ensures { MatchOption result (Pair text.now None) (λ p. Pair text.now (Some p.0) × (p.1.now ≡ drop 2 text.now)) }
{
    let [high, low, rest @ ..] = text else {
        return None;
    };
    Some((value_of(*high)? * 16 + value_of(*low)?, rest))
}
