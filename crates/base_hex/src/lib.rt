// Hexadecimal digits: one read, and the two of a byte.
#![tactic(auto)]

ghost use Rattle.std.specs.Prelude.{◌≡◌, ◌/◌, ◌%◌, ◌<◌, MatchOption};
ghost use Rattle.base_hex.specs.Digits.{digit_of, glyph_of};

// The value of a digit of either case, none for any other byte.
#[tactic(auto, unfolding(crate::specs::Digits::digit_of))]
pub fn digit(b: u8) -> Option<u8>
    ensures { MatchOption result (digit_of b ≡ 16) (λ d. (digit_of b ≡ d) × (d < 16)) }
{
    match b {
        b'0'..=b'9' => Some(b - b'0'),
        b'A'..=b'F' => Some(b - b'A' + 10),
        b'a'..=b'f' => Some(b - b'a' + 10),
        _ => None,
    }
}

// A digit, in upper case.
fn glyph(d: u8) -> u8
    requires { d < 16 }
    ensures { result ≡ glyph_of d }
{
    if d < 10 { 48 + d } else { 55 + d }
}

// A byte's first digit.
pub fn high(b: u8) -> u8
    ensures { result ≡ glyph_of (b / 16) }
{
    glyph(b / 16)
}

// A byte's second digit.
pub fn low(b: u8) -> u8
    ensures { result ≡ glyph_of (b % 16) }
{
    glyph(b % 16)
}
