// Conversions between widths of numbers, one name each. A usize has 64 bits, so none loses anything.
#![tactic(auto)]

ghost use Rattle.std.specs.Prelude.{◌≡◌, ◌<◌};

// A place or a length as a word.
pub fn word(x: usize) -> u64
    ensures { result ≡ x }
{
    x as u64
}

// A word as a place or a length.
pub fn index(x: u64) -> usize
    ensures { result ≡ x }
{
    x as usize
}

// An octet as a word.
pub fn wide(x: u8) -> u64
    ensures value { result ≡ x }
    ensures upper_bound { result < 256 }
{
    x as u64
}

// An octet as a place or a length.
pub fn size(x: u8) -> usize
    ensures { result ≡ x }
{
    x as usize
}
