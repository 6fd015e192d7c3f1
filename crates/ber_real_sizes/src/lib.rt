// How many content octets a double takes: as it is written, and at least, among all octets that are read as it.
#![tactic(auto)]

ghost use Rattle.std.specs.Prelude.{◌≡◌, ◌+◌, ◌≤◌, ◌<◌, ◌^◌};
ghost use Rattle.std.specs.Float.Ieee.{minus, size, of_bits};
ghost use Rattle.std.specs.Float.{binary64};
ghost use Rattle.ber_reals.specs.Number.{odd_part, halvings};
ghost use Rattle.ber_real_sizes.specs.Sizes.{is_written, written_size, least_size, number_size, number_least, HasSizes};

// What a double's size hangs on: the binary digits of its odd mantissa and its power units - 1,074; of an infinity, a zero or a NaN the size itself.
#[derive(Clone, Copy)]
enum Content {
    Number { digits: u64, units: u64 },
    Octets(usize),
}

// The written octets of an odd mantissa of b bits and the power units - 1,074.
fn written_at(b: u64, units: u64) -> usize
    requires { (b ≤ 64) × (units < 4096) }
    ensures value { result ≡ number_size b (minus units 1074) }
    ensures lower_bound { (2 ≤ result) × (result ≤ 11) }
{
    let octets = ((b + 7) / 8) as usize;
    if units < 1074 - 128 {
        return 3 + octets;
    }
    if units < 1074 + 128 {
        return 2 + octets;
    }
    3 + octets
}

// The fewest: one less where a scale of up to 3 and the mantissa's free bits bring an exponent over 127 down to it.
fn least_at(b: u64, units: u64) -> usize
    requires { (b ≤ 64) × (units < 4096) }
    ensures { result ≡ number_least b (minus units 1074) }
{
    let written = written_at(b, units);
    if units <= 1074 + 127 {
        return written;
    }
    let spare = 8 * ((b + 7) / 8) - b;
    if 127 + 3 + spare < units - 1074 {
        return written;
    }
    written - 1
}

// The number q * 2 ^ (units - 1,074).
fn number(q: u64, units: u64) -> Content
    requires { (0 < q) × (q < 2 ^ 53) × (units < 2048) }
    ensures { result ≡ Content.Number (size (odd_part q)) (units + halvings q) }
{
    let zeros = ber_reals::halvings(q);
    Content::Number {
        digits: ber_reals::bits(q >> zeros),
        units: units + zeros,
    }
}

fn content_of(bits: u64) -> Content
    ensures { HasSizes (of_bits binary64 bits) result }
{
    let field = bits % 0x8000_0000_0000_0000 / 0x10_0000_0000_0000;
    let low = bits % 0x10_0000_0000_0000;
    if field == 2047 {
        return Content::Octets(usize::from(low == 0));
    }
    if field != 0 {
        return number(0x10_0000_0000_0000 + low, field - 1);
    }
    if low == 0 {
        return Content::Octets(0);
    }
    number(low, 0)
}

// Whether the double of these bits is written: minus zero and a NaN are not.
pub fn is_written(bits: u64) -> bool
    ensures { result ≡ is_written (of_bits binary64 bits) }
{
    if bits == 0x8000_0000_0000_0000 {
        return false;
    }
    if 0x7ff0_0000_0000_0000 < bits % 0x8000_0000_0000_0000 {
        return false;
    }
    true
}

// How many content octets are written of the double of these bits; 0 where it is not written.
pub fn written_size(bits: u64) -> usize
    ensures { result ≡ written_size (of_bits binary64 bits) }
{
    match content_of(bits) {
        Content::Number { digits, units } => written_at(digits, units),
        Content::Octets(n) => n,
    }
}

// The fewest content octets that are read as the double of these bits; 0 where it is not written.
pub fn least_size(bits: u64) -> usize
    ensures { result ≡ least_size (of_bits binary64 bits) }
{
    match content_of(bits) {
        Content::Number { digits, units } => least_at(digits, units),
        Content::Octets(n) => n,
    }
}
