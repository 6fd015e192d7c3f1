// EmBER reals, written without rounding.
#![tactic(auto)]

ghost use Rattle.std.specs.Prelude.{◌≡◌, ◌+◌, ◌/◌, ◌≤◌, ◌<◌, ◌^◌};
ghost use Rattle.std.specs.Float.Ieee.{minus, size, odd, of_bits};
ghost use Rattle.std.specs.Float.{binary64};
ghost use Rattle.ber_integers.specs.Digits.{digits, put, outcome};
ghost use Rattle.ber_integers.specs.Integer.{shortest};
ghost use Rattle.ber_reals.specs.Write.{first_octet, number_octets, write_at};

// The low octets of a number, so many of them.
#[derive(Clone, Copy)]
struct Octets {
    value: u64,
    count: usize,
}

// The fewest octets of the exponent units - 1,074, in two's complement.
fn exponent(units: u64) -> Octets
    requires { units < 4096 }
    ensures value_value { digits 256 result.count result.value ≡ shortest (minus units 1074) }
    ensures le_count { (1 ≤ result.count) × (result.count ≤ 2) }
{
    if 1074 <= units {
        let up = units - 1074;
        if up < 128 {
            return Octets {
                value: up,
                count: 1,
            };
        }
        return Octets {
            value: up,
            count: 2,
        };
    }
    let down = 1074 - units;
    if down <= 128 {
        return Octets {
            value: 256 - down,
            count: 1,
        };
    }
    Octets {
        value: 65536 - down,
        count: 2,
    }
}

// The first octet: binary, the sign, and the form of an exponent of n octets.
fn first_octet(negative: bool, n: usize) -> u64
    requires { (1 ≤ n) × (n ≤ 2) }
    ensures value { result ≡ first_octet negative n }
    ensures upper_bound { result < 256 }
{
    if negative {
        192 + (n as u64 - 1)
    } else {
        128 + (n as u64 - 1)
    }
}

// How many octets m fills.
fn octets_of(m: u64) -> usize
    ensures value { result ≡ (size m + 7) / 8 }
    ensures upper_bound { result ≤ 8 }
{
    ((ber_reals::bits(m) + 7) / 8) as usize
}

// The number ± m * 2 ^ (units - 1,074) at a position of the output.
fn write_number(negative: bool, m: u64, units: u64, out: &mut [u8], at: usize) -> Option<usize>
    requires { (0 < m) × (units < 4096) }
    ensures { put out.old at (number_octets negative m (minus units 1074)) ≡ outcome result out.new }
{
    let e = exponent(units);
    let value = e.value;
    let count = e.count;
    let n = octets_of(m);
    let total = 1 + count + n;
    if out.len() < total {
        return None;
    }
    if out.len() - total < at {
        return None;
    }
    ber_integers::write_octets(first_octet(negative, count), 1, out, at);
    ber_integers::write_octets(value, count, out, at + 1);
    ber_integers::write_octets(m, n, out, at + 1 + count)
}

// The double ± q * 2 ^ (units - 1,074), for a q of at most 53 binary digits, at a position of the output.
fn write_finite(negative: bool, q: u64, units: u64, out: &mut [u8], at: usize) -> Option<usize>
    requires { (0 < q) × (q < 2 ^ 53) × (units < 2048) }
    ensures { write_at out.old at (odd 53 negative q units 1074) ≡ outcome result out.new }
{
    let zeros = ber_reals::halvings(q);
    write_number(negative, q >> zeros, units + zeros, out, at)
}

// The double of 64 bits at a position of the output; a NaN and minus zero are not written.
pub fn write_bits(word: u64, out: &mut [u8], at: usize) -> Option<usize>
    ensures { write_at out.old at (of_bits binary64 word) ≡ outcome result out.new }
{
    let negative = 0x8000_0000_0000_0000 <= word;
    let field = word % 0x8000_0000_0000_0000 / 0x10_0000_0000_0000;
    let low = word % 0x10_0000_0000_0000;
    if field == 2047 {
        if low != 0 {
            return None;
        }
        if negative {
            return ber_integers::write_octets(0x41, 1, out, at);
        }
        return ber_integers::write_octets(0x40, 1, out, at);
    }
    if field == 0 {
        if low == 0 {
            if negative {
                return None;
            }
            return ber_integers::write_octets(0, 0, out, at);
        }
        return write_finite(negative, low, 0, out, at);
    }
    write_finite(negative, 0x10_0000_0000_0000 + low, field - 1, out, at)
}

// A real at a position of the output: the fewest octets that are read as it.
pub fn write_real(x: f64, out: &mut [u8], at: usize) -> Option<usize>
    ensures { write_at out.old at x ≡ outcome result out.new }
{
    if x != x {
        return None;
    }
    write_bits(f64::to_bits(x), out, at)
}
