// EmBER reals, read without rounding.
#![tactic(auto)]

ghost use Rattle.std.specs.Prelude.{◌≡◌, ◌+◌, ◌-◌, ◌≤◌, ◌<◌, ◌^◌, length, take, drop, get_or, pos, ◌+ℤ◌};
ghost use Rattle.std.specs.Int.Count.{count_trailing_zeros};
ghost use Rattle.std.specs.Float.Ieee.{minus, size};
ghost use Rattle.ber_integers.specs.Integer.{signed};
ghost use Rattle.ber_integers.specs.Readings.{Promised};
ghost use Rattle.ber_reals.specs.Number.{halved, number};
ghost use Rattle.ber_reals.specs.Real.{binary_real, real_at, real_says, real_or};
ghost use Rattle.ber_reals.specs.Pattern.{sign_bit, bits_of};

// How often m can be halved.
pub fn halvings(m: u64) -> u64
    ensures { result ≡ count_trailing_zeros 64 m }
{
    u64::trailing_zeros(m) as u64
}

// m halved so often.
fn halved(m: u64, times: u64) -> u64
    requires { times < 64 }
    ensures { result ≡ halved m times }
{
    m >> times
}

// How many binary digits m has.
pub fn bits(m: u64) -> u64
    ensures { result ≡ size m }
{
    64 - u64::leading_zeros(m) as u64
}

fn sign_bit(negative: bool) -> u64
    ensures { result ≡ sign_bit negative }
{
    if negative { 0x8000_0000_0000_0000 } else { 0 }
}

// The 64 bits of the double ± m * 2 ^ (units - 1,074).
fn pattern(negative: bool, m: u64, units: u64) -> u64
    requires { (0 < m) × (size m ≤ 53) × (size m + units ≤ 2098) }
    ensures { result ≡ bits_of negative m units }
{
    let sign = sign_bit(negative);
    let digits = bits(m);
    if digits + units <= 53 {
        return sign + (m << units);
    }
    let field = digits + units - 53;
    sign + field * 0x10_0000_0000_0000 + (m << (53 - digits))
}

// A power of two p is held as p + BIAS: no exponent and scale are as low as -BIAS.
const BIAS: u64 = 16777216;

// The double that equals ± m * 2 ^ (power - BIAS), where there is one.
fn exact(negative: bool, m: u64, power: u64) -> Option<f64>
    requires { power < 2 ^ 26 }
    ensures { result ≡ number negative m (minus power 16777216) }
{
    if m == 0 {
        return None;
    }
    let zeros = halvings(m);
    let odd = halved(m, zeros);
    if 0x20_0000_0000_0000 <= odd {
        return None;
    }
    let raised = power + zeros;
    if raised < BIAS - 1074 {
        return None;
    }
    let units = raised - (BIAS - 1074);
    if 1074 + 1024 < bits(odd) + units {
        return None;
    }
    Some(f64::from_bits(pattern(negative, odd, units)))
}

// 256 to the power e.
fn power_of_256(e: usize) -> u64
    requires { (1 ≤ e) × (e ≤ 3) }
    ensures { result ≡ 256 ^ e }
{
    if e == 1 {
        return 256;
    }
    if e == 2 {
        return 65536;
    }
    16777216
}

// The power of two that an exponent of e octets and a scale give, plus BIAS.
fn power(s: &[u8], at: usize, e: usize, scale: u64) -> u64
    requires { (1 ≤ e) × (e ≤ 3) × (at + e ≤ length s.now) × (scale < 4) }
    ensures result_value { minus result 16777216 ≡ signed (take e (drop at s.now)) +ℤ pos scale }
    ensures upper_bound { result < 2 ^ 26 }
{
    let Some(v) = ber_integers::read_unsigned(s, at, e) else {
        return 0;
    };
    let raised = BIAS + scale + v;
    if s[at] < 128 {
        return raised;
    }
    raised - power_of_256(e)
}

// A real of more than one octet.
fn binary(s: &[u8], at: usize, n: usize) -> Option<f64>
    requires { (2 ≤ n) × (at + n ≤ length s.now) }
    ensures { result ≡ binary_real (get_or s.now at 0) (take (n - 1) (drop (at + 1) s.now)) }
{
    let first = u64::from(s[at]);
    if first < 128 {
        return None;
    }
    if first / 16 % 4 != 0 {
        return None;
    }
    let e = (first % 4) as usize + 1;
    if 3 < e {
        return None;
    }
    if n - 1 <= e {
        return None;
    }
    if e + 8 < n - 1 {
        return None;
    }
    let p = power(s, at + 1, e, first / 4 % 4);
    let Some(m) = ber_integers::read_unsigned(s, at + 1 + e, n - 1 - e) else {
        return None;
    };
    exact(64 <= first % 128, m, p)
}

// The real of the n octets at a position.
pub fn read_real(s: &[u8], at: usize, n: usize) -> Option<f64>
    ensures { Promised real_says (real_or 35) (real_at s.now at n) result }
{
    match ber_integers::held(s, at, n)? {
        [] => Some(0.0),
        [0x40] => Some(f64::from_bits(0x7ff0_0000_0000_0000)),
        [0x41] => Some(f64::from_bits(0xfff0_0000_0000_0000)),
        [_] => None,
        _ => binary(s, at, n),
    }
}
