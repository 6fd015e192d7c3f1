// Big-endian numbers in content octets: natural numbers, two's complement, and EmBER integers.
#![tactic(auto)]

ghost use Rattle.std.specs.Prelude.{◌≡◌, [], ◌∷◌, ◌+◌, ◌-◌, ◌*◌, ◌^◌, ◌%◌, ◌≤◌, ◌<◌, length, take, drop, get_or, MatchOption};
ghost use Rattle.std.specs.Int.Signed.{mag};
ghost use Rattle.ber_integers.specs.Digits.{natural, digits, count, put, outcome};
ghost use Rattle.ber_integers.specs.Readings.{Promised, integer_says, integer_or, natural_says, natural_or};
ghost use Rattle.ber_integers.specs.Integer.{size_by, nine, unsigned_at, signed_at, integer_at, shortest};

fn low(x: u64) -> u8
    ensures { result ≡ x % 256 }
{
    (x % 256) as u8
}

// The n octets at a position, where the message holds them.
pub fn held(s: &[u8], at: usize, n: usize) -> Option<&[u8]>
    ensures { MatchOption result (length s.now < at + n) (λ bs. (at + n ≤ length s.now) × (bs.now ≡ take n (drop at s.now))) }
{
    s.get(at..)?.get(..n)
}

// The number of some octets.
fn natural_of(octets: &[u8]) -> u64
    requires { length octets.now ≤ 8 }
    ensures value { result ≡ natural octets.now }
    ensures upper_bound { result < 256 ^ length octets.now }
{
    let mut acc: u64 = 0;
    for b in octets {
        acc = acc * 256 + u64::from(*b);
    }
    acc
}

// The natural number of the n octets at a position, 0 to 8 of them.
pub fn read_unsigned(s: &[u8], at: usize, n: usize) -> Option<u64>
    ensures { Promised natural_says (natural_or 30) (unsigned_at s.now at n) result }
{
    let octets = held(s, at, n)?;
    if 8 < n {
        return None;
    }
    Some(natural_of(octets))
}

// The greatest number of n octets.
fn ones(n: usize) -> u64
    requires { n ≤ 8 }
    ensures { result + 1 ≡ 256 ^ n }
{
    let mut acc: u64 = 0;
    for _ in 0..n {
        acc = acc * 256 + 255;
    }
    acc
}

// The two's complement number of the n octets at a position, 1 to 8 of them; no rule on the first nine bits.
pub fn read_signed(s: &[u8], at: usize, n: usize) -> Option<i64>
    ensures { Promised integer_says (integer_or 30) (signed_at s.now at n) result }
{
    let octets = held(s, at, n)?;
    if n == 0 {
        return None;
    }
    if 8 < n {
        return None;
    }
    let v = natural_of(octets);
    if octets[0] < 128 {
        Some(v as i64)
    } else {
        Some(-1 - ((ones(n) - v) as i64))
    }
}

// The first nine of the bits at a position.
fn nine_bits(s: &[u8], at: usize) -> u64
    requires { at + 2 ≤ length s.now }
    ensures { result ≡ nine (get_or s.now at 0) (get_or s.now (at + 1) 0) }
{
    (u64::from(s[at]) * 256 + u64::from(s[at + 1])) / 128
}

// The integer whose content octets are the n octets at a position.
pub fn read_int(s: &[u8], at: usize, n: usize) -> Option<i64>
    ensures { Promised integer_says (integer_or 30) (integer_at s.now at n) result }
{
    held(s, at, n)?;
    if n < 2 {
        return read_signed(s, at, n);
    }
    let nine = nine_bits(s, at);
    if nine == 0 {
        return None;
    }
    if nine == 511 {
        return None;
    }
    read_signed(s, at, n)
}

// The n low octets of v at a position of the output.
pub fn write_octets(v: u64, n: usize, out: &mut [u8], at: usize) -> Option<usize>
    ensures { put out.old at (digits 256 n v) ≡ outcome result out.new }
{
    held(out, at, n)?;
    let mut r = v;
    for i in (0..n).rev() {
        out[at + i] = low(r);
        r = r / 256;
    }
    Some(at + n)
}

// The distance from 0, or from -1 for a number below 0.
pub fn magnitude(x: i64) -> u64
    ensures value { result ≡ mag x }
    ensures upper_bound { result < 2 ^ 63 }
{
    if x < 0 { (!x) as u64 } else { x as u64 }
}

// The fewest octets that hold m and a sign bit.
pub fn size_of(m: u64) -> usize
    ensures { result ≡ size_by m m }
{
    let mut r = m;
    let mut n: usize = 1;
    // No index is counted: the loop ends where r is small.
    while 128 <= r {
        r = r / 256;
        n = n + 1;
    }
    n
}

// The content octets of an integer, the fewest, at a position of the output.
pub fn write_int(x: i64, out: &mut [u8], at: usize) -> Option<usize>
    ensures { put out.old at (shortest x) ≡ outcome result out.new }
{
    let n = size_of(magnitude(x));
    write_octets(x.cast_unsigned(), n, out, at)
}

// How many digits v has in a base, none for 0.
fn digit_count(base: u64, v: u64) -> usize
    requires { 1 < base }
    ensures { result ≡ count base v }
{
    let mut r = v;
    let mut n: usize = 0;
    // No index is counted: the loop ends where no digit is left.
    while 0 < r {
        r = r / base;
        n = n + 1;
    }
    n
}

// How many octets v needs. Each base has a public function of its own: digit_count requires a base over 1, and no public function has a `requires`.
pub fn octet_count(v: u64) -> usize
    ensures { result ≡ count 256 v }
{
    digit_count(256, v)
}

// How many groups of seven bits v needs.
pub fn septet_count(v: u64) -> usize
    ensures { result ≡ count 128 v }
{
    digit_count(128, v)
}

// One octet at a position of the output.
pub fn write_octet(b: u8, out: &mut [u8], at: usize) -> Option<usize>
    ensures { put out.old at (b ∷ []) ≡ outcome result out.new }
{
    if out.len() <= at {
        return None;
    }
    out[at] = b;
    Some(at + 1)
}
