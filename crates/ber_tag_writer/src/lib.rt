// Identifier octets and length octets of EmBER, written.
#![tactic(auto)]

ghost use Rattle.std.specs.Prelude.{◌≡◌, ◌+◌, ◌*◌, ◌%◌, ◌≤◌, ◌<◌, length};
ghost use Rattle.ber_integers.specs.Digits.{put, outcome};
ghost use Rattle.ber_tags.specs.Write.{septets, bit, put_tag, length_octets, put_length};

fn low(x: u64) -> u8
    ensures value { result ≡ x % 128 }
    ensures upper_bound { result < 128 }
{
    (x % 128) as u8
}

// A number in groups of seven bits, the fewest, at a position of the output.
pub fn write_septets(v: u64, out: &mut [u8], at: usize) -> Option<usize>
    ensures { put out.old at (septets v) ≡ outcome result out.new }
{
    let n = ber_integers::septet_count(v / 128);
    if out.len() <= n {
        return None;
    }
    if out.len() - n - 1 < at {
        return None;
    }
    out[at + n] = low(v);
    let mut r = v / 128;
    for i in (0..n).rev() {
        out[at + i] = 128 + low(r);
        r = r / 128;
    }
    Some(at + n + 1)
}

// The class and the constructed bit of a first octet.
fn lead(class: u8, constructed: bool) -> u8
    requires { class ≤ 3 }
    ensures value { result ≡ class * 64 + bit constructed }
    ensures upper_bound { result ≤ 224 }
{
    if constructed {
        class * 64 + 32
    } else {
        class * 64
    }
}

// The identifier octets of a tag, the fewest, at a position of the output.
pub fn write_tag(
    class: u8,
    constructed: bool,
    number: u64,
    out: &mut [u8],
    at: usize,
) -> Option<usize>
    ensures { put_tag out.old at class constructed number ≡ outcome result out.new }
{
    if 3 < class {
        return None;
    }
    if 268435455 < number {
        return None;
    }
    let first = lead(class, constructed);
    if number < 31 {
        return ber_integers::write_octet(first + number as u8, out, at);
    }
    if out.len() <= at {
        return None;
    }
    let end = write_septets(number, out, at + 1)?;
    out[at] = first + 31;
    Some(end)
}

// The length octets of a definite length, the fewest, at a position of the output.
pub fn write_length(n: u64, out: &mut [u8], at: usize) -> Option<usize>
    ensures { put_length out.old at n ≡ outcome result out.new }
{
    if 4294967295 < n {
        return None;
    }
    if n < 128 {
        return ber_integers::write_octet(n as u8, out, at);
    }
    if out.len() <= at {
        return None;
    }
    let k = ber_integers::octet_count(n);
    let end = ber_integers::write_octets(n, k, out, at + 1)?;
    out[at] = 128 + k as u8;
    Some(end)
}

// How many octets a length takes.
pub fn length_size(n: u64) -> usize
    ensures value { result ≡ length (length_octets n) }
    ensures upper_bound { result ≤ 9 }
{
    if n < 128 {
        return 1;
    }
    ber_integers::octet_count(n) + 1
}
