// Identifier octets and length octets of EmBER, read.
#![tactic(auto)]

ghost use Rattle.std.specs.Prelude.{◌≡◌, ◌+◌, ◌≤◌, ◌<◌, length};
ghost use Rattle.ber_integers.specs.Readings.{Promised};
ghost use Rattle.ber_tags.specs.Tag.{stop, cut, long_number, tag_number, sized, length_at, head_of, head_at, head_says, head_or, NumberWithin};

// The length of what follows a tag.
#[derive(Clone, Copy)]
pub enum Length {
    Definite(usize),
    Indefinite,
}

// A tag read, with its length, and the position of what follows; or 30 with its place.
#[derive(Clone, Copy)]
pub enum Head {
    Tag {
        class: u8,
        constructed: bool,
        number: u64,
        length: Length,
        next: usize,
    },
    Refused {
        place: usize,
    },
}

// Where octets of a tag at `at` must end: at the container's end or the message's.
fn stop_of(s: &[u8], bound: usize) -> usize
    ensures value { result ≡ stop s.now bound }
    ensures upper_bound { result ≤ length s.now }
{
    if bound <= s.len() { bound } else { s.len() }
}

// The place of a tag whose own octets are cut off.
fn cut_of(s: &[u8], at: usize, bound: usize) -> usize
    ensures { result ≡ cut s.now at bound }
{
    if bound <= s.len() { at } else { s.len() }
}

// The number octets of a long tag at `at`.
fn long_number(s: &[u8], at: usize, bound: usize) -> Result<(u64, usize), usize>
    requires { at < length s.now }
    ensures value { result ≡ long_number s.now at bound 4 0 (at + 1) }
    ensures number_within { NumberWithin s.now at result }
{
    let end = stop_of(s, bound);
    let place = cut_of(s, at, bound);
    let mut acc: u64 = 0;
    for p in at + 1..at + 5 {
        if end <= p {
            return Err(place);
        }
        let b = s[p];
        if b < 128 {
            return Ok((acc * 128 + u64::from(b), p + 1));
        }
        acc = acc * 128 + u64::from(b % 128);
    }
    Err(at)
}

// The number of the tag at `at`.
fn tag_number(s: &[u8], at: usize, bound: usize) -> Result<(u64, usize), usize>
    ensures value { result ≡ tag_number s.now at bound }
    ensures number_within { NumberWithin s.now at result }
{
    let end = stop_of(s, bound);
    let place = cut_of(s, at, bound);
    if end <= at {
        return Err(place);
    }
    let low = s[at] % 32;
    if low < 31 {
        return Ok((u64::from(low), at + 1));
    }
    let p = at + 1;
    if end <= p {
        return Err(place);
    }
    if s[p] == 128 {
        return Err(at);
    }
    long_number(s, at, bound)
}

// A definite length, unless it passes the container's end.
fn fitted(len: usize, at: usize, bound: usize, next: usize) -> Result<(Length, usize), usize>
    ensures { result ≡ sized at bound len next }
{
    if bound < next {
        return Err(at);
    }
    if bound - next < len {
        return Err(at);
    }
    Ok((Length::Definite(len), next))
}

// The length octets at p of the tag at `at`.
fn length_at(
    s: &[u8],
    at: usize,
    bound: usize,
    constructed: bool,
    p: usize,
) -> Result<(Length, usize), usize>
    ensures { result ≡ length_at s.now at bound constructed p }
{
    let end = stop_of(s, bound);
    let place = cut_of(s, at, bound);
    if end <= p {
        return Err(place);
    }
    let b = s[p];
    if b < 128 {
        return fitted(usize::from(b), at, bound, p + 1);
    }
    if b == 128 {
        if constructed {
            return Ok((Length::Indefinite, p + 1));
        }
        return Err(at);
    }
    if 132 < b {
        return Err(at);
    }
    let n = usize::from(b - 128);
    let from = p + 1;
    if end - from < n {
        return Err(place);
    }
    match ber_integers::read_unsigned(s, from, n) {
        Some(v) => fitted(v as usize, at, bound, from + n),
        None => Err(at),
    }
}

// Class and constructed bit are the first octet's.
fn headed(b: u8, number: u64, z: Result<(Length, usize), usize>) -> Head
    ensures { result ≡ head_of b number z }
{
    match z {
        Ok((length, next)) => Head::Tag {
            class: b / 64,
            constructed: 32 <= b % 64,
            number,
            length,
            next,
        },
        Err(place) => Head::Refused { place },
    }
}

// The tag at a position and its length; the container ends at `bound`.
pub fn read_tag(s: &[u8], at: usize, bound: usize) -> Head
    ensures { Promised head_says (head_or 30) (head_at s.now at bound) result }
{
    match tag_number(s, at, bound) {
        Err(place) => Head::Refused { place },
        Ok((number, next)) => {
            let b = s[at];
            headed(b, number, length_at(s, at, bound, 32 <= b % 64, next))
        }
    }
}
