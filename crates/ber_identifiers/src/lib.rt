// Relative identifiers: numbers in groups of seven bits, one after another.
#![tactic(auto)]

ghost use Rattle.std.specs.Prelude.{◌≡◌, ◌+◌, ◌-◌, ◌≤◌, ◌<◌, ℕ, length, take, drop, get_or, ltb};
ghost use Rattle.std.specs.List.{list_all};
ghost use Rattle.ber_integers.specs.Digits.{put, outcome};
ghost use Rattle.ber_integers.specs.Readings.{Promised};
ghost use Rattle.ber_identifiers.specs.Identifier.{arc_is, arc_at, oid_at, arc_says, arc_or, oid_says, oid_or, ArcWithin, in_range, oid_octets, put_oid};
ghost use Rattle.ber_tags.specs.Write.{septets};

// One number of an identifier and the position after it, or one over 2,147,483,647, or 30.
#[derive(Clone, Copy)]
pub enum Arc {
    Number { number: u64, next: usize },
    Range { next: usize },
    Refused,
}

// How many numbers an identifier has; or that one is over 2,147,483,647; or 30.
#[derive(Clone, Copy)]
pub enum Oid {
    Numbers(usize),
    Range,
    Refused,
}

// A number that has ended.
fn ended(n: u64, next: usize) -> Arc
    ensures { result ≡ arc_is n next }
{
    if 2147483647 < n {
        return Arc::Range { next };
    }
    Arc::Number { number: n, next }
}

// The number that starts at p, in octets that end at `end`.
pub fn read_number(s: &[u8], p: usize, end: usize) -> Arc
    ensures promised { Promised arc_says (arc_or 30) (arc_at s.now p end) result }
    ensures arc_within { ArcWithin p end result }
{
    if s.len() < end {
        return Arc::Refused;
    }
    if end <= p {
        return Arc::Refused;
    }
    if s[p] == 128 {
        return Arc::Refused;
    }
    let mut acc: u64 = 0;
    for i in p..end {
        let b = s[i];
        if b < 128 {
            return ended(acc * 128 + u64::from(b), i + 1);
        }
        // Past the limit it does not matter how far.
        acc = (acc * 128 + u64::from(b % 128)).min(2147483648);
    }
    Arc::Refused
}

// Whether each octet is a number of its own: whether the largest is below 128. No octet ends the loop, so that a processor compares many at a time.
fn all_short(octets: &[u8]) -> bool
    ensures { list_all (λ (b : ℕ). ltb b 128) octets.now ≡ result }
{
    let mut most: u8 = 0;
    for b in octets {
        most = most.max(*b);
    }
    most < 128
}

// The identifier whose content octets are the n octets at a position.
pub fn read_oid(s: &[u8], at: usize, n: usize) -> Oid
    ensures { Promised oid_says (oid_or 30) (oid_at s.now at n) result }
{
    if s.len() < n {
        return Oid::Refused;
    }
    if s.len() - n < at {
        return Oid::Refused;
    }
    let end = at + n;
    // Most numbers are below 128. Octet by octet a long list takes up to three times as long, by where the linker puts the loop below.
    if 16 <= n && all_short(&s[at..end]) {
        return Oid::Numbers(n);
    }
    let mut p = at;
    let mut count: usize = 0;
    let mut over = false;
    // No index is counted: p goes on to the next number.
    while p < end {
        if s[p] < 128 {
            p = p + 1;
            count = count + 1;
        } else {
            match read_number(s, p, end) {
                Arc::Number { number: _, next } => {
                    p = next;
                    count = count + 1;
                }
                Arc::Range { next } => {
                    p = next;
                    over = true;
                }
                Arc::Refused => {
                    return Oid::Refused;
                }
            }
        }
    }
    if over {
        return Oid::Range;
    }
    Oid::Numbers(count)
}

// Whether each number is at most 2,147,483,647.
fn in_range(ns: &[u64]) -> bool
    ensures { result ≡ in_range ns.now }
{
    ns.iter().all(|n| *n <= 2147483647)
}

// How many octets a number takes.
fn number_size(v: u64) -> usize
    ensures value { result ≡ length (septets v) }
    ensures upper_bound { result ≤ 10 }
{
    ber_integers::septet_count(v / 128) + 1
}

// How many octets the numbers take.
fn oid_size(ns: &[u64]) -> usize
    ensures { result ≡ length (oid_octets ns.now) }
{
    let mut total: usize = 0;
    for n in ns {
        total += number_size(*n);
    }
    total
}

// The content octets of an identifier at a position of the output.
pub fn write_oid(ns: &[u64], out: &mut [u8], at: usize) -> Option<usize>
    ensures { put_oid out.old at ns.now ≡ outcome result out.new }
{
    if !in_range(ns) {
        return None;
    }
    let n = oid_size(ns);
    ber_integers::held(out, at, n)?;
    let end = at + n;
    let mut p = end;
    for n in ns.iter().rev() {
        p -= number_size(*n);
        ber_tag_writer::write_septets(*n, out, p);
    }
    Some(end)
}
