// Containers of tags, lengths and values: what stands at a place, what surrounds the one value of an outer tag, and what is passed over.
#![tactic(auto)]

ghost use Rattle.std.specs.Prelude.{ℕ, ◌+◌, ◌-◌, ◌≤◌, ◌<◌, ◌≡◌, true, length, eqb, Result, Err};
ghost use Rattle.ber_containers.specs.Ends.{open_of, zero_at, closing_at, standing_at, deep, enter_at, first_at, last_at, is_tag};
ghost use Rattle.ber_containers.specs.declared.No.{No};
ghost use Rattle.ber_containers.specs.Passing.{skipped, cross_at, Through, passed_at};
ghost use Rattle.ber_containers.specs.Short.{open_by, not_shut, short_tag, Shuts, Shortens, TagTold, Passes};
ghost use Rattle.ber_containers.specs.Progress.{Fits, Onward, FoundOnward, OntoOnward, CrossOnward};

use ber_tags::{Head, Length};

// What a quick answer says where the place after the container's end is not told: no place in a message.
pub const NOT_SHUT: usize = 18446744073709551615;

// A refusal: its number and its place.
#[derive(Clone, Copy)]
pub struct No(pub u64, pub usize);

// An open container: definite (1) with its end, or of indefinite length (0), which 00 00 ends before `end`.
#[derive(Clone, Copy)]
pub struct Open {
    pub definite: u64,
    pub end: usize,
}

// A tag that was read, where its content starts, and how that is open. A struct of words alone is copied fastest.
#[derive(Clone, Copy)]
pub struct Tag {
    pub class: u64,
    pub constructed: u64,
    pub number: u64,
    pub start: usize,
    pub inner: Open,
}

// What stands at a position: the end and the place after it, or a tag.
#[derive(Clone, Copy)]
pub enum Stands {
    Ended(usize),
    Here(Tag),
    Refused(No),
}

// One turn of passing over: the end, a value passed, or a container to go into.
#[derive(Clone, Copy)]
pub enum Crossing {
    Over(usize),
    Past(usize),
    Into(Tag),
    Refused(No),
}

#[tactic(auto, unfolding(crate::specs::Ends::zero_at))]
fn zero_at(s: &[u8], p: usize) -> bool
    ensures { zero_at s.now p ≡ result }
{
    p < s.len() && s[p] == 0
}

// A 00 stands at p, in a container that is definite (1) or not and ends at `end`.
fn closing(s: &[u8], p: usize, definite: u64, end: usize) -> Stands
    requires { p < length s.now }
    ensures end_value { closing_at s.now p (open_by definite end) ≡ result }
    ensures onward { Onward s.now p result }
{
    if definite == 1 {
        return Stands::Refused(No(30, p));
    }
    let q = p + 1;
    if q == end {
        return Stands::Refused(No(30, p));
    }
    if s.len() <= q {
        return Stands::Refused(No(30, s.len()));
    }
    if s[q] == 0 {
        return Stands::Ended(p + 2);
    }
    Stands::Refused(No(30, p))
}

fn open_of(bound: usize, start: usize, length: Length) -> Open
    requires { Fits bound start length }
    ensures length_value { open_of bound start length ≡ result }
    ensures start_le_end { start ≤ result.end }
{
    match length {
        Length::Definite(n) => Open {
            definite: 1,
            end: start + n,
        },
        Length::Indefinite => Open {
            definite: 0,
            end: bound,
        },
    }
}

// The place after the open container o if it ends at p, or 2^64 - 1 where that is for `standing` to say.
pub fn shut(s: &[u8], p: usize, o: Open) -> usize
    ensures { Shuts s.now p o result }
{
    if p == o.end {
        if o.definite == 1 {
            return p;
        }
        return NOT_SHUT;
    }
    if o.definite == 1 {
        return NOT_SHUT;
    }
    if s.len() <= p {
        return NOT_SHUT;
    }
    if s[p] != 0 {
        return NOT_SHUT;
    }
    let q = p + 1;
    if s.len() <= q {
        return NOT_SHUT;
    }
    if q == o.end {
        return NOT_SHUT;
    }
    if s[q] == 0 {
        return p + 2;
    }
    NOT_SHUT
}

// The length of a tag at p whose tag and length take one octet each; 128 for one that 00 00 ends, 129 where that is for `standing` to say.
pub fn short(s: &[u8], p: usize, end: usize) -> usize
    ensures { Shortens s.now p end result }
{
    if s.len() <= p {
        return 129;
    }
    let q = p + 1;
    if s.len() <= q {
        return 129;
    }
    if end <= q {
        return 129;
    }
    let b = s[p];
    if b == 0 {
        return 129;
    }
    if b % 32 == 31 {
        return 129;
    }
    let l = usize::from(s[q]);
    if l < 128 {
        if end - q <= l {
            return 129;
        }
        return l;
    }
    if l == 128 {
        if 32 <= b % 64 {
            return 128;
        }
    }
    129
}

// Such a tag, from its first octet.
fn short_tag(b: u8, start: usize, n: usize, end: usize) -> Tag
    requires { n < 128 → start + n ≤ end }
    ensures { short_tag b start n end ≡ result }
{
    if n < 128 {
        return Tag {
            class: u64::from(b / 64),
            constructed: u64::from(b % 64 / 32),
            number: u64::from(b % 32),
            start,
            inner: Open {
                definite: 1,
                end: start + n,
            },
        };
    }
    Tag {
        class: u64::from(b / 64),
        constructed: u64::from(b % 64 / 32),
        number: u64::from(b % 32),
        start,
        inner: Open { definite: 0, end },
    }
}

// What stands at p in a container that is definite (1) or not and ends at `end`: two numbers and no struct, which would go through memory.
pub fn standing(s: &[u8], p: usize, definite: u64, end: usize) -> Stands
    ensures end_value { standing_at s.now p (open_by definite end) ≡ result }
    ensures onward { Onward s.now p result }
{
    if p == end {
        if definite == 1 {
            return Stands::Ended(p);
        }
        return Stands::Refused(No(30, p));
    }
    if zero_at(s, p) {
        return closing(s, p, definite, end);
    }
    match ber_tags::read_tag(s, p, end) {
        Head::Refused { place } => Stands::Refused(No(30, place)),
        Head::Tag {
            class,
            constructed,
            number,
            length,
            next,
        } => Stands::Here(Tag {
            class: u64::from(class),
            constructed: u64::from(constructed),
            number,
            start: next,
            inner: open_of(end, next, length),
        }),
    }
}

fn agree(a: u64, b: u64) -> bool
    ensures { eqb a b ≡ result }
{
    a == b
}

// Whether a constructed tag stands where no container is allowed any more.
#[tactic(auto, unfolding(crate::specs::Ends::deep))]
fn too_deep(constructed: u64, k: usize) -> bool
    ensures { deep constructed k ≡ result }
{
    constructed == 1 && k == 0
}

// One container fewer.
pub fn less(k: usize) -> usize
    ensures { result ≡ k - 1 }
{
    k.saturating_sub(1)
}

// What stands at p, and no container too many.
pub fn entering(s: &[u8], p: usize, o: Open, k: usize) -> Stands
    ensures k_value { enter_at s.now p o k ≡ result }
    ensures onward { Onward s.now p result }
{
    match standing(s, p, o.definite, o.end) {
        Stands::Ended(next) => Stands::Ended(next),
        Stands::Refused(n) => Stands::Refused(n),
        Stands::Here(t) => {
            if too_deep(t.constructed, k) {
                return Stands::Refused(No(32, p));
            }
            Stands::Here(t)
        }
    }
}

// The one value of the open outer tag c.
pub fn first(s: &[u8], p: usize, c: Open, k: usize) -> Result<Tag, No>
    ensures k_value { first_at s.now p c k ≡ result }
    ensures found_onward { FoundOnward s.now p result }
{
    match standing(s, p, c.definite, c.end) {
        Stands::Ended(next) => Err(No(33, p)),
        Stands::Refused(n) => Err(n),
        Stands::Here(t) => {
            let inner = t.inner;
            if !agree(inner.definite, c.definite) {
                return Err(No(31, p));
            }
            if too_deep(t.constructed, k) {
                return Err(No(32, p));
            }
            Ok(t)
        }
    }
}

// Nothing stands after that value.
pub fn last(s: &[u8], p: usize, c: Open, k: usize) -> Result<usize, No>
    ensures k_value { last_at s.now p c k ≡ result }
    ensures onto_onward { OntoOnward p result }
{
    let z = shut(s, p, c);
    if z != NOT_SHUT {
        return Ok(z);
    }
    match standing(s, p, c.definite, c.end) {
        Stands::Ended(next) => Ok(next),
        Stands::Refused(n) => Err(n),
        Stands::Here(t) => {
            if too_deep(t.constructed, k) {
                return Err(No(32, p));
            }
            Err(No(33, p))
        }
    }
}

// Whether a tag has this class, form (1: constructed) and number.
#[tactic(auto, unfolding(crate::specs::Ends::is_tag))]
pub fn is_tag(t: Tag, class: u64, constructed: u64, number: u64) -> bool
    ensures { is_tag t class constructed number ≡ result }
{
    t.class == class && t.number == number && t.constructed == constructed
}

// The content of a tag that is not constructed, passed over.
fn skip(s: &[u8], t: Tag) -> Result<usize, No>
    ensures t_value { skipped s.now t ≡ result }
    ensures onto_onward { OntoOnward t.inner.end result }
{
    let inner = t.inner;
    let end = inner.end;
    if s.len() < end {
        return Err(No(30, s.len()));
    }
    Ok(end)
}

// One turn of passing over what the open container o holds.
fn cross(s: &[u8], p: usize, o: Open, k: usize) -> Crossing
    ensures k_value { cross_at s.now p o k ≡ result }
    ensures cross_onward { CrossOnward s.now p result }
{
    match standing(s, p, o.definite, o.end) {
        Stands::Ended(next) => Crossing::Over(next),
        Stands::Refused(n) => Crossing::Refused(n),
        Stands::Here(t) => {
            if t.constructed == 1 {
                if k == 0 {
                    return Crossing::Refused(No(32, p));
                }
                return Crossing::Into(t);
            }
            match skip(s, t) {
                Ok(next) => Crossing::Past(next),
                Err(n) => Crossing::Refused(n),
            }
        }
    }
}

// All that the open container o holds from a place on.
fn through(s: &[u8], from: usize, o: Open, k: usize) -> Result<usize, No>
    ensures through { Through s.now k o from result }
    ensures onto_onward { OntoOnward from result }
{
    let mut p = from;
    // No index is counted: p goes on past what stands there.
    loop {
        match cross(s, p, o, k) {
            Crossing::Over(next) => {
                return Ok(next);
            }
            Crossing::Refused(n) => {
                return Err(n);
            }
            Crossing::Past(next) => {
                p = next;
            }
            Crossing::Into(t) => match through(s, t.start, t.inner, less(k)) {
                Ok(next) => {
                    p = next;
                }
                Err(n) => {
                    return Err(n);
                }
            },
        }
    }
}

// A tag that stands nowhere.
fn no_tag() -> Tag
    ensures { result.start ≡ not_shut }
{
    Tag {
        class: 0,
        constructed: 0,
        number: 0,
        start: NOT_SHUT,
        inner: Open {
            definite: 1,
            end: NOT_SHUT,
        },
    }
}

// The tag at p in the open container o; its start is 2^64 - 1 where none is told.
fn tag_at(s: &[u8], p: usize, o: Open) -> Tag
    ensures { TagTold s.now p o result }
{
    let end = o.end;
    let n = short(s, p, end);
    if n < 129 {
        return short_tag(s[p], p + 2, n, end);
    }
    match standing(s, p, o.definite, end) {
        Stands::Ended(next) => no_tag(),
        Stands::Refused(n) => no_tag(),
        Stands::Here(t) => t,
    }
}

// Whether one more container may be open, and the stack has a cell for it.
fn has_room(d: usize, k: usize) -> bool
    ensures { result ≡ true → (d < k) × (d < 64) }
{
    d < k && d < 64
}

// Why what a container holds from a place on is refused, if the part `here` of it stops at p; where that is for `through` to say, all of it again.
fn stopped(
    s: &[u8],
    p: usize,
    here: Open,
    left: usize,
    from: usize,
    definite: u64,
    end: usize,
    k: usize,
) -> Result<usize, No>
    requires { (n : No) → Through s.now left here p (Err n) → Through s.now k (open_by definite end) from (Err n) }
    ensures through { Through s.now k (open_by definite end) from result }
    ensures onto_onward { OntoOnward from result }
{
    if let Crossing::Refused(n) = cross(s, p, here, left) {
        return Err(n);
    }
    through(s, from, Open { definite, end }, k)
}

// The same as `through` in one loop, with the containers around the open one on a stack.
fn nests(s: &[u8], from: usize, definite: u64, end: usize, k: usize) -> Result<usize, No>
    ensures through { Through s.now k (open_by definite end) from result }
    ensures onto_onward { OntoOnward from result }
{
    let mut around = [Open {
        definite: 0,
        end: 0,
    }; 64];
    let mut d = 0;
    let mut p = from;
    let mut here = Open { definite, end };
    // No index is counted: p goes on past what stands there, into containers and out of them.
    loop {
        let z = shut(s, p, here);
        if z != NOT_SHUT {
            if d == 0 {
                return Ok(z);
            }
            d = d - 1;
            p = z;
            here = around[d];
        } else {
            let t = tag_at(s, p, here);
            if t.start == NOT_SHUT {
                return stopped(s, p, here, k - d, from, definite, end, k);
            }
            let inner = t.inner;
            if t.constructed == 1 {
                if !has_room(d, k) {
                    return stopped(s, p, here, k - d, from, definite, end, k);
                }
                around[d] = here;
                d = d + 1;
                p = t.start;
                here = inner;
            } else {
                if s.len() < inner.end {
                    return stopped(s, p, here, k - d, from, definite, end, k);
                }
                p = inner.end;
            }
        }
    }
}

// Passes over values from a place on whose tags and lengths take one octet each, up to the first that is another.
fn values(s: &[u8], from: usize, end: usize) -> usize
    ensures by_index { (k definite : ℕ) (x : Result ℕ No) → Through s.now k (open_by definite end) result x
        → Through s.now k (open_by definite end) from x }
    ensures lower_bound { from ≤ result }
{
    let mut p = from;
    // No index is counted: p goes on past each value.
    loop {
        let n = short(s, p, end);
        if 128 <= n {
            return p;
        }
        if 32 <= s[p] % 64 {
            return p;
        }
        let next = p + 2 + n;
        if s.len() < next {
            return p;
        }
        p = next;
    }
}

// All that a container holds from a place on. A stack is laid out only where there is a container inside it.
fn within(s: &[u8], from: usize, definite: u64, end: usize, k: usize) -> Result<usize, No>
    ensures through { Through s.now k (open_by definite end) from result }
    ensures onto_onward { OntoOnward from result }
{
    let p = values(s, from, end);
    let z = shut(s, p, Open { definite, end });
    if z != NOT_SHUT {
        return Ok(z);
    }
    nests(s, p, definite, end, k)
}

// The same as a number: the place after the end of a container that is definite (1) or not, or 2^64 - 1 where it is refused.
pub fn over(s: &[u8], from: usize, definite: u64, end: usize, k: usize) -> usize
    ensures { Passes s.now from (open_by definite end) k result }
{
    let z = shut(s, from, Open { definite, end });
    if z != NOT_SHUT {
        return z;
    }
    match within(s, from, definite, end, k) {
        Ok(next) => next,
        Err(n) => NOT_SHUT,
    }
}

// A tag's value, passed over.
pub fn passed(s: &[u8], t: Tag, k: usize) -> Result<usize, No>
    ensures k_value { passed_at s.now t k ≡ result }
    ensures onto_onward { t.start ≤ t.inner.end → OntoOnward t.start result }
{
    if t.constructed == 1 {
        let inner = t.inner;
        return within(s, t.start, inner.definite, inner.end, k);
    }
    skip(s, t)
}
