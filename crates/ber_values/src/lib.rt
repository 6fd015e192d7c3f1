// EmBER values: one tag with its content, read. Nothing of Glow.
#![tactic(auto)]

ghost use Rattle.std.specs.Prelude.{◌≡◌, ◌+◌, ◌≤◌, leb, length};
ghost use Rattle.ber_values.specs.Value.{bool_at, on_flag, on_number, on_real, is_listed, kind_at, content_at, value_at, flag_says, flag_or, answer_says, answer_or};
ghost use Rattle.ber_integers.specs.Readings.{Promised};

use ber_tags::{Head, Length};

// A value, or that there is none. Texts and octets are parts of the message.
#[derive(Clone, Copy)]
pub enum Value {
    Absent,
    Int(i64),
    Real(f64),
    Text { start: usize, len: usize },
    Bool(bool),
    Octets { start: usize, len: usize },
}

// A value read and the position after it; or a tag that is none of the five kinds; or a number refused with its place.
#[derive(Clone, Copy)]
pub enum Answer {
    Found { value: Value, next: usize },
    Other,
    Refused { number: u32, place: usize },
}

// The boolean whose content octets are the n octets at a position.
pub fn read_bool(s: &[u8], at: usize, n: usize) -> Option<bool>
    ensures { Promised flag_says (flag_or 30) (bool_at s.now at n) result }
{
    match ber_integers::held(s, at, n)? {
        [b] => Some(*b != 0),
        _ => None,
    }
}

// Whether the message holds the octets of a value.
fn holds(s: &[u8], start: usize, len: usize) -> bool
    ensures { result ≡ leb (start + len) (length s.now) }
{
    len <= s.len() && start <= s.len() - len
}

fn of_flag(f: Option<bool>, at: usize, next: usize) -> Answer
    ensures { result ≡ on_flag at next f }
{
    match f {
        Some(b) => Answer::Found {
            value: Value::Bool(b),
            next,
        },
        None => Answer::Refused {
            number: 30,
            place: at,
        },
    }
}

fn of_number(n: Option<i64>, at: usize, next: usize) -> Answer
    ensures { result ≡ on_number at next n }
{
    match n {
        Some(x) => Answer::Found {
            value: Value::Int(x),
            next,
        },
        None => Answer::Refused {
            number: 30,
            place: at,
        },
    }
}

fn of_real(x: Option<f64>, at: usize, next: usize) -> Answer
    ensures { result ≡ on_real at next x }
{
    match x {
        Some(x) => Answer::Found {
            value: Value::Real(x),
            next,
        },
        None => Answer::Refused {
            number: 35,
            place: at,
        },
    }
}

// Whether a universal tag number is one of the five kinds.
fn listed(kind: u64) -> bool
    ensures { result ≡ is_listed kind }
{
    matches!(kind, 1 | 2 | 4 | 9 | 12)
}

// The value of a listed kind, whose octets are there.
fn of_kind(s: &[u8], at: usize, kind: u64, start: usize, len: usize) -> Answer
    requires { start + len ≤ length s.now }
    ensures { result ≡ kind_at s.now at kind start len }
{
    let next = start + len;
    match kind {
        1 => of_flag(read_bool(s, start, len), at, next),
        2 => of_number(ber_integers::read_int(s, start, len), at, next),
        4 => Answer::Found {
            value: Value::Octets { start, len },
            next,
        },
        9 => of_real(ber_reals::read_real(s, start, len), at, next),
        _ => Answer::Found {
            value: Value::Text { start, len },
            next,
        },
    }
}

// The value of a kind (a universal tag number) whose content octets are those at `start`; its tag stands at `at`.
pub fn read_content(s: &[u8], at: usize, kind: u64, start: usize, len: usize) -> Answer
    ensures { Promised answer_says (answer_or 33) (content_at s.now at kind start len) result }
{
    if !listed(kind) {
        return Answer::Other;
    }
    if !holds(s, start, len) {
        return Answer::Refused {
            number: 30,
            place: s.len(),
        };
    }
    of_kind(s, at, kind, start, len)
}

// The value at a position, in a container that ends at `bound`.
pub fn read_value(s: &[u8], at: usize, bound: usize) -> Answer
    ensures { Promised answer_says (answer_or 33) (value_at s.now at bound) result }
{
    match ber_tags::read_tag(s, at, bound) {
        Head::Refused { place } => Answer::Refused { number: 30, place },
        Head::Tag {
            class,
            constructed,
            number,
            length,
            next,
        } => {
            if class != 0 {
                return Answer::Other;
            }
            if constructed {
                return Answer::Other;
            }
            match length {
                Length::Definite(len) => read_content(s, at, number, next, len),
                Length::Indefinite => Answer::Other,
            }
        }
    }
}
