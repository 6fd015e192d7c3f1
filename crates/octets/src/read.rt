// The requests to read.
use crate::AT;
use ber_identifiers::{Arc, Oid};
use ber_tags::{Head, Length};
use ber_values::{Answer, Value};
use program_lines::input::Refusal;
use program_lines::print::{Hex, part};
use program_lines::text;
use std::{fmt, io};

// A double's 64 bits. No NaN is read.
#[derive(Clone, Copy)]
struct Bits(f64);

impl fmt::Display for Bits {
    fn fmt<W: fmt::Write>(&self, f: &mut fmt::Formatter<W>) -> fmt::Result {
        let x = self.0;
        if x.is_nan() {
            return write!(f, "nan");
        }
        write!(f, "{:016X}", x.to_bits())
    }
}

fn int(rt: &impl Print, s: &[u8], n: usize) -> io::Result<()> {
    match ber_integers::read_int(s, AT, n) {
        Some(x) => println!(rt; "{x}"),
        None => println!(rt; "30"),
    }
}

fn real(rt: &impl Print, s: &[u8], n: usize) -> io::Result<()> {
    match ber_reals::read_real(s, AT, n) {
        Some(x) => println!(rt; "{}", Bits(x)),
        None => println!(rt; "35"),
    }
}

fn boolean(rt: &impl Print, s: &[u8], n: usize) -> io::Result<()> {
    match ber_values::read_bool(s, AT, n) {
        Some(b) => println!(rt; "{b}"),
        None => println!(rt; "30"),
    }
}

// A tag's message ends with its octets.
fn tag(rt: &impl Print, s: &[u8]) -> io::Result<()> {
    match ber_tags::read_tag(s, AT, usize::MAX) {
        Head::Tag {
            class,
            constructed,
            number,
            length,
            next,
        } => {
            let form = u8::from(constructed);
            // How far it is from AT.
            let next = next.saturating_sub(AT);
            match length {
                Length::Definite(n) => println!(rt; "{class} {form} {number} {n} {next}"),
                Length::Indefinite => println!(rt; "{class} {form} {number} indefinite {next}"),
            }
        }
        Head::Refused { place: _ } => println!(rt; "30"),
    }
}

// The numbers of an identifier, from AT to an end, with dots between. `tree` prints those of a whole slice so; no crate below
// both prints what Ember+ says.
#[derive(Clone, Copy)]
struct Numbers<'a> {
    s: &'a [u8],
    end: usize,
}

impl fmt::Display for Numbers<'_> {
    fn fmt<W: fmt::Write>(&self, f: &mut fmt::Formatter<W>) -> fmt::Result {
        let mut p = AT;
        while p < self.end {
            let Arc::Number { number, next } = ber_identifiers::read_number(self.s, p, self.end)
            else {
                return Ok(());
            };
            if AT < p {
                write!(f, ".")?;
            }
            write!(f, "{number}")?;
            p = next;
        }
        Ok(())
    }
}

fn oid(rt: &impl Print, s: &[u8], n: usize) -> io::Result<()> {
    match ber_identifiers::read_oid(s, AT, n) {
        Oid::Numbers(0) => println!(rt; "-"),
        Oid::Numbers(_) => {
            let end = AT.saturating_add(n);
            println!(rt; "{}", Numbers { s, end })
        }
        Oid::Range => println!(rt; "range"),
        Oid::Refused => println!(rt; "30"),
    }
}

// A value of a message.
#[derive(Clone, Copy)]
struct Shown<'a> {
    s: &'a [u8],
    value: Value,
}

impl fmt::Display for Shown<'_> {
    fn fmt<W: fmt::Write>(&self, f: &mut fmt::Formatter<W>) -> fmt::Result {
        match self.value {
            Value::Absent => write!(f, "absent"),
            Value::Int(x) => write!(f, "int {x}"),
            Value::Real(x) => write!(f, "real {}", Bits(x)),
            Value::Text { start, len } => write!(f, "text {}", Hex(part(self.s, start, len))),
            Value::Bool(b) => write!(f, "bool {b}"),
            Value::Octets { start, len } => write!(f, "octets {}", Hex(part(self.s, start, len))),
        }
    }
}

fn value(rt: &impl Print, s: &[u8], at: u64, bound: u64) -> io::Result<()> {
    match ber_values::read_value(s, at as usize, bound as usize) {
        Answer::Found { value, next } => println!(rt; "{} {next}", Shown { s, value }),
        Answer::Other => println!(rt; "other"),
        Answer::Refused { number, place } => println!(rt; "{number} {place}"),
    }
}

// A bound: a number, or `-` for none.
fn bound(word: &[u8]) -> Option<u64> {
    if word == b"-".as_slice() {
        return Some(u64::MAX);
    }
    text::number(word)
}

// AT BOUND HEX
fn value_asked<'a>(words: &[u8], work: &'a mut [u8]) -> Option<(&'a [u8], u64, u64)> {
    let mut words = words.splitn(3, |b| *b == b' ');
    let at = text::number(words.next()?)?;
    let bound = bound(words.next()?)?;
    let message = text::octets(words.next()?, work)?;
    Some((message, at, bound))
}

// What content octets are read as.
#[derive(Clone, Copy)]
enum Kind {
    Int,
    Real,
    Bool,
    Tag,
    Oid,
}

// KIND HEX: the octets are put at AT, and how many they are is answered.
fn asked(words: &[u8], work: &mut [u8]) -> Option<(Kind, usize)> {
    let mut words = words.splitn(2, |b| *b == b' ');
    let kind = match words.next()? {
        b"int" => Kind::Int,
        b"real" => Kind::Real,
        b"bool" => Kind::Bool,
        b"tag" => Kind::Tag,
        b"oid" => Kind::Oid,
        _ => return None,
    };
    let octets = text::octets(words.next()?, work.get_mut(AT..)?)?;
    Some((kind, octets.len()))
}

pub(crate) fn answer(rt: &impl Print, words: &[u8], work: &mut [u8]) -> Result<(), Refusal> {
    if let Some(words) = words.strip_prefix(b"value ") {
        let (s, at, bound) = value_asked(words, work).ok_or(Refusal::BadLine)?;
        value(rt, s, at, bound)?;
        return Ok(());
    }
    let (kind, n) = asked(words, work).ok_or(Refusal::BadLine)?;
    match kind {
        Kind::Int => int(rt, work, n)?,
        Kind::Real => real(rt, work, n)?,
        Kind::Bool => boolean(rt, work, n)?,
        Kind::Tag => tag(rt, work.get(..AT.saturating_add(n)).unwrap_or_default())?,
        Kind::Oid => oid(rt, work, n)?,
    }
    Ok(())
}
