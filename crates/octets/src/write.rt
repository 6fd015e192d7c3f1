// The requests to write.
use crate::AT;
use ber_values::Value;
use program_lines::input::Refusal;
use program_lines::{room, text};
use std::alloc::{AllocError, Global};
use std::{io, num};

// What a request asks to be written.
#[derive(Clone, Copy)]
enum Asked<'a> {
    Int(i64),
    Bits(u64),
    Bool(bool),
    Tag {
        class: u8,
        constructed: bool,
        number: u64,
    },
    Length(u64),
    Oid(&'a [u64]),
    // A text or octets are the first of the slice beside it.
    Whole(Value, &'a [u8]),
}

impl room::Asked for Asked<'_> {
    fn write(self, out: &mut [u8]) -> Option<usize> {
        match self {
            Asked::Int(x) => ber_integers::write_int(x, out, AT),
            Asked::Bits(bits) => ber_real_writer::write_bits(bits, out, AT),
            Asked::Bool(b) => ber_integers::write_octet(ber_value_writer::bool_octet(b), out, AT),
            Asked::Tag {
                class,
                constructed,
                number,
            } => ber_tag_writer::write_tag(class, constructed, number, out, AT),
            Asked::Length(n) => ber_tag_writer::write_length(n, out, AT),
            Asked::Oid(numbers) => ber_identifiers::write_oid(numbers, out, AT),
            Asked::Whole(value, src) => ber_value_writer::write_value(value, src, out, AT),
        }
    }
}

// Why nothing is written: the line is no request, or no integer of 64 bits and no double says what it asks, which is 46.
#[derive(Clone, Copy)]
enum Unasked {
    BadLine,
    Out,
}

// The integer that a word is.
fn integer(word: &[u8]) -> Result<i64, Unasked> {
    let digits = word.strip_prefix(b"-");
    let m = text::number(digits.unwrap_or(word)).ok_or(Unasked::BadLine)?;
    let z = if digits.is_some() {
        -i128::from(m)
    } else {
        i128::from(m)
    };
    i64::try_from(z).map_err(|_| Unasked::Out)
}

// The 64 bits of a real, as pairs of digits.
fn bits(word: &[u8], work: &mut [u8]) -> Option<u64> {
    let octets = text::octets(word, work)?;
    Some(u64::from_be_bytes(*octets.as_array::<8>()?))
}

// The double of 64 bits, if they are no NaN's.
fn real(bits: u64) -> Option<f64> {
    let x = num::f64_from_bits_with_nan(bits);
    if x.is_nan() { None } else { Some(x) }
}

// CLASS CONSTRUCTED NUMBER
fn tag(words: &[u8]) -> Option<Asked<'static>> {
    let mut words = words.splitn(3, |b| *b == b' ');
    let class = text::number(words.next()?)?;
    let constructed = text::number(words.next()?)?;
    let number = text::number(words.next()?)?;
    if 3 < class || 1 < constructed {
        return None;
    }
    Some(Asked::Tag {
        class: class as u8,
        constructed: constructed == 1,
        number,
    })
}

// KIND CONTENT of a value.
fn value<'a>(words: &[u8], work: &'a mut [u8]) -> Result<Asked<'a>, Unasked> {
    let mut words = words.splitn(2, |b| *b == b' ');
    let kind = words.next().ok_or(Unasked::BadLine)?;
    let content = words.next().ok_or(Unasked::BadLine)?;
    match (kind, content) {
        (b"int", _) => Ok(Asked::Whole(Value::Int(integer(content)?), &[])),
        (b"real", _) => {
            let bits = bits(content, work).ok_or(Unasked::BadLine)?;
            let x = real(bits).ok_or(Unasked::Out)?;
            Ok(Asked::Whole(Value::Real(x), &[]))
        }
        (b"text", _) => {
            let src = text::octets(content, work).ok_or(Unasked::BadLine)?;
            let len = src.len();
            Ok(Asked::Whole(Value::Text { start: 0, len }, src))
        }
        (b"octets", _) => {
            let src = text::octets(content, work).ok_or(Unasked::BadLine)?;
            let len = src.len();
            Ok(Asked::Whole(Value::Octets { start: 0, len }, src))
        }
        (b"bool", b"true") => Ok(Asked::Whole(Value::Bool(true), &[])),
        (b"bool", b"false") => Ok(Asked::Whole(Value::Bool(false), &[])),
        _ => Err(Unasked::BadLine),
    }
}

// What a line asks, but for the numbers of an identifier.
fn parse<'a>(words: &[u8], work: &'a mut [u8]) -> Result<Asked<'a>, Unasked> {
    let mut parts = words.splitn(2, |b| *b == b' ');
    let kind = parts.next().ok_or(Unasked::BadLine)?;
    let content = parts.next().ok_or(Unasked::BadLine)?;
    if kind == b"value".as_slice() {
        return value(content, work);
    }
    match (kind, content) {
        (b"int", _) => Ok(Asked::Int(integer(content)?)),
        (b"real", _) => {
            let bits = bits(content, work).ok_or(Unasked::BadLine)?;
            Ok(Asked::Bits(bits))
        }
        (b"bool", b"true") => Ok(Asked::Bool(true)),
        (b"bool", b"false") => Ok(Asked::Bool(false)),
        (b"tag", _) => tag(content).ok_or(Unasked::BadLine),
        (b"length", _) => {
            let n = text::number(content).ok_or(Unasked::BadLine)?;
            Ok(Asked::Length(n))
        }
        _ => Err(Unasked::BadLine),
    }
}

// The numbers of an identifier, with dots between, `-` for none.
fn numbers(alloc: Global, word: &[u8]) -> Result<Option<Vec<u64>>, AllocError> {
    let mut list = Vec::new(alloc);
    if word == b"-".as_slice() {
        return Ok(Some(list));
    }
    for part in word.split(|b| *b == b'.') {
        let Some(n) = text::number(part) else {
            return Ok(None);
        };
        list.push(n)?;
    }
    Ok(Some(list))
}

pub(crate) fn answer(
    rt: &(impl Print + AllocGlobal),
    words: &[u8],
    work: &mut [u8],
    out: &mut [u8],
) -> Result<(), Refusal> {
    if let Some(word) = words.strip_prefix(b"oid ") {
        let numbers = numbers(rt.alloc(), word).map_err(io::Error::from)?;
        let numbers = numbers.ok_or(Refusal::BadLine)?;
        room::put(rt, Asked::Oid(&numbers), out, AT)?;
        return Ok(());
    }
    match parse(words, work) {
        Ok(asked) => room::put(rt, asked, out, AT)?,
        Err(Unasked::Out) => println!(rt; "46")?,
        Err(Unasked::BadLine) => return Err(Refusal::BadLine),
    }
    Ok(())
}
