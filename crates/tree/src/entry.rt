// Entries by their structs: each member that is present, in the order of its number, as ` NAME=VALUE`.
use crate::value::{Any, Numbers, Quoted};
use ber_values::Value;
use glow_entries::{Command, Connection, Key, Matrix, Node, Parameter, Part, Stream};
use glow_rows::{KIND, kinds};
use program_lines::print::part;
use std::fmt;

// The entry of a row, and the message whose parts its members are.
#[derive(Clone, Copy)]
pub(crate) struct Entry<'a> {
    pub(crate) s: &'a [u8],
    pub(crate) row: &'a [u64; 50],
}

impl fmt::Display for Entry<'_> {
    fn fmt<W: fmt::Write>(&self, f: &mut fmt::Formatter<W>) -> fmt::Result {
        match self.row[KIND] {
            kinds::PARAMETER | kinds::QUALIFIED_PARAMETER => self.of_kind::<Parameter, W>(f),
            kinds::NODE | kinds::QUALIFIED_NODE => self.of_kind::<Node, W>(f),
            kinds::MATRIX | kinds::QUALIFIED_MATRIX => self.of_kind::<Matrix, W>(f),
            kinds::COMMAND => self.of_kind::<Command, W>(f),
            kinds::CONNECTION => self.of_kind::<Connection, W>(f),
            kinds::STREAM_ENTRY => self.of_kind::<Stream, W>(f),
            _ => write!(f, " ?"),
        }
    }
}

impl Entry<'_> {
    // A row that is none of its kind's is ` ?`.
    fn of_kind<E: Members, W: fmt::Write>(&self, f: &mut fmt::Formatter<W>) -> fmt::Result {
        match E::of(self.row) {
            Some(e) => e.members(self.s, f),
            None => write!(f, " ?"),
        }
    }
}

// A kind of entry whose members are printed.
trait Members: glow_entries::FromRow {
    fn members<W: fmt::Write>(self, s: &[u8], f: &mut fmt::Formatter<W>) -> fmt::Result;
}

impl Members for Parameter {
    fn members<W: fmt::Write>(self, s: &[u8], f: &mut fmt::Formatter<W>) -> fmt::Result {
        key(f, s, self.key)?;
        text(f, s, "identifier", self.identifier)?;
        text(f, s, "description", self.description)?;
        any(f, s, "value", self.value)?;
        any(f, s, "minimum", self.minimum)?;
        any(f, s, "maximum", self.maximum)?;
        member(f, "access", self.access)?;
        member(f, "factor", self.factor)?;
        member(f, "online", self.online)?;
        member(f, "step", self.step)?;
        member(f, "stream", self.stream)
    }
}

impl Members for Node {
    fn members<W: fmt::Write>(self, s: &[u8], f: &mut fmt::Formatter<W>) -> fmt::Result {
        key(f, s, self.key)?;
        text(f, s, "identifier", self.identifier)?;
        text(f, s, "description", self.description)?;
        member(f, "root", self.root)?;
        member(f, "online", self.online)
    }
}

impl Members for Matrix {
    fn members<W: fmt::Write>(self, s: &[u8], f: &mut fmt::Formatter<W>) -> fmt::Result {
        key(f, s, self.key)?;
        text(f, s, "identifier", self.identifier)?;
        text(f, s, "description", self.description)?;
        member(f, "type", self.matrix_type)?;
        member(f, "mode", self.mode)?;
        member(f, "targets", self.targets)?;
        member(f, "sources", self.sources)?;
        member(f, "total-limit", self.total_limit)?;
        member(f, "target-limit", self.target_limit)
    }
}

impl Members for Command {
    fn members<W: fmt::Write>(self, _s: &[u8], f: &mut fmt::Formatter<W>) -> fmt::Result {
        member(f, "number", Some(self.number))?;
        member(f, "mask", self.mask)
    }
}

impl Members for Connection {
    fn members<W: fmt::Write>(self, s: &[u8], f: &mut fmt::Formatter<W>) -> fmt::Result {
        member(f, "target", Some(self.target))?;
        if let Some(p) = self.sources {
            member(f, "sources", Some(Numbers(part(s, p.start, p.len))))?;
        }
        member(f, "operation", self.operation)
    }
}

impl Members for Stream {
    fn members<W: fmt::Write>(self, s: &[u8], f: &mut fmt::Formatter<W>) -> fmt::Result {
        member(f, "stream", Some(self.identifier))?;
        any(f, s, "value", self.value)
    }
}

// A member, if it is there.
fn member<T: fmt::Display + Drop, W: fmt::Write>(
    f: &mut fmt::Formatter<W>,
    name: &str,
    value: Option<T>,
) -> fmt::Result {
    match value {
        Some(value) => write!(f, " {name}={value}"),
        None => Ok(()),
    }
}

// An element's number or path.
fn key<W: fmt::Write>(f: &mut fmt::Formatter<W>, s: &[u8], key: Key) -> fmt::Result {
    match key {
        Key::Number(z) => member(f, "number", Some(z)),
        Key::Path { start, len } => member(f, "path", Some(Numbers(part(s, start, len)))),
    }
}

fn text<W: fmt::Write>(
    f: &mut fmt::Formatter<W>,
    s: &[u8],
    name: &str,
    text: Option<Part>,
) -> fmt::Result {
    match text {
        Some(p) => member(f, name, Some(Quoted(part(s, p.start, p.len)))),
        None => Ok(()),
    }
}

// A member of any kind, with its kind before it.
fn any<W: fmt::Write>(
    f: &mut fmt::Formatter<W>,
    s: &[u8],
    name: &str,
    value: Value,
) -> fmt::Result {
    match value {
        Value::Absent => Ok(()),
        _ => member(f, name, Some(Any { s, value })),
    }
}
