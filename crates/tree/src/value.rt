// What a member holds, as text.
use ber_identifiers::Arc;
use ber_values::Value;
use program_lines::print::{Hex, part};
use std::fmt;

// A text in double quotes, with `\` and two digits for each byte that is `"`, `\` or none of 20 to 7E.
#[derive(Clone, Copy)]
pub(crate) struct Quoted<'a>(pub(crate) &'a [u8]);

impl fmt::Display for Quoted<'_> {
    fn fmt<W: fmt::Write>(&self, f: &mut fmt::Formatter<W>) -> fmt::Result {
        write!(f, "\"")?;
        for b in self.0 {
            match *b {
                b'"' | b'\\' | ..0x20 | 0x7F.. => write!(f, "\\{b:02X}")?,
                plain => write!(f, "{}", char::from(plain))?,
            }
        }
        write!(f, "\"")
    }
}

// Numbers with dots between, `-` for none.
#[derive(Clone, Copy)]
pub(crate) struct Numbers<'a>(pub(crate) &'a [u8]);

impl fmt::Display for Numbers<'_> {
    fn fmt<W: fmt::Write>(&self, f: &mut fmt::Formatter<W>) -> fmt::Result {
        let octets = self.0;
        if octets.is_empty() {
            return write!(f, "-");
        }
        let mut p = 0;
        while p < octets.len() {
            let Arc::Number { number, next } = ber_identifiers::read_number(octets, p, octets.len())
            else {
                return Ok(());
            };
            if 0 < p {
                write!(f, ".")?;
            }
            write!(f, "{number}")?;
            p = next;
        }
        Ok(())
    }
}

// A value with its kind before it.
#[derive(Clone, Copy)]
pub(crate) struct Any<'a> {
    pub(crate) s: &'a [u8],
    pub(crate) value: Value,
}

impl fmt::Display for Any<'_> {
    fn fmt<W: fmt::Write>(&self, f: &mut fmt::Formatter<W>) -> fmt::Result {
        match self.value {
            Value::Absent => Ok(()),
            Value::Int(z) => write!(f, "int:{z}"),
            // A double's 64 bits.
            Value::Real(x) => {
                let bits = glow_rows::cell_of(Value::Real(x)).first;
                write!(f, "real:{bits:016X}")
            }
            Value::Text { start, len } => write!(f, "text:{}", Quoted(part(self.s, start, len))),
            Value::Bool(b) => write!(f, "bool:{b}"),
            Value::Octets { start, len } => write!(f, "octets:{}", Hex(part(self.s, start, len))),
        }
    }
}
