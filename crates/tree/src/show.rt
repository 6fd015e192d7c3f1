// Answers: the first line, and a line for each entry.
use crate::entry::Entry;
use glow_reader::Answer;
use glow_rows::{KIND, PARENT, kinds};
use std::{fmt, io};

// The parent's place, `-` for none; a row has it and 1.
#[derive(Clone, Copy)]
struct Parent(u64);

impl fmt::Display for Parent {
    fn fmt<W: fmt::Write>(&self, f: &mut fmt::Formatter<W>) -> fmt::Result {
        match self.0.checked_sub(1) {
            Some(place) => write!(f, "{place}"),
            None => write!(f, "-"),
        }
    }
}

fn kind(kind: u64) -> &'static str {
    match kind {
        kinds::PARAMETER => "parameter",
        kinds::COMMAND => "command",
        kinds::NODE => "node",
        kinds::MATRIX => "matrix",
        kinds::QUALIFIED_PARAMETER => "qualified-parameter",
        kinds::QUALIFIED_NODE => "qualified-node",
        kinds::QUALIFIED_MATRIX => "qualified-matrix",
        kinds::CONNECTION => "connection",
        kinds::STREAM_ENTRY => "stream",
        _ => "?",
    }
}

pub(crate) fn answer(
    rt: &impl Print,
    s: &[u8],
    table: &[[u64; 50]],
    answer: Answer,
) -> io::Result<()> {
    match answer {
        Answer::Setup => println!(rt; "1"),
        Answer::Refused { number, place } => println!(rt; "{number} {place}"),
        Answer::Room { count } => println!(rt; "38 {count}"),
        Answer::Read { root, count } => {
            let root = if root == 0 { "elements" } else { "streams" };
            println!(rt; "0 {root} {count}")?;
            for (i, row) in table.iter().take(count).enumerate() {
                println!(rt;
                    "{i} {} {}{}",
                    Parent(row[PARENT]),
                    kind(row[KIND]),
                    Entry { s, row }
                )?;
            }
            Ok(())
        }
    }
}
