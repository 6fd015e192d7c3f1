// The Glow tree: a message read into entries, rows of a lent table.
#![tactic(auto)]

ghost use Rattle.std.specs.Prelude.{◌≤◌, ◌<◌, ◌≡◌};
ghost use Rattle.glow_reader.specs.Message.{read_result, read_at};

use glow_rows::{MOST_BYTES, MOST_ENTRIES};

// What the reader answers.
#[derive(Clone, Copy)]
pub enum Answer {
    Setup,
    Refused { number: u64, place: usize },
    Room { count: usize },
    Read { root: u64, count: usize },
}

// Reads a message into the table's rows, one for each element, connection and stream entry. A refusal leaves the table as it was.
pub fn read(s: &[u8], table: &mut [[u64; 50]]) -> Answer
    ensures { read_at s.now table.old ≡ read_result result table.new }
{
    if MOST_ENTRIES < table.len() {
        return Answer::Setup;
    }
    if MOST_BYTES < s.len() {
        return Answer::Setup;
    }
    match glow_walk::message(s, &mut table[..0]) {
        Err(e) => Answer::Refused {
            number: e.0,
            place: e.1,
        },
        Ok((root, count)) => {
            if table.len() < count {
                return Answer::Room { count };
            }
            let again = glow_walk::message(s, table);
            Answer::Read { root, count }
        }
    }
}
