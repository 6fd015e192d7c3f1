// sheet: the whole standard input is a route sheet. Prints the number of reading it and, after 0, the sheet of the desk that was read as it is written here.
// An input of more than 600,000 bytes prints `too long`.
#![tactic(auto)]

use desk_crosspoints::Figures;
use framing_session::STORE_LENGTH;
use sheet_reader::{MOST, Sheet};
use sheet_writer::Answer;
use std::io;
use std::io::Read;

// As many bytes as the longest input has that is read.
const LONGEST: usize = 600_000;

// Writes the sheet of a desk. 1 and 46 do not come here: the desk is legal, and the output has room for every sheet.
fn write(rt: &impl Print, figures: Figures, path: &[u64], cells: &[u8]) -> io::Result<()> {
    let mut out = [0; 65536];
    match sheet_writer::write(figures, path, cells, &mut out) {
        Answer::Done { length } => {
            println!(rt; "0")?;
            rt.write_all(out.get(..length).unwrap_or_default())
        }
        Answer::Out => println!(rt; "46"),
        Answer::Setup => println!(rt; "1"),
    }
}

fn read(rt: &impl Print, text: &[u8]) -> io::Result<()> {
    let mut store = [0; STORE_LENGTH];
    let mut path = [0; 16];
    let mut cells = [0; MOST];
    match sheet_reader::read(text, &mut store, &mut path, &mut cells) {
        Sheet::Setup => println!(rt; "1"),
        Sheet::Refused { number } => println!(rt; "{number}"),
        Sheet::Read { figures, length } => {
            let size = desk_crosspoints::size(figures);
            let (Some(path), Some(cells)) = (path.get(..length), cells.get(..size)) else {
                return Ok(());
            };
            write(rt, figures, path, cells)
        }
    }
}

fn main(rt: HostRuntime) -> io::Result<()> {
    let mut text = Vec::new(rt.alloc());
    rt.stdin().take(LONGEST as u64 + 1).read_to_end(&mut text)?;
    if text.len() > LONGEST {
        return println!(rt; "too long");
    }
    read(&rt, &text)
}
