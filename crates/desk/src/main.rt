// desk: a router on the desk of an operator, a script on standard input, one line at a time.
//
//   open TYPE MODE TARGETS SOURCES TOTAL PER_TARGET PATH    opens a desk: 0, or 45 and no desk; `-`: not given
//   bytes HEX                                               a chunk of the stream to the desk: a line for each event
//   request TARGET SOURCES OPERATION                        one request on plain numbers: its number
//   show                                                    the sources of each target, a line
//   grid                                                    the crosspoints as a picture
//   sheet                                                   the route sheet
//
// A path and sources are numbers with dots between, `-` for none. HEX is pairs of digits of either case. Any other line, and one that needs a desk
// while there is none, prints `bad line`.
//
// An event's line is its number, for 3 the tree's number too, and after tree number 0 the desk's answers with commas between, `-` for none.
#![tactic(auto)]

mod request;
mod show;
mod stream;

use desk_crosspoints::Figures;
use framing::Session;
use framing_session::STORE_LENGTH;
use program_lines::input::{Answers, Refusal};
use program_lines::{input, text};
use sheet_writer::Answer;
use std::io;

// A desk: its figures, its path, its crosspoints, and its stream's session.
#[derive(Drop)]
pub(crate) struct Desk {
    figures: Figures,
    path: Vec<u64>,
    cells: Vec<u8>,
    session: Session,
}

// The desk that is there, if one is, the store of its stream, and the space for a chunk.
#[derive(Drop)]
struct Router {
    desk: Option<Desk>,
    store: [u8; STORE_LENGTH],
    work: [u8; 65536],
}

// Prints the lines of the route sheet. 1 and 46 do not come here: the desk is legal, and the output has room for every sheet.
fn sheet(rt: &impl Print, desk: &Desk) -> io::Result<()> {
    let mut out = [0; 65536];
    match sheet_writer::write(desk.figures, &desk.path, &desk.cells, &mut out) {
        Answer::Done { length } => rt.write_all(out.get(..length).unwrap_or_default()),
        Answer::Out => println!(rt; "46"),
        Answer::Setup => println!(rt; "1"),
    }
}

impl Answers for Router {
    fn answer(&mut self, rt: &(impl Print + AllocGlobal), line: &[u8]) -> Result<(), Refusal> {
        if let Some(words) = line.strip_prefix(b"open ") {
            self.desk = request::open(rt, words)?;
            return Ok(());
        }
        let desk = self.desk.as_mut().ok_or(Refusal::BadLine)?;
        if let Some(hex) = line.strip_prefix(b"bytes ") {
            let chunk = text::octets(hex, &mut self.work).ok_or(Refusal::BadLine)?;
            if chunk.is_empty() {
                return Err(Refusal::BadLine);
            }
            stream::offer(rt, desk, chunk, &mut self.store)?;
            return Ok(());
        }
        if let Some(words) = line.strip_prefix(b"request ") {
            return request::ask(rt, desk, words);
        }
        match line {
            b"show" => println!(rt; "{}", show::Sources(desk))?,
            b"grid" => print!(rt; "{}", show::Grid(desk))?,
            b"sheet" => sheet(rt, desk)?,
            _ => return Err(Refusal::BadLine),
        }
        Ok(())
    }
}

fn main(rt: HostRuntime) -> io::Result<()> {
    let mut router = Router {
        desk: None,
        store: [0; STORE_LENGTH],
        work: [0; 65536],
    };
    // A chunk has 65,533 bytes at most.
    input::serve(&rt, rt.stdin(), 131072, &mut router)
}
