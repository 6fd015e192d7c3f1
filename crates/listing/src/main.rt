// listing: reads lines of hexadecimal digits on standard input, each a chunk of one S101 stream, and prints a line for
// each event: its count and its number, and for a message what the tree reader answers. The last line is `end` and the
// count; or `bad line`, at the first such, whose pairs before the fault are taken.
#![tactic(auto)]

ghost use Rattle.std.specs.Prelude.{◌≤◌, length};

use framing::{Event, Session};
use framing_digits::{Line, Stop};
use framing_session::STORE_LENGTH;
use glow_reader::Answer;
use std::io;
use std::io::Read;

// Why a run ends: all is said, or the output cannot be written.
#[derive(Drop)]
enum Halt {
    Done,
    Failed(io::Error),
}

impl From<io::Error> for Halt {
    fn from(e: io::Error) -> Halt {
        Halt::Failed(e)
    }
}

fn number(answer: Answer) -> u64 {
    match answer {
        Answer::Setup => 1,
        Answer::Refused { number, place: _ } => number,
        Answer::Room { count: _ } => 38,
        Answer::Read { root: _, count: _ } => 0,
    }
}

// The loops are those of `frames`, which keeps and says other things: a crate with a trait of three methods for both would be longer than they are.

// What is kept from chunk to chunk: the session with its store, a table for the tree reader, the count of events, and
// the input line as far as it was read.
#[derive(Drop)]
struct Stream {
    session: Session,
    store: [u8; STORE_LENGTH],
    table: [[u64; 50]; 256],
    count: u64,
    line: Line,
}

impl Stream {
    fn new() -> Stream {
        Stream {
            session: framing::start(),
            store: [0; STORE_LENGTH],
            table: [[0; 50]; 256],
            count: 0,
            line: framing_digits::start(),
        }
    }

    // What the tree reader answers to the first bytes of the store.
    fn tree(&mut self, length: usize) -> u64 {
        let Some(message) = self.store.get(..length) else {
            return 1;
        };
        number(glow_reader::read(message, &mut self.table))
    }

    // An event's line. Only a finished message goes on to the tree reader, and a call that used up its chunk without an
    // event has none.
    fn report(&mut self, rt: &impl Print, event: Event) -> io::Result<()> {
        if let Event::More = event {
            return Ok(());
        }
        // No run has 2^64 events.
        self.count = self.count.saturating_add(1);
        let count = self.count;
        let number = framing_events::number(event);
        let Event::Message { length, .. } = event else {
            return println!(rt; "{count} {number}");
        };
        let tree = self.tree(length);
        println!(rt; "{count} {number} {tree}")
    }

    // Offers a chunk until it is consumed.
    fn offer(&mut self, rt: &impl Print, chunk: &[u8]) -> Result<(), Halt> {
        let mut rest = chunk;
        while !rest.is_empty() {
            let fed = framing::feed(self.session, &mut self.store, rest);
            // A call consumes no more than it is offered.
            let consumed = fed.consumed.min(rest.len());
            // Only 1 SETUP consumes nothing. It does not come here, and would end the run.
            if consumed == 0 {
                return Err(Halt::Done);
            }
            self.session = fed.session;
            rest = &rest[consumed..];
            self.report(rt, fed.event)?;
        }
        Ok(())
    }

    // Takes a block of the input, line by line. The run ends at a bad line.
    fn take(&mut self, rt: &impl Print, block: &[u8], chunk: &mut [u8]) -> Result<(), Halt>
        requires { length block.now ≤ length chunk.old }
    {
        let mut from = 0;
        while from < block.len() {
            let found = framing_digits::scan(block, from, self.line, chunk);
            self.line = found.line;
            from = found.next;
            self.offer(rt, &chunk[..found.count])?;
            if let Stop::Fault = found.stop {
                println!(rt; "bad line")?;
                return Err(Halt::Done);
            }
        }
        Ok(())
    }

    // The run ends at the input's end.
    fn finish(&self, rt: &impl Print) -> io::Result<()> {
        if self.line.high.is_some() {
            return println!(rt; "bad line");
        }
        println!(rt; "end {}", self.count)
    }

    // Takes the input block by block.
    fn run(&mut self, rt: &(impl Print + Eprint), input: &mut impl Read) -> Result<(), Halt> {
        let mut block = [0; 65536];
        let mut chunk = [0; 65536];
        // A proved loop has to end, and nothing says that an input does: no run uses up the count.
        for _ in 0..u64::MAX {
            let Ok(n) = input.read(&mut block) else {
                rt.eprint("listing: the input cannot be read\n")?;
                return Ok(());
            };
            if n == 0 {
                self.finish(rt)?;
                return Ok(());
            }
            self.take(rt, &block[..n], &mut chunk)?;
        }
        Ok(())
    }
}

fn main(rt: HostRuntime) -> io::Result<()> {
    match Stream::new().run(&rt, &mut rt.stdin()) {
        Ok(()) | Err(Halt::Done) => Ok(()),
        Err(Halt::Failed(e)) => Err(e),
    }
}
