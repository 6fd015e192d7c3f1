// frames: reads lines of hexadecimal digits on standard input, each a chunk of an S101 stream, and prints a line for
// each event and one at the end.
#![tactic(auto)]

ghost use Rattle.std.specs.Prelude.{◌≡◌, ◌≤◌, length};
ghost use Rattle.framing_session.specs.Session.{said_by};
ghost use Rattle.base_output.specs.Output.{wrote};
ghost use Rattle.framing_lines.specs.Text.{bad_line_text, event_text, end_text, line_room};

use framing::{Event, Session};
use framing_digits::{Line, Stop};
use framing_lines::LINE_ROOM;
use framing_session::STORE_LENGTH;
use std::io;
use std::io::{BufWriter, Read, Write};

// As many bytes of output wait for another line, and no more.
const MOST_WAITING: usize = 30000;

// Why a run ends: all is said, or the output cannot be written.
#[derive(Drop)]
enum Halt {
    Done,
    Failed(io::Error),
}

impl From<io::Error> for Halt {
    fn from(e: io::Error) -> Halt {
        Halt::Failed(e)
    }
}

// An event's line, which has room.
fn put_event(text: &mut [u8], offset: u64, event: Event, store: &[u8]) -> usize
    requires { (line_room ≤ length text.old) × (length store.now ≤ 17408) }
    ensures store_value { wrote text.old 0 (event_text offset (said_by event store.now)) ≡ record { next = result; output = text.new } }
    ensures upper_bound { result ≤ line_room }
{
    framing_lines::put_event(text, 0, offset, event, store)
}

fn put_bad_line(text: &mut [u8]) -> usize
    requires { line_room ≤ length text.old }
    ensures bad_line_text_value { wrote text.old 0 bad_line_text ≡ record { next = result; output = text.new } }
    ensures upper_bound { result ≤ line_room }
{
    framing_lines::put_bad_line(text, 0)
}

fn put_end(text: &mut [u8], offset: u64, session: Session) -> usize
    requires { line_room ≤ length text.old }
    ensures session_value { wrote text.old 0 (end_text offset session) ≡ record { next = result; output = text.new } }
    ensures upper_bound { result ≤ line_room }
{
    framing_lines::put_end(text, 0, offset, session)
}

// Puts a line to the output that waits.
fn say(out: &mut BufWriter<impl Write + Drop>, line: &[u8]) -> io::Result<()> {
    if MOST_WAITING < out.buffer().len() {
        out.flush()?;
    }
    out.write_all(line)
}

// What is kept from chunk to chunk: the session with its store, the count of bytes consumed, the input line as far as it
// was read, and room for a line of the output.
#[derive(Drop)]
struct Stream {
    session: Session,
    store: [u8; STORE_LENGTH],
    offset: u64,
    line: Line,
    text: [u8; LINE_ROOM],
}

impl Stream {
    fn new() -> Stream {
        Stream {
            session: framing::start(),
            store: [0; STORE_LENGTH],
            offset: 0,
            line: framing_digits::start(),
            text: [0; LINE_ROOM],
        }
    }

    // An event's line. A call that used up its chunk without an event has none.
    fn report(&mut self, out: &mut BufWriter<impl Write + Drop>, event: Event) -> io::Result<()> {
        if let Event::More = event {
            return Ok(());
        }
        let n = put_event(&mut self.text, self.offset, event, &self.store);
        say(out, &self.text[..n])
    }

    // Offers a chunk until it is consumed.
    fn offer(&mut self, out: &mut BufWriter<impl Write + Drop>, chunk: &[u8]) -> Result<(), Halt> {
        let mut rest = chunk;
        while !rest.is_empty() {
            let fed = framing::feed(self.session, &mut self.store, rest);
            let consumed = fed.consumed;
            let total = self.offset.saturating_add(consumed as u64);
            // Only 1 SETUP consumes nothing, and no stream has 2^64 bytes: neither comes here, and either would end the run.
            if consumed == 0 || total == u64::MAX {
                return Err(Halt::Done);
            }
            self.session = fed.session;
            self.offset = total;
            rest = &rest[consumed..];
            self.report(out, fed.event)?;
        }
        Ok(())
    }

    // The run ends at a bad line.
    fn refuse(&mut self, out: &mut BufWriter<impl Write + Drop>) -> Result<(), Halt> {
        let n = put_bad_line(&mut self.text);
        say(out, &self.text[..n])?;
        Err(Halt::Done)
    }

    // The run ends at the input's end.
    fn finish(&mut self, out: &mut BufWriter<impl Write + Drop>) -> Result<(), Halt> {
        if self.line.high.is_some() {
            return self.refuse(out);
        }
        let n = put_end(&mut self.text, self.offset, self.session);
        say(out, &self.text[..n])?;
        Err(Halt::Done)
    }

    // Takes a block of the input, line by line.
    fn take(
        &mut self,
        out: &mut BufWriter<impl Write + Drop>,
        block: &[u8],
        chunk: &mut [u8],
    ) -> Result<(), Halt>
        requires { length block.now ≤ length chunk.old }
    {
        let mut from = 0;
        while from < block.len() {
            let found = framing_digits::scan(block, from, self.line, chunk);
            self.line = found.line;
            from = found.next;
            self.offer(out, &chunk[..found.count])?;
            if let Stop::Fault = found.stop {
                return self.refuse(out);
            }
        }
        Ok(())
    }

    // Takes the input block by block.
    fn run(
        &mut self,
        rt: &impl Eprint,
        input: &mut impl Read,
        out: &mut BufWriter<impl Write + Drop>,
    ) -> Result<(), Halt> {
        let mut block = [0; 65536];
        let mut chunk = [0; 65536];
        // A proved loop has to end, and nothing says that an input does: no run uses up the count.
        for _ in 0..u64::MAX {
            let Ok(n) = input.read(&mut block) else {
                rt.eprint("frames: the input cannot be read\n")?;
                return Ok(());
            };
            if n == 0 {
                return self.finish(out);
            }
            self.take(out, &block[..n], &mut chunk)?;
        }
        Ok(())
    }
}

fn main(rt: HostRuntime) -> io::Result<()> {
    let mut out = BufWriter::with_capacity(rt.alloc(), 65536, io::writer(&rt))?;
    let ended = match Stream::new().run(&rt, &mut rt.stdin(), &mut out) {
        Ok(()) | Err(Halt::Done) => out.flush(),
        Err(Halt::Failed(e)) => Err(e),
    };
    // What could not be written is not tried again.
    let (_output, _waiting) = out.into_parts();
    ended
}
