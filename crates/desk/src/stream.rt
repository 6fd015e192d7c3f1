// A chunk of the stream: whole turns of session, tree reader and desk, and a line for each event.
use crate::Desk;
use framing::Event;
use glow_reader::Answer;
use std::{fmt, io};
use turns::{After, Turned};

// The desk's answers with commas between, `-` for none.
#[derive(Clone, Copy)]
struct Given<'a>(&'a [u8]);

impl fmt::Display for Given<'_> {
    fn fmt<W: fmt::Write>(&self, f: &mut fmt::Formatter<W>) -> fmt::Result {
        if self.0.is_empty() {
            return write!(f, "-");
        }
        for (i, n) in self.0.iter().enumerate() {
            if 0 < i {
                write!(f, ",")?;
            }
            write!(f, "{n}")?;
        }
        Ok(())
    }
}

// The tree's number.
fn number(answer: Answer) -> u64 {
    match answer {
        Answer::Setup => 1,
        Answer::Refused { number, place: _ } => number,
        Answer::Room { count: _ } => 38,
        Answer::Read { root: _, count: _ } => 0,
    }
}

// An event's line, and what came after the session's call. A call that used up its chunk without an event has none. The
// desk's 1 does not come here: the desk is legal, and the entries are as read.
fn report(rt: &impl Print, turned: &Turned) -> io::Result<()> {
    if let Event::More = turned.fed.event {
        return Ok(());
    }
    let event = framing_events::number(turned.fed.event);
    match turned.after {
        After::Nothing => println!(rt; "{event}"),
        After::Refused { answer } => println!(rt; "{event} {}", number(answer)),
        After::Served {
            number,
            answered,
            ..
        } => {
            if number != 0 {
                return println!(rt; "{event} 0 {number}");
            }
            let given = turned.answers.get(..answered).unwrap_or_default();
            println!(rt; "{event} 0 {}", Given(given))
        }
    }
}

// A whole turn, with a table of its own.
fn turn(desk: &mut Desk, store: &mut [u8], chunk: &[u8]) -> Turned {
    let mut table = [[0; 50]; 256];
    turns::turn(
        desk.session,
        store,
        chunk,
        &mut table,
        desk.figures,
        &desk.path,
        &mut desk.cells,
    )
}

// Offers a chunk until it is consumed.
pub(crate) fn offer(
    rt: &impl Print,
    desk: &mut Desk,
    chunk: &[u8],
    store: &mut [u8],
) -> io::Result<()> {
    let mut rest = chunk;
    while !rest.is_empty() {
        let turned = turn(desk, store, rest);
        report(rt, &turned)?;
        // A call consumes no more than it is offered.
        let consumed = turned.fed.consumed.min(rest.len());
        // Only 1 SETUP consumes nothing. It does not come here, and would end the chunk.
        if consumed == 0 {
            break;
        }
        desk.session = turned.fed.session;
        rest = &rest[consumed..];
    }
    Ok(())
}
