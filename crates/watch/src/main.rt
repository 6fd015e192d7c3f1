// watch: what a supervisor is shown, one showing a line on standard input, and what it answers, one answer a line.
//
//   start TICK       before all others: the start, which is not answered
//   TICK             nothing happened
//   TICK event       an event
//   TICK request     an incoming keep-alive request
//
// The answers are `-`, `ask`, `answer` and `dead`. TICK is decimal, 0 to 4294967295. Any other line is answered with
// `bad line`, and so are one before the start and a second start.
#![tactic(auto)]

use program_lines::input::{Answers, Refusal};
use program_lines::{input, text};
use std::io;
use supervision::{Answer, Happened, Link};

#[derive(Clone, Copy)]
enum Line {
    Start(u32),
    Showing(u32, Happened),
}

fn tick(word: &[u8]) -> Option<u32> {
    u32::try_from(text::plain_number(word)?).ok()
}

fn read(line: &[u8]) -> Option<Line> {
    if let Some(word) = line.strip_prefix(b"start ") {
        return Some(Line::Start(tick(word)?));
    }
    let mut words = line.splitn(2, |b| *b == b' ');
    let tick = tick(words.next()?)?;
    let happened = match words.next() {
        None => Happened::Nothing,
        Some(b"event") => Happened::Event,
        Some(b"request") => Happened::Request,
        Some(_) => return None,
    };
    Some(Line::Showing(tick, happened))
}

fn word(answer: Answer) -> &'static [u8] {
    match answer {
        Answer::Nothing => b"-\n",
        Answer::Ask => b"ask\n",
        Answer::Respond => b"answer\n",
        Answer::Dead => b"dead\n",
    }
}

// The supervisor since the start, if there was one.
#[derive(Drop)]
struct Watch {
    link: Option<Link>,
}

impl Answers for Watch {
    fn answer(&mut self, rt: &(impl Print + AllocGlobal), line: &[u8]) -> Result<(), Refusal> {
        let line = read(line).ok_or(Refusal::BadLine)?;
        match (line, self.link) {
            (Line::Start(tick), None) => {
                self.link = Some(supervision::start(tick));
                Ok(())
            }
            (Line::Showing(tick, happened), Some(link)) => {
                let shown = supervision::show(link, tick, happened);
                self.link = Some(shown.link);
                rt.write_all(word(shown.answer))?;
                Ok(())
            }
            (Line::Start(_), Some(_)) | (Line::Showing(_, _), None) => Err(Refusal::BadLine),
        }
    }
}

fn main(rt: HostRuntime) -> io::Result<()> {
    // No line that is taken is longer.
    input::serve(&rt, rt.stdin(), 64, &mut Watch { link: None })
}
