// The words of a request: numbers, and lists of numbers with dots.
use crate::Desk;
use desk_crosspoints::Figures;
use program_lines::input::Refusal;
use program_lines::text;
use std::alloc::Global;
use std::io;

// A number, the largest for one over 64 bits; `-`: not given.
fn number(word: Option<&[u8]>) -> Result<Option<u64>, Refusal> {
    let word = word.ok_or(Refusal::BadLine)?;
    if word == b"-".as_slice() {
        return Ok(None);
    }
    let n = text::number(word).ok_or(Refusal::BadLine)?;
    Ok(Some(n))
}

// A list, `-` for no numbers.
fn numbers(alloc: Global, word: Option<&[u8]>) -> Result<Vec<u64>, Refusal> {
    let word = word.ok_or(Refusal::BadLine)?;
    let mut list = Vec::new(alloc);
    if word == b"-".as_slice() {
        return Ok(list);
    }
    for part in word.split(|b| *b == b'.') {
        let n = text::number(part).ok_or(Refusal::BadLine)?;
        list.push(n).map_err(io::Error::from)?;
    }
    Ok(list)
}

// TYPE MODE TARGETS SOURCES TOTAL PER_TARGET PATH: a desk with a fresh session, if it is legal.
pub(crate) fn open(rt: &(impl Print + AllocGlobal), words: &[u8]) -> Result<Option<Desk>, Refusal> {
    let mut words = words.splitn(7, |b| *b == b' ');
    let kind = number(words.next())?.unwrap_or(0);
    let mode = number(words.next())?.unwrap_or(0);
    let targets = number(words.next())?.unwrap_or(0);
    let sources = number(words.next())?.unwrap_or(0);
    let total = number(words.next())?;
    let each = number(words.next())?;
    let path = numbers(rt.alloc(), words.next())?;
    let figures = Figures {
        kind,
        targets,
        sources,
        total,
        each,
    };
    let size = desk_crosspoints::size(figures);
    let mut cells = vec![in rt.alloc(); 0; size].map_err(io::Error::from)?;
    let n = desk_crosspoints::open(figures, mode, &path, &mut cells);
    println!(rt; "{n}")?;
    if n != 0 {
        return Ok(None);
    }
    let session = framing::start();
    Ok(Some(Desk {
        figures,
        path,
        cells,
        session,
    }))
}

// TARGET SOURCES OPERATION: one request on plain numbers.
pub(crate) fn ask(
    rt: &(impl Print + AllocGlobal),
    desk: &mut Desk,
    words: &[u8],
) -> Result<(), Refusal> {
    let mut words = words.splitn(3, |b| *b == b' ');
    let target = number(words.next())?.ok_or(Refusal::BadLine)?;
    let sources = numbers(rt.alloc(), words.next())?;
    let operation = number(words.next())?.unwrap_or(0);
    if 2 < operation {
        return Err(Refusal::BadLine);
    }
    let n = desk_calls::request(desk.figures, target, &sources, operation, &mut desk.cells);
    println!(rt; "{n}")?;
    Ok(())
}
