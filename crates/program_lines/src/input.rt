// The input, line by line: a line ends at 0A or at the input's end.
ghost use Rattle.std.specs.Prelude.{◌≤◌, vec_len};

use std::io;
use std::io::{BufRead, BufReader, Read};

// What the input has next: a line, one that is too long, or no more.
#[derive(Clone, Copy, Debug, PartialEq, Eq)]
pub enum Found {
    Line,
    Long,
    End,
}

// Reads the next line, of `most` bytes at most, or fails where a read fails. No line stands after the last 0A. Of a longer one `line` has the first bytes,
// and the others are passed over. Whatever is answered, `line` has `most` bytes at most.
pub fn next(reader: &mut impl BufRead, most: usize, line: &mut Vec<u8>) -> io::Result<Found>
    ensures { vec_len line.new ≤ most }
{
    line.clear();
    let room = (most as u64).saturating_add(1);
    let read = reader.by_ref().take(room).read_until(b'\n', line);
    if !matches!(read, Ok(1..)) {
        line.clear();
        return read.map(|_| Found::End);
    }
    let ended = line.pop_if(|b| *b == b'\n').is_some();
    if most < line.len() {
        line.truncate(most);
        if !ended {
            reader.skip_until(b'\n')?;
        }
        return Ok(Found::Long);
    }
    Ok(Found::Line)
}

// Why a line is not answered: it is no request, or the answer cannot be written.
#[derive(Drop)]
pub enum Refusal {
    BadLine,
    Failed(io::Error),
}

impl From<io::Error> for Refusal {
    fn from(e: io::Error) -> Refusal {
        Refusal::Failed(e)
    }
}

// A program that answers a request a line.
pub trait Answers {
    fn answer(&mut self, rt: &(impl Print + AllocGlobal), line: &[u8]) -> Result<(), Refusal>;
}

// Answers each line of an input, of `most` bytes at most. A longer one is no request.
pub fn serve(
    rt: &(impl Print + AllocGlobal),
    input: impl Read + Drop,
    most: usize,
    program: &mut impl Answers,
) -> io::Result<()> {
    let mut reader = BufReader::with_capacity(rt.alloc(), 65536, input)?;
    let mut line = Vec::new(rt.alloc());
    // A proved loop has to end: no run uses up the count.
    for _ in 0..u64::MAX {
        let answered = match next(&mut reader, most, &mut line)? {
            Found::Line => program.answer(rt, &line),
            Found::Long => Err(Refusal::BadLine),
            Found::End => break,
        };
        match answered {
            Ok(()) => (),
            Err(Refusal::BadLine) => rt.write_all(b"bad line\n")?,
            Err(Refusal::Failed(e)) => return Err(e),
        }
    }
    Ok(())
}

#[cfg(test)]
mod tests {
    use super::*;
    use std::test::Fail;

    #[test]
    fn lines(rt: HostRuntime) -> Result<(), Fail> {
        let mut input = b"ab\nabcd\n\nabc".as_slice();
        let mut line = Vec::new(rt.alloc());
        assert_eq!(rt; next(&mut input, 3, &mut line)?, Found::Line);
        assert_eq!(rt; line.as_slice(), b"ab".as_slice());
        assert_eq!(rt; next(&mut input, 3, &mut line)?, Found::Long);
        assert_eq!(rt; next(&mut input, 3, &mut line)?, Found::Line);
        assert_eq!(rt; line.as_slice(), b"".as_slice());
        assert_eq!(rt; next(&mut input, 3, &mut line)?, Found::Line);
        assert_eq!(rt; line.as_slice(), b"abc".as_slice());
        assert_eq!(rt; next(&mut input, 3, &mut line)?, Found::End);
        Ok(())
    }

    // A program that answers every line but an empty one, and counts them.
    #[derive(Drop)]
    struct Count(u32);

    impl Answers for Count {
        fn answer(&mut self, _rt: &(impl Print + AllocGlobal), line: &[u8]) -> Result<(), Refusal> {
            if line.is_empty() {
                return Err(Refusal::BadLine);
            }
            self.0 = self.0.saturating_add(1);
            Ok(())
        }
    }

    // A line that is too long is not answered, and the lines after one that is refused are.
    #[test]
    fn served(rt: HostRuntime) -> Result<(), Fail> {
        let mut count = Count(0);
        serve(&rt, b"ab\nabcd\n\nabc\na".as_slice(), 3, &mut count)?;
        assert_eq!(rt; count.0, 3);
        Ok(())
    }
}
