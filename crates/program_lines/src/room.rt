// What is asked to be written, tried in outputs of several lengths.
ghost use Rattle.std.specs.Prelude.{◌≡◌};
ghost use Rattle.program_lines.specs.Words.{clear};

use crate::print::Hex;
use std::io;

// Whether an output holds nothing but zeros.
pub fn is_clear(out: &[u8]) -> bool
    ensures { clear out.now ≡ result }
{
    out.iter().all(|b| *b == 0)
}

// What a request asks to be written: where in an output it ends then, or `None` where the output is too short.
pub trait Asked: Copy {
    fn write(self, out: &mut [u8]) -> Option<usize>;
}

// Written to the first n bytes of an output.
fn write_to(asked: impl Asked, out: &mut [u8], n: usize) -> Option<usize> {
    asked.write(out.get_mut(..n)?)
}

// Prints what is written from a place on, or 46: it is written with room enough, in one byte less than that took, which
// must be too short and leave the output as it was, else `room` is printed, and in exactly as many, which is printed.
pub fn put(rt: &impl Print, asked: impl Asked, out: &mut [u8], from: usize) -> io::Result<()> {
    let Some(end) = asked.write(out) else {
        return println!(rt; "46");
    };
    out.fill(0);
    if write_to(asked, out, end.saturating_sub(1)).is_some() || !is_clear(out) {
        return println!(rt; "room");
    }
    let Some(end) = write_to(asked, out, end) else {
        return println!(rt; "46");
    };
    println!(rt; "{}", Hex(out.get(from..end).unwrap_or_default()))
}

#[cfg(test)]
mod tests {
    use super::*;
    use std::test::Fail;

    #[derive(Clone, Copy)]
    struct Two;

    impl Asked for Two {
        fn write(self, out: &mut [u8]) -> Option<usize> {
            if out.len() < 2 {
                return None;
            }
            out[0] = 7;
            out[1] = 8;
            Some(2)
        }
    }

    // After the trial in one byte less, the output has what was written in exactly as many, and nothing else.
    #[test]
    fn written_again(rt: HostRuntime) -> Result<(), Fail> {
        let mut out = [9u8; 4];
        put(&rt, Two, &mut out, 0)?;
        assert_eq!(rt; out.as_slice(), [7u8, 8, 0, 0].as_slice());
        Ok(())
    }
}
