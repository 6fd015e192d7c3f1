// Octets in an answer.
ghost use Rattle.std.specs.Prelude.{◌≡◌, take, drop};

use std::fmt;

// The len octets of a message at a start, or as many as are there.
pub fn part(s: &[u8], start: usize, len: usize) -> &[u8]
    ensures { result.now ≡ take len (drop start s.now) }
{
    let rest = s.get(start..).unwrap_or_default();
    &rest[..len.min(rest.len())]
}

// Octets in hexadecimal, `-` for none.
#[derive(Clone, Copy)]
pub struct Hex<'a>(pub &'a [u8]);

impl fmt::Display for Hex<'_> {
    fn fmt<W: fmt::Write>(&self, f: &mut fmt::Formatter<W>) -> fmt::Result {
        if self.0.is_empty() {
            return write!(f, "-");
        }
        // Many digits at a time: by `{b:02X}` for each octet the programs took twice as long.
        for part in self.0.chunks(128) {
            let mut digits = [0; 256];
            for (pair, b) in digits.as_chunks_mut::<2>().0.iter_mut().zip(part) {
                *pair = [base_hex::high(*b), base_hex::low(*b)];
            }
            let text = digits.get(..2 * part.len()).unwrap_or_default();
            f.write_str(str::from_utf8(text).map_err(|_| fmt::Error)?)?;
        }
        Ok(())
    }
}
