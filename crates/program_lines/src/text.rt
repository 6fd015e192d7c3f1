// The parts of a request.
ghost use Rattle.std.specs.Prelude.{◌≡◌, ◌≤◌, length, IfSome};
ghost use Rattle.program_lines.specs.Words.{number_of, plain_number_of};

// The octet of two hexadecimal digits.
fn octet(pair: &[u8; 2]) -> Option<u8> {
    let [a, b] = *pair;
    let high = char::from(a).to_digit(16)?;
    let low = char::from(b).to_digit(16)?;
    u8::try_from(high * 16 + low).ok()
}

// The octets that a text is, put at the start of the work space: `-`, or pairs of digits.
pub fn octets<'a>(text: &[u8], work: &'a mut [u8]) -> Option<&'a [u8]>
    ensures { IfSome result (λ found. length found.now ≤ length work.old) }
{
    let (pairs, rest) = text.as_chunks::<2>();
    if rest == b"-".as_slice() && pairs.is_empty() {
        return Some(&work[..0]);
    }
    if !rest.is_empty() || pairs.is_empty() || work.len() < pairs.len() {
        return None;
    }
    let found = &mut work[..pairs.len()];
    for (place, pair) in found.iter_mut().zip(pairs) {
        *place = octet(pair)?;
    }
    Some(found)
}

// The number that a text is, the largest for one over 64 bits.
pub fn number(text: &[u8]) -> Option<u64>
    ensures { number_of text.now ≡ result }
{
    if text.is_empty() {
        return None;
    }
    let mut n: u64 = 0;
    for b in text {
        if !b.is_ascii_digit() {
            return None;
        }
        n = n.saturating_mul(10).saturating_add(u64::from(*b - b'0'));
    }
    Some(n)
}

// The same of a text whose first digit is 0 only where it is the one digit.
pub fn plain_number(text: &[u8]) -> Option<u64>
    ensures { plain_number_of text.now ≡ result }
{
    if text.len() > 1 && text[0] == b'0' {
        return None;
    }
    number(text)
}
