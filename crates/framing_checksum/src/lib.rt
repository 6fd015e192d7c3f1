// The checksum of S101 frames: what 001's table gives, by division and without the table, which would be laid out at each call. The polynomial is
// x^16 + x^12 + x^5 + 1; a number's low bit is its highest power, so that a shift to the left divides by x. What is left of data is its quotient times
// the polynomial, as far as it is below x^16 (proofs/Division.antt).
#![tactic(auto)]

ghost use Rattle.std.specs.Prelude.{◌≡◌, ◌+◌, ◌-◌, ◌*◌, [], ◌∷◌};
ghost use Rattle.framing_checksum.specs.Checksum.{crc_step, crc_from, checksum};

// One byte of data, q its quotient.
fn crc_step(crc: u16, b: u8) -> u16
    ensures { result ≡ crc_step crc b }
{
    let x = (crc ^ u16::from(b)) % 256;
    let q = (x ^ (x << 4)) % 256;
    (crc >> 8) ^ ((q << 8) ^ (q << 3) ^ (q >> 4))
}

// Four bytes as one number, the low one first.
fn word(a: u8, b: u8, c: u8, d: u8) -> u32
    ensures { result ≡ a + (b + (c + d * 256) * 256) * 256 }
{
    u32::from_le_bytes([a, b, c, d])
}

// Four bytes of data at once. The polynomial is x^16 (1 + a) with a = x^-4 + x^-11 + x^-16, and the quotient q is v (1 + a) (1 + a^2) (1 + a^4).
fn crc_four(crc: u16, a: u8, b: u8, c: u8, d: u8) -> u16
    ensures { result ≡ crc_from crc (a ∷ b ∷ c ∷ d ∷ []) }
{
    let v = u32::from(crc) ^ word(a, b, c, d);
    let x = v ^ (v << 4) ^ (v << 11) ^ (v << 16);
    let y = x ^ (x << 8) ^ (x << 22);
    let q = y ^ (y << 16);
    ((q ^ (q >> 5) ^ (q >> 12)) >> 16) as u16
}

// Goes on with the data of a slice, from the crc that the data before it left.
pub fn crc_from(crc: u16, s: &[u8]) -> u16
    ensures { result ≡ crc_from crc s.now }
{
    let mut left = crc;
    let mut rest = s;
    while let [a, b, c, d, more @ ..] = rest {
        left = crc_four(left, *a, *b, *c, *d);
        rest = more;
    }
    rest.iter().fold(left, |crc, b| crc_step(crc, *b))
}

// The checksum of a slice.
pub fn of(s: &[u8]) -> u16
    ensures { result ≡ checksum s.now }
{
    let c = crc_from(0xffff, s);
    0xffff - c
}

// Two bytes as one number, the low one first.
pub fn joined(low: u8, high: u8) -> u16
    ensures { result ≡ low + high * 256 }
{
    u16::from_le_bytes([low, high])
}
