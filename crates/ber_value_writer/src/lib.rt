// EmBER values written: one tag with its content. Nothing of Glow.
#![tactic(auto)]

ghost use Rattle.std.specs.Prelude.{◌≡◌, [], ◌∷◌, ◌<◌};
ghost use Rattle.ber_integers.specs.Integer.{shortest};
ghost use Rattle.ber_integers.specs.Digits.{outcome};
ghost use Rattle.ber_reals.specs.Write.{octets, form};
ghost use Rattle.ber_values.specs.Write.{Sealable, put_head, bool_octet, part, put_part, put_primitive, put_value};

use ber_values::Value;

// Content octets that stand two octets past `at`, fewer than 128, get their tag and length.
fn sealed(kind: u8, w: Option<usize>, out: &mut [u8], at: usize) -> Option<usize>
    requires { Sealable out.old at w }
    ensures { put_head out.old at kind w ≡ outcome result out.new }
{
    let end = w?;
    out[at + 1] = (end - (at + 2)) as u8;
    out[at] = kind;
    Some(end)
}

// A number with its tag and length, where the output holds these two octets at a position.
fn write_whole(x: i64, out: &mut [u8], at: usize) -> Option<usize>
    ensures { put_primitive out.old at 2 (octets (shortest x)) ≡ outcome result out.new }
{
    ber_integers::held(out, at, 2)?;
    let w = ber_integers::write_int(x, out, at + 2);
    sealed(2, w, out, at)
}

fn write_double(x: f64, out: &mut [u8], at: usize) -> Option<usize>
    ensures { put_primitive out.old at 9 (form x) ≡ outcome result out.new }
{
    ber_integers::held(out, at, 2)?;
    let w = ber_real_writer::write_real(x, out, at + 2);
    sealed(9, w, out, at)
}

// A boolean's content octet.
pub fn bool_octet(b: bool) -> u8
    ensures { result ≡ bool_octet b }
{
    if b { 255 } else { 0 }
}

fn write_flag(b: bool, out: &mut [u8], at: usize) -> Option<usize>
    ensures { put_primitive out.old at 1 (octets (bool_octet b ∷ [])) ≡ outcome result out.new }
{
    ber_integers::held(out, at, 2)?;
    let w = ber_integers::write_octet(bool_octet(b), out, at + 2);
    sealed(1, w, out, at)
}

// The len octets at `start` of another slice, at a position of the output.
pub fn write_part(src: &[u8], start: usize, len: usize, out: &mut [u8], at: usize) -> Option<usize>
    ensures { put_part src.now start len out.old at ≡ outcome result out.new }
{
    ber_integers::held(src, start, len)?;
    ber_integers::held(out, at, len)?;
    // By `copy_from_slice` the C archives would need memmove from outside.
    for i in (0..len).rev() {
        out[at + i] = src[start + i];
    }
    Some(at + len)
}

// Text or octets with their tag and length.
fn write_text(
    kind: u8,
    src: &[u8],
    start: usize,
    len: usize,
    out: &mut [u8],
    at: usize,
) -> Option<usize>
    requires { kind < 31 }
    ensures { put_primitive out.old at kind (part src.now start len) ≡ outcome result out.new }
{
    let n = len as u64;
    if 4294967295 < n {
        return None;
    }
    let h = ber_tag_writer::length_size(n);
    ber_integers::held(out, at, h + 1)?;
    let end = write_part(src, start, len, out, at + 1 + h)?;
    ber_tag_writer::write_length(n, out, at + 1);
    out[at] = kind;
    Some(end)
}

// A value with its tag, at a position of the output; texts and octets come from `src`.
pub fn write_value(v: Value, src: &[u8], out: &mut [u8], at: usize) -> Option<usize>
    ensures { put_value src.now out.old at v ≡ outcome result out.new }
{
    match v {
        Value::Absent => None,
        Value::Int(x) => write_whole(x, out, at),
        Value::Real(x) => write_double(x, out, at),
        Value::Text { start, len } => write_text(12, src, start, len, out, at),
        Value::Bool(b) => write_flag(b, out, at),
        Value::Octets { start, len } => write_text(4, src, start, len, out, at),
    }
}
