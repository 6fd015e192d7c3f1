// Route sheets: what a desk's sheet is, what reading a sheet gives, and that the one undoes the other. The code here is the text of sheets: frames into
// lines, and whether lines are right.
#![tactic(auto)]

ghost use Rattle.std.specs.Prelude.{◌≡◌, ℕ, ◌+◌, ◌*◌, ◌≤◌, ◌<◌, List, [], ◌∷◌, length};
ghost use Rattle.framing_packets.specs.Written.{outcome};
ghost use Rattle.base_output.specs.Output.{wrote};
ghost use Rattle.sheet_rules.specs.Sheet.{broken, breaks, breaks_into};
ghost use Rattle.sheet_rules.specs.Lines.{lines_in, is_bad};
ghost use Rattle.sheet_rules.specs.Steps.{room, step_line};

use base_output::put;

// A byte in two digits, and 0A after the one that ends a frame. Over an output of no bytes it counts (`put`).
fn emit_byte(out: &mut [u8], at: usize, b: u8) -> usize
    requires { at + 3 ≤ room }
    ensures b_value { wrote out.old at (broken b) ≡ record { next = result; output = out.new } }
    ensures upper_bound { result ≤ at + 3 }
{
    let first = put(out, at, base_hex::high(b));
    let second = put(out, first, base_hex::low(b));
    if b == 255 {
        return put(out, second, 10);
    }
    second
}

fn emit_lines(out: &mut [u8], at: usize, s: &[u8]) -> usize
    requires { at + 3 * length s.now ≤ room }
    ensures s_value { wrote out.old at (breaks s.now) ≡ record { next = result; output = out.new } }
    ensures upper_bound { result ≤ at + 3 * length s.now }
{
    let mut next = at;
    for b in s {
        next = emit_byte(out, next, *b);
    }
    next
}

// Frames as lines: upper-case hexadecimal, one frame and 0A a line. 46 where the output is too short, or the frames have more than 65,536 bytes.
pub fn write_lines(frames: &[u8], out: &mut [u8]) -> Option<usize>
    ensures { breaks_into frames.now out.old ≡ outcome result out.new }
{
    if 65536 < frames.len() {
        return None;
    }
    let length = emit_lines(&mut out[..0], 0, frames);
    if out.len() < length {
        return None;
    }
    emit_lines(out, 0, frames);
    Some(length)
}

// What has come of a line: nothing, whole pairs of digits, a first digit too; or something bad.
const FRESH: u8 = 0;

const PAIRS: u8 = 1;

const HALF: u8 = 2;

const BAD: u8 = 3;

// What has come of a line with one more byte.
#[tactic(auto, unfolding(crate::specs::Steps::step_line))]
fn step_line(k: u8, b: u8) -> u8
    ensures { step_line k b ≡ result }
{
    if k == PAIRS && b == b'\n' {
        return FRESH;
    }
    match base_hex::digit(b) {
        None => BAD,
        Some(_) if k == PAIRS || k == FRESH => HALF,
        Some(_) => PAIRS,
    }
}

// Whether a line is bad: 12.
pub fn has_bad_line(text: &[u8]) -> bool
    ensures { is_bad (lines_in text.now) ≡ result }
{
    let mut k = FRESH;
    for b in text {
        k = step_line(k, *b);
        if k == BAD {
            return true;
        }
    }
    k == HALF
}
