// Lines of hexadecimal digits, as far as they were read, and the bytes that their pairs are.
#![tactic(auto)]

ghost use Rattle.std.specs.Prelude.{◌≡◌, false, ◌≤◌, ◌<◌, None, IfSome, length, drop};
ghost use Rattle.framing_digits.specs.Lines.{stops, line_ends, digit_in, scanned};

// `high` is the first digit of a pair that is not whole yet. `begun`: the line has a digit.
#[derive(Clone, Copy)]
pub struct Line {
    pub high: Option<u8>,
    pub begun: bool,
}

// Why a scan stopped: the block's end, a line's end, or a byte that makes the line bad.
#[derive(Clone, Copy)]
pub enum Stop {
    Input,
    Line,
    Fault,
}

// `next` is the place after the last byte read, and `count` how many bytes the chunk has.
#[derive(Clone, Copy)]
pub struct Scanned {
    pub stop: Stop,
    pub next: usize,
    pub line: Line,
    pub count: usize,
}

// Before the first byte of a line.
pub fn start() -> Line
    ensures { result ≡ record { high = None; begun = false } }
{
    Line {
        high: None,
        begun: false,
    }
}

// A stop before a new line.
fn stop_at(stop: Stop, next: usize, count: usize) -> Scanned
    ensures value { result ≡ stops stop next None false count }
    ensures next_value { (result.next ≡ next) × ((result.count ≡ count) × (result.line.high ≡ None)) }
{
    Scanned {
        stop,
        next,
        line: start(),
        count,
    }
}

// A line's end: it is bad if a pair is not whole or there is none.
fn end_line(next: usize, high: Option<u8>, begun: bool, count: usize) -> Scanned
    ensures value { result ≡ line_ends next high begun count }
    ensures next_value { (result.next ≡ next) × ((result.count ≡ count) × (result.line.high ≡ None)) }
{
    if high.is_none() && begun {
        return stop_at(Stop::Line, next, count);
    }
    stop_at(Stop::Fault, next, count)
}

// A line's first digit: a number that is none does not count.
fn first_digit(high: Option<u8>) -> Option<u8>
    ensures { result ≡ digit_in high }
{
    high.filter(|h| *h < 16)
}

// Reads bytes of the block up to a line's end, a fault or the block's end, and puts the pairs into the chunk. Those that
// it has no place for are counted and not put.
pub fn scan(block: &[u8], from: usize, line: Line, chunk: &mut [u8]) -> Scanned
    ensures chunk_value { scanned (drop from block.now) from (digit_in line.high) line.begun chunk.old 0
        ≡ record { answer = result; chunk = chunk.new } }
    ensures from_lt_next { from < length block.now → (from < result.next) × (result.next ≤ length block.now) }
    ensures count_in_bounds { length block.now ≤ length chunk.old → result.count ≤ length chunk.old }
    ensures high_bound { IfSome result.line.high (λ h. h < 16) }
{
    let mut high = first_digit(line.high);
    let mut begun = line.begun;
    let mut count = 0;
    for i in from..block.len() {
        let b = block[i];
        if b == b'\n' {
            return end_line(i + 1, high, begun, count);
        }
        let Some(digit) = base_hex::digit(b) else {
            return stop_at(Stop::Fault, i + 1, count);
        };
        begun = true;
        if let Some(first) = high {
            count = base_output::put(chunk, count, first * 16 + digit);
            high = None;
        } else {
            high = Some(digit);
        }
    }
    Scanned {
        stop: Stop::Input,
        next: from.max(block.len()),
        line: Line { high, begun },
        count,
    }
}
