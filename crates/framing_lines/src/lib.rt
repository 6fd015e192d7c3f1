// The lines for a stream's events, put into an output from a place on.
#![tactic(auto)]

ghost use Rattle.std.specs.Prelude.{◌≡◌, ◌+◌, ◌*◌, ◌<◌, ◌≤◌, min, cond, leb, [], ◌∷◌, ◌++◌, length, take};
ghost use Rattle.framing_session.specs.Session.{said_by};
ghost use Rattle.base_hex.specs.Digits.{hex_text};
ghost use Rattle.base_output.specs.Output.{wrote};
ghost use Rattle.framing_lines.specs.Text.{word_text, decimal_text, frame_text, pending_text, space, head_text, bad_line_text, event_text, end_text};
ghost use Rattle.framing_lines.specs.Text.{line_room, wrote_line, wrote_event};

use base_output::put;
use framing_session::{Event, Frame, Session};

// More than any line has.
pub const LINE_ROOM: usize = 35000;

// Two digits for each byte.
fn put_hex(out: &mut [u8], at: usize, s: &[u8]) -> usize
    requires { at + 2 * length s.now ≤ length out.old }
    ensures s_value { wrote out.old at (hex_text s.now) ≡ record { next = result; output = out.new } }
    ensures upper_bound { result ≤ at + 2 * length s.now }
{
    let mut next = at;
    for b in s {
        next = put(out, next, base_hex::high(*b));
        next = put(out, next, base_hex::low(*b));
    }
    next
}

// The digits, or '-' for no bytes.
#[tactic(auto, unfolding(crate::specs::Text::word_text))]
fn put_word(out: &mut [u8], at: usize, s: &[u8]) -> usize
    requires { at + 2 * length s.now + 1 ≤ length out.old }
    ensures s_value { wrote out.old at (word_text s.now) ≡ record { next = result; output = out.new } }
    ensures upper_bound { result ≤ at + 2 * length s.now + 1 }
{
    if s.is_empty() {
        return put(out, at, b'-');
    }
    put_hex(out, at, s)
}

// The last k decimal digits of n, without zeros in front.
fn put_digits(out: &mut [u8], at: usize, n: u64, k: usize) -> usize
    requires { at + k ≤ length out.old }
    ensures n_value { wrote out.old at (decimal_text k n) ≡ record { next = result; output = out.new } }
    ensures upper_bound { result ≤ at + k }
{
    if k == 0 {
        return at;
    }
    if n < 10 {
        return put(out, at, b'0' + n as u8);
    }
    let next = put_digits(out, at, n / 10, k - 1);
    put(out, next, b'0' + (n % 10) as u8)
}

// A number of 64 bits has at most 20 decimal digits.
fn put_decimal(out: &mut [u8], at: usize, n: u64) -> usize
    requires { at + 20 ≤ length out.old }
    ensures n_value { wrote out.old at (decimal_text 20 n) ≡ record { next = result; output = out.new } }
    ensures upper_bound { result ≤ at + 20 }
{
    put_digits(out, at, n, 20)
}

// The offset, the number and whether a message was thrown away.
fn put_head(out: &mut [u8], at: usize, offset: u64, number: u64, discarded: bool) -> usize
    requires { at + 43 ≤ length out.old }
    ensures discarded_value { wrote out.old at (head_text offset number discarded) ≡ record { next = result; output = out.new } }
    ensures upper_bound { result ≤ at + 43 }
{
    let offset_end = put_decimal(out, at, offset);
    let number_at = put(out, offset_end, b' ');
    let number_end = put_decimal(out, number_at, number);
    let bit_at = put(out, number_end, b' ');
    put(out, bit_at, b'0' + u8::from(discarded))
}

// The first n bytes of the store as a word, after a space.
fn put_message(out: &mut [u8], at: usize, n: usize, store: &[u8]) -> usize
    requires { at + 2 * length store.now + 2 ≤ length out.old }
    ensures store_value { wrote out.old at (space ++ word_text (take n store.now)) ≡ record { next = result; output = out.new } }
    ensures upper_bound { result ≤ at + 2 * length store.now + 2 }
{
    let count = n.min(store.len());
    let word_at = put(out, at, b' ');
    put_word(out, word_at, &store[..count])
}

// An event's line.
fn put_event_line(out: &mut [u8], at: usize, offset: u64, event: Event, store: &[u8]) -> usize
    requires { (at + line_room ≤ length out.old) × (length store.now ≤ 17408) }
    ensures store_value { wrote out.old at (event_text offset (said_by event store.now)) ≡ record { next = result; output = out.new } }
    ensures upper_bound { result ≤ at + line_room }
{
    let head_end = put_head(
        out,
        at,
        offset,
        framing_events::number(event),
        framing_events::is_discarded(event),
    );
    let Event::Message { length, .. } = event else {
        return put(out, head_end, b'\n');
    };
    let message_end = put_message(out, head_end, length, store);
    put(out, message_end, b'\n')
}

fn put_bytes(out: &mut [u8], at: usize, s: &[u8]) -> usize
    requires { at + length s.now ≤ length out.old }
    ensures s_value { wrote out.old at s.now ≡ record { next = result; output = out.new } }
    ensures upper_bound { result ≤ at + length s.now }
{
    let mut next = at;
    for b in s {
        next = put(out, next, *b);
    }
    next
}

// The length of the open frame's content, if one is open.
fn open_length(frame: Frame) -> Option<usize>
    ensures { pending_text result ≡ frame_text frame }
{
    match frame {
        Frame::Outside | Frame::Stray => None,
        Frame::Inside { length }
        | Frame::Escaped { length }
        | Frame::BadByte { length }
        | Frame::TooLong { length } => Some(length),
    }
}

// The length of the open frame or message, or '-'.
fn put_open(out: &mut [u8], at: usize, size: Option<usize>) -> usize
    requires { at + 20 ≤ length out.old }
    ensures size_value { wrote out.old at (pending_text size) ≡ record { next = result; output = out.new } }
    ensures upper_bound { result ≤ at + 20 }
{
    match size {
        None => put(out, at, b'-'),
        Some(length) => put_decimal(out, at, length as u64),
    }
}

// What stands open at the input's end.
fn put_end_line(out: &mut [u8], at: usize, offset: u64, session: Session) -> usize
    requires { at + line_room ≤ length out.old }
    ensures session_value { wrote out.old at (end_text offset session) ≡ record { next = result; output = out.new } }
    ensures upper_bound { result ≤ at + line_room }
{
    let offset_at = put_bytes(out, at, b"end ");
    let offset_end = put_decimal(out, offset_at, offset);
    let frame_at = put(out, offset_end, b' ');
    let frame_end = put_open(out, frame_at, open_length(session.frame));
    let message_at = put(out, frame_end, b' ');
    let message_end = put_open(out, message_at, session.message);
    put(out, message_end, b'\n')
}

// Whether a line of any length has room in an output of this length.
fn has_room(length: usize, at: usize) -> bool
    ensures { result ≡ leb (at + line_room) length }
{
    LINE_ROOM <= length && at <= length - LINE_ROOM
}

// An event's line, where there is room for any and the store is no longer than a session's; elsewhere nothing.
pub fn put_event(out: &mut [u8], at: usize, offset: u64, event: Event, store: &[u8]) -> usize
    ensures store_value { wrote_event out.old at offset event store.now ≡ record { next = result; output = out.new } }
    ensures upper_bound { result ≤ at + line_room }
{
    if store.len() > framing_session::STORE_LENGTH {
        return at;
    }
    if has_room(out.len(), at) {
        return put_event_line(out, at, offset, event, store);
    }
    at
}

// The line for input that is no line of digits, where there is room for any line; elsewhere nothing.
pub fn put_bad_line(out: &mut [u8], at: usize) -> usize
    ensures bad_line_text_value { wrote_line out.old at bad_line_text ≡ record { next = result; output = out.new } }
    ensures upper_bound { result ≤ at + line_room }
{
    if has_room(out.len(), at) {
        return put_bytes(out, at, b"bad line\n");
    }
    at
}

// What stands open at the input's end, where there is room for any line; elsewhere nothing.
pub fn put_end(out: &mut [u8], at: usize, offset: u64, session: Session) -> usize
    ensures session_value { wrote_line out.old at (end_text offset session) ≡ record { next = result; output = out.new } }
    ensures upper_bound { result ≤ at + line_room }
{
    if has_room(out.len(), at) {
        return put_end_line(out, at, offset, session);
    }
    at
}
