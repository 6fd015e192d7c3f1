// The first half of reading a route sheet: from its text to the one finished message, or the first refusal.
#![tactic(auto)]

ghost use Rattle.std.specs.Prelude.{◌≡◌, List, [], ℕ, length};
ghost use Rattle.framing_content.specs.Numbers.{store_length};
ghost use Rattle.framing_session.specs.Rules.{begin, happens, after};
ghost use Rattle.sheet_rules.specs.Reading.{of_events};
ghost use Rattle.sheet_stream.specs.Finding.{store_from, finds, found_by, holds};
ghost use Rattle.sheet_stream.specs.Steps.{frame_open, part_open, open_in, another as another_of, bytes_from, left, Sound, Taken};

use framing::{Event, Frame, Session};

// What the text of a sheet holds. Of a message the bytes are the store's first `length`.
#[derive(Clone, Copy)]
pub enum Found {
    Setup,
    Refused { number: u64 },
    Message { length: usize },
}

// What the bytes so far have given: the session, how many messages are finished (2 for more than one), the length of the last of them, and the first event
// from 10 up, 0 if there is none.
#[derive(Clone, Copy)]
struct Tally {
    session: Session,
    messages: u64,
    length: usize,
    refused: u64,
}

fn in_frame(frame: Frame) -> bool
    ensures { result ≡ frame_open frame }
{
    match frame {
        Frame::Outside => false,
        Frame::Stray => false,
        Frame::Inside { length: _ } => true,
        Frame::Escaped { length: _ } => true,
        Frame::BadByte { length: _ } => true,
        Frame::TooLong { length: _ } => true,
    }
}

fn in_message(message: Option<usize>) -> bool
    ensures { result ≡ part_open message }
{
    match message {
        None => false,
        Some(_) => true,
    }
}

// Whether a frame or a message is open.
fn is_open(session: Session) -> bool
    ensures { open_in session ≡ result }
{
    let frame = session.frame;
    let message = session.message;
    if in_frame(frame) {
        return true;
    }
    in_message(message)
}

// One message more.
fn another(k: u64) -> u64
    ensures { another_of k ≡ result }
{
    if k == 0 { 1 } else { 2 }
}

// One byte offered to the session.
fn take_byte(tally: Tally, store: &mut [u8], b: u8) -> Tally
    requires sound { Sound tally store.old }
    requires refused_value { tally.refused ≡ 0 }
    ensures { Taken tally store.old b result store.new }
{
    let before = tally.session;
    let fed = framing::feed(before, store, &[b]);
    let event = fed.event;
    let session = fed.session;
    let number = framing_events::number(event);
    if 10 <= number {
        return Tally {
            session,
            messages: tally.messages,
            length: tally.length,
            refused: number,
        };
    }
    let Event::Message { length, .. } = event else {
        return Tally {
            session,
            messages: tally.messages,
            length: tally.length,
            refused: 0,
        };
    };
    Tally {
        session,
        messages: another(tally.messages),
        length,
        refused: 0,
    }
}

// The bytes that the digits are, up to the first event from 10 up.
fn take_text(text: &[u8], store: &mut [u8]) -> Tally
    requires { length store.old ≡ store_length }
    ensures text_value { of_events (happens begin 0 (bytes_from 16 text.now)) (after begin (bytes_from 16 text.now))
        ≡ left result store.new [] }
    ensures text_value_2 { store_from begin store.old (bytes_from 16 text.now) ≡ store.new }
{
    let mut tally = Tally {
        session: framing::start(),
        messages: 0,
        length: 0,
        refused: 0,
    };
    let mut first = None;
    for b in text {
        let Some(digit) = base_hex::digit(*b) else {
            continue;
        };
        let Some(high) = first else {
            first = Some(digit);
            continue;
        };
        tally = take_byte(tally, store, high * 16 + digit);
        if tally.refused != 0 {
            return tally;
        }
        first = None;
    }
    tally
}

// What all bytes have given.
fn end(tally: Tally) -> Found
    ensures { (t : List ℕ) → holds (left tally t []) t ≡ found_by result t }
{
    let session = tally.session;
    if tally.refused != 0 {
        return Found::Refused {
            number: tally.refused,
        };
    }
    if is_open(session) {
        return Found::Refused { number: 33 };
    }
    if tally.messages == 1 {
        return Found::Message {
            length: tally.length,
        };
    }
    Found::Refused { number: 33 }
}

// The one message of a sheet, left in the lent store, or the first refusal. After `Setup` and after 12 for a bad line the store is as it was; else it is as a
// session leaves it that is fed the sheet's bytes, up to and including that of the first event from 10 up, or all of them.
pub fn find_message(text: &[u8], store: &mut [u8]) -> Found
    ensures { finds text.now store.old ≡ found_by result store.new }
{
    if store.len() != framing::STORE_LENGTH {
        return Found::Setup;
    }
    if sheet_rules::has_bad_line(text) {
        return Found::Refused { number: 12 };
    }
    let tally = take_text(text, store);
    end(tally)
}
