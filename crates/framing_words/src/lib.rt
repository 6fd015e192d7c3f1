// A session as four words of a lent slice, and back.
#![tactic(auto)]

ghost use Rattle.std.specs.Prelude.{◌≡◌, get_or};
ghost use Rattle.framing_words.specs.Words.{place_word, open_word, frame_at, pending_at, session_at, is_frame, is_pending, is_session, session_put};

use framing_session::{Frame, Session};

fn place_word(frame: Frame) -> u64
    ensures { result ≡ place_word frame }
{
    match frame {
        Frame::Outside => 0,
        Frame::Stray => 1,
        Frame::Inside { .. } => 2,
        Frame::Escaped { .. } => 3,
        Frame::BadByte { .. } => 4,
        Frame::TooLong { .. } => 5,
    }
}

fn open_word(message: Option<usize>) -> u64
    ensures { result ≡ open_word message }
{
    u64::from(message.is_some())
}

// A word of a lent slice, 0 past its end.
pub fn word_at(words: &[u64], i: usize) -> u64
    ensures { result ≡ get_or words.now i 0 }
{
    words.get(i).copied().unwrap_or(0)
}

#[tactic(auto, unfolding(crate::specs::Words::frame_at))]
fn frame_at(place: u64, length: usize) -> Frame
    ensures { result ≡ frame_at place length }
{
    match place {
        0 => Frame::Outside,
        1 => Frame::Stray,
        2 => Frame::Inside { length },
        3 => Frame::Escaped { length },
        4 => Frame::BadByte { length },
        _ => Frame::TooLong { length },
    }
}

#[tactic(auto, unfolding(crate::specs::Words::pending_at))]
fn pending_at(pending: u64, length: usize) -> Option<usize>
    ensures { result ≡ pending_at pending length }
{
    if pending == 0 { None } else { Some(length) }
}

#[tactic(auto, unfolding(crate::specs::Words::is_frame))]
fn is_frame(place: u64, length: u64) -> bool
    ensures { result ≡ is_frame place length }
{
    if place < 2 { length == 0 } else { place <= 5 }
}

#[tactic(auto, unfolding(crate::specs::Words::is_pending))]
fn is_pending(pending: u64, length: u64) -> bool
    ensures { result ≡ is_pending pending length }
{
    if pending == 0 {
        length == 0
    } else {
        pending == 1
    }
}

// Whether the words are a session's.
#[tactic(auto, unfolding(crate::specs::Words::is_session))]
pub fn is_session(words: &[u64]) -> bool
    ensures { result ≡ is_session words.now }
{
    match words {
        [place, n, pending, m] => is_frame(*place, *n) && is_pending(*pending, *m),
        _ => false,
    }
}

// The session that the words are; a word that is not there counts as 0.
pub fn session_at(words: &[u64]) -> Session
    ensures { result ≡ session_at words.now }
{
    Session {
        frame: frame_at(word_at(words, 0), word_at(words, 1) as usize),
        message: pending_at(word_at(words, 2), word_at(words, 3) as usize),
    }
}

// Any slice but one of four words stays as it was.
#[tactic(auto, unfolding(crate::specs::Words::session_put))]
pub fn put_session(words: &mut [u64], session: Session)
    ensures { words.new ≡ session_put words.old session }
{
    let frame = session.frame;
    let message = session.message;
    if words.len() == 4 {
        words.copy_from_slice(&[
            place_word(frame),
            framing_session::frame_length(frame) as u64,
            open_word(message),
            framing_session::message_length(message) as u64,
        ]);
    }
}
