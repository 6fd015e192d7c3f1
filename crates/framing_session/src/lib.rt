// The session of a stream: its types, a fresh one, and which ones are legal; with the rules that it follows (specs/Rules.antt).
#![tactic(auto)]

ghost use Rattle.std.specs.Prelude.{◌≡◌};
ghost use Rattle.framing_session.specs.Rules.{begin};
ghost use Rattle.framing_session.specs.Session.{frame_length, message_length, legal, session_of};

use framing_content::Fault;

pub const BOF: u8 = 0xfe;

pub const EOF: u8 = 0xff;

pub const CE: u8 = 0xfd;

// The lent store: message bytes from 0, frame content from 16,384.
pub const STORE_LENGTH: usize = 17408;

pub const MESSAGE_LIMIT: usize = 16384;

pub const CONTENT_START: usize = 16384;

pub const CONTENT_LIMIT: usize = 1024;

// What a call has to tell; specs/Session.antt gives each case its number and values. Of a message
// the bytes are the store's first `length`.
#[derive(Clone, Copy)]
pub enum Event {
    More,
    Setup,
    Piece { discarded: bool },
    Message { length: usize, discarded: bool },
    Request,
    Response,
    Refused { fault: Fault, discarded: bool },
}

// Where the stream stands: of an open frame, how many content bytes the store holds.
#[derive(Clone, Copy)]
pub enum Frame {
    Outside,
    Stray,
    Inside { length: usize },
    Escaped { length: usize },
    BadByte { length: usize },
    TooLong { length: usize },
}

// Where the stream stands, and how many bytes of an unfinished message the store holds.
#[derive(Clone, Copy)]
pub struct Session {
    pub frame: Frame,
    pub message: Option<usize>,
}

// What a byte gives: the event and the next session.
#[derive(Clone, Copy)]
pub struct Stepped {
    pub event: Event,
    pub session: Session,
}

// What a call answers: the event, the count of bytes consumed, and the next session.
#[derive(Clone, Copy)]
pub struct Fed {
    pub event: Event,
    pub consumed: usize,
    pub session: Session,
}

// A fresh session: outside frames, no message open.
pub fn start() -> Session
    ensures { result ≡ session_of begin }
{
    Session {
        frame: Frame::Outside,
        message: None,
    }
}

// The count of content bytes of the open frame, 0 if none is open.
pub fn frame_length(frame: Frame) -> usize
    ensures { result ≡ frame_length frame }
{
    match frame {
        Frame::Outside | Frame::Stray => 0,
        Frame::Inside { length }
        | Frame::Escaped { length }
        | Frame::BadByte { length }
        | Frame::TooLong { length } => length,
    }
}

// The length of the unfinished message, 0 if there is none.
pub fn message_length(message: Option<usize>) -> usize
    ensures { result ≡ message_length message }
{
    message.unwrap_or(0)
}

fn rebuilt_frame(frame: Frame) -> Frame
    ensures { result ≡ frame }
{
    match frame {
        Frame::Outside => Frame::Outside,
        Frame::Stray => Frame::Stray,
        Frame::Inside { length } => Frame::Inside { length },
        Frame::Escaped { length } => Frame::Escaped { length },
        Frame::BadByte { length } => Frame::BadByte { length },
        Frame::TooLong { length } => Frame::TooLong { length },
    }
}

// The same session, built from its cases and lengths. A loop that hands on a session as it came copies the unused bytes of its enums at each turn, and
// waits for them; one that hands on a rebuilt one copies none.
pub fn rebuilt(session: Session) -> Session
    ensures { result ≡ session }
{
    Session {
        frame: rebuilt_frame(session.frame),
        message: match session.message {
            None => None,
            Some(length) => Some(length),
        },
    }
}

// 1 SETUP is answered where this is false, for a store of n bytes.
pub fn is_legal(session: Session, n: usize) -> bool
    ensures { result ≡ legal session n }
{
    n == STORE_LENGTH
        && frame_length(session.frame) <= CONTENT_LIMIT
        && message_length(session.message) <= MESSAGE_LIMIT
}
