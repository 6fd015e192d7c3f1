// What one byte does to a session and its store.
#![tactic(auto)]

ghost use Rattle.std.specs.Prelude.{◌≡◌};
ghost use Rattle.framing_session.specs.Rules.{adds as rule_adds, in_place, step as rule_step, inside as inside_place, escaped as escaped_place};
ghost use Rattle.framing_session.specs.Session.{Legal, content_in, message_of, state_of, keeps};
ghost use Rattle.framing_session.specs.Steps.{gives, going, past_fault, unless_setup, inside_of};

use framing_content::Fault;
use framing_session::{BOF, CE, CONTENT_LIMIT, CONTENT_START, EOF, Event, Frame, Session, Stepped};

// No event.
fn goes(frame: Frame, message: Option<usize>) -> Stepped
    ensures { result ≡ going frame message }
{
    Stepped {
        event: Event::More,
        session: Session { frame, message },
    }
}

// A byte of content.
fn adds(length: usize, x: u8, message: Option<usize>, store: &mut [u8]) -> Stepped
    requires { Legal (inside_of length message) store.old }
    ensures { keeps (rule_adds (content_in length store.old) x (message_of message store.old)) store.old
        ≡ gives result store.new }
{
    if length < CONTENT_LIMIT {
        let at = CONTENT_START + length;
        store[at] = x;
        let next = length + 1;
        return goes(Frame::Inside { length: next }, message);
    }
    goes(Frame::TooLong { length }, message)
}

// In a frame, no escape begun, no fault.
fn inside(length: usize, b: u8, message: Option<usize>, store: &mut [u8]) -> Stepped
    requires { Legal (inside_of length message) store.old }
    ensures { keeps (in_place (inside_place (content_in length store.old)) (message_of message store.old) b) store.old
        ≡ gives result store.new }
{
    if b < 0xf8 {
        return adds(length, b, message, store);
    }
    if b == CE {
        return goes(Frame::Escaped { length }, message);
    }
    if b == EOF {
        return framing_pieces::end_frame(length, message, store);
    }
    if b == BOF {
        if length == 0 {
            return goes(Frame::Inside { length: 0 }, message);
        }
        return framing_pieces::refuses(Fault::Cut, Frame::Inside { length: 0 }, message);
    }
    goes(Frame::BadByte { length }, message)
}

// In a frame, after CE.
fn escaped(length: usize, b: u8, message: Option<usize>, store: &mut [u8]) -> Stepped
    requires { Legal (inside_of length message) store.old }
    ensures { keeps (in_place (escaped_place (content_in length store.old)) (message_of message store.old) b) store.old
        ≡ gives result store.new }
{
    if b < 0xd8 {
        return goes(Frame::BadByte { length }, message);
    }
    if b <= 0xdf {
        return adds(length, b ^ 0x20, message, store);
    }
    if b == BOF {
        return framing_pieces::refuses(Fault::Cut, Frame::Inside { length: 0 }, message);
    }
    if b == EOF {
        return framing_pieces::refuses(Fault::Escape, Frame::Outside, message);
    }
    goes(Frame::BadByte { length }, message)
}

// Past the first fault of a frame.
fn faulted(fault: Fault, frame: Frame, b: u8, message: Option<usize>) -> Stepped
    ensures { result ≡ past_fault fault frame b message }
{
    if b == BOF {
        return framing_pieces::refuses(fault, Frame::Inside { length: 0 }, message);
    }
    if b == EOF {
        return framing_pieces::refuses(fault, Frame::Outside, message);
    }
    goes(frame, message)
}

// A byte, with a legal session and store.
fn takes(session: Session, b: u8, store: &mut [u8]) -> Stepped
    requires { Legal session store.old }
    ensures { keeps (rule_step (state_of session store.old) b) store.old ≡ gives result store.new }
{
    let frame = session.frame;
    let message = session.message;
    match frame {
        Frame::Outside => {
            if b == BOF {
                return goes(Frame::Inside { length: 0 }, message);
            }
            framing_pieces::refuses(Fault::Stray, Frame::Stray, message)
        }
        Frame::Stray => {
            if b == BOF {
                return goes(Frame::Inside { length: 0 }, message);
            }
            goes(frame, message)
        }
        Frame::Inside { length } => inside(length, b, message, store),
        Frame::Escaped { length } => escaped(length, b, message, store),
        Frame::BadByte { length: _ } => faulted(Fault::Byte, frame, b, message),
        Frame::TooLong { length: _ } => faulted(Fault::Long, frame, b, message),
    }
}

// A byte, with any session and store.
pub fn step(session: Session, b: u8, store: &mut [u8]) -> Stepped
    ensures { unless_setup session store.old (keeps (rule_step (state_of session store.old) b) store.old)
        ≡ gives result store.new }
{
    let n = store.len();
    if framing_session::is_legal(session, n) {
        return takes(session, b, store);
    }
    Stepped {
        event: Event::Setup,
        session,
    }
}
