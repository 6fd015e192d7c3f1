// The end of a frame: what its content is, and what a piece does to the message.
#![tactic(auto)]

ghost use Rattle.std.specs.Prelude.{◌≡◌, ◌+◌, ◌≤◌};
ghost use lib.ListN.{length, take, drop};
ghost use Rattle.std.proofs.lemmas.List.Edits.{sets};
ghost use Rattle.framing_content.specs.Numbers.{content_start};
ghost use Rattle.framing_session.specs.Rules.{pieces as rule_pieces, ends as rule_ends};
ghost use Rattle.framing_session.specs.Session.{Legal, content_in, message_of, keeps};
ghost use Rattle.framing_session.specs.Steps.{gives, staying, refusing, joining, inside_of, unless_setup};

use framing_content::{Content, Fault};
use framing_session::{CONTENT_START, Event, Frame, MESSAGE_LIMIT, Session, Stepped};

// The payload of a piece: past the nine bytes of its header.
const PAYLOAD_START: usize = 16393;

// A refusal throws the unfinished message away.
pub fn refuses(fault: Fault, frame: Frame, message: Option<usize>) -> Stepped
    ensures { result ≡ refusing fault frame message }
{
    let discarded = message.is_some();
    Stepped {
        event: Event::Refused { fault, discarded },
        session: Session {
            frame,
            message: None,
        },
    }
}

// A keep-alive disturbs nothing.
fn keep_alive(event: Event, message: Option<usize>) -> Stepped
    ensures { result ≡ staying event message }
{
    Stepped {
        event,
        session: Session {
            frame: Frame::Outside,
            message,
        },
    }
}

// The n payload bytes of the frame content, copied to the message area.
fn copies(store: &mut [u8], at: usize, n: usize)
    requires { (at + n ≤ content_start) × (content_start + 9 + n ≤ length store.old) }
    ensures { store.new ≡ sets store.old at (take n (drop (content_start + 9) store.old)) }
{
    store.copy_within(PAYLOAD_START..PAYLOAD_START + n, at);
}

// The answer to a piece: the message is finished at this length, or goes on.
fn joins(last: bool, discarded: bool, length: usize) -> Stepped
    ensures { result ≡ joining last discarded length }
{
    if last {
        return Stepped {
            event: Event::Message { length, discarded },
            session: Session {
                frame: Frame::Outside,
                message: None,
            },
        };
    }
    Stepped {
        event: Event::Piece { discarded },
        session: Session {
            frame: Frame::Outside,
            message: Some(length),
        },
    }
}

// A piece whose payload is the n bytes after the header.
fn pieces(first: bool, last: bool, n: usize, message: Option<usize>, store: &mut [u8]) -> Stepped
    requires { Legal (inside_of (n + 11) message) store.old }
    ensures { keeps
        (rule_pieces first last (take n (drop (content_start + 9) store.old)) (message_of message store.old)) store.old
        ≡ gives result store.new }
{
    if first {
        let discarded = message.is_some();
        copies(store, 0, n);
        return joins(last, discarded, n);
    }
    match message {
        None => refuses(Fault::Orphan, Frame::Outside, message),
        Some(length) => {
            let all = length + n;
            if MESSAGE_LIMIT < all {
                return refuses(Fault::Big, Frame::Outside, message);
            }
            copies(store, length, n);
            joins(last, false, all)
        }
    }
}

// EOF in a frame that has no fault.
fn ends(length: usize, message: Option<usize>, store: &mut [u8]) -> Stepped
    requires { Legal (inside_of length message) store.old }
    ensures { keeps (rule_ends (content_in length store.old) (message_of message store.old)) store.old
        ≡ gives result store.new }
{
    let end = CONTENT_START + length;
    let content = framing_content::content_of(&store[CONTENT_START..end]);
    match content {
        Err(fault) => refuses(fault, Frame::Outside, message),
        Ok(Content::Request) => keep_alive(Event::Request, message),
        Ok(Content::Response) => keep_alive(Event::Response, message),
        Ok(Content::Piece { first, last }) => {
            let n = length - 11;
            pieces(first, last, n, message, store)
        }
    }
}

// EOF in a frame that has no fault, and of which the store holds this many content bytes.
pub fn end_frame(length: usize, message: Option<usize>, store: &mut [u8]) -> Stepped
    ensures { unless_setup (inside_of length message) store.old
        (keeps (rule_ends (content_in length store.old) (message_of message store.old)) store.old)
        ≡ gives result store.new }
{
    let session = Session {
        frame: Frame::Inside { length },
        message,
    };
    let n = store.len();
    if framing_session::is_legal(session, n) {
        return ends(length, message, store);
    }
    Stepped {
        event: Event::Setup,
        session,
    }
}
