// S101 framing, alone: the session that reads a stream in chunks. Beside `feed`, all that a gateway needs of the crates below it.
#![tactic(auto)]

ghost use Rattle.std.specs.Prelude.{◌≡◌, true, length};
ghost use Rattle.framing_session.specs.Session.{legal, answers, state_of, run, feeds};

pub use framing_content::{Content, Fault};
pub use framing_session::{
    BOF, CE, CONTENT_LIMIT, CONTENT_START, EOF, Event, Fed, Frame, MESSAGE_LIMIT, STORE_LENGTH,
    Session, frame_length, is_legal, message_length, start,
};

// Takes bytes of the chunk up to an event, or all of them.
fn runs(session: Session, store: &mut [u8], chunk: &[u8]) -> Fed
    requires { legal session (length store.old) ≡ true }
    ensures { run chunk.now (state_of session store.old) store.old 0 ≡ answers result store.new }
{
    let mut s = session;
    let mut i = 0;
    // Counted: a turn takes a byte and then as many as a stride does.
    while i < chunk.len() {
        let t = framing_steps::step(s, chunk[i], store);
        i += 1;
        let event = t.event;
        let next = t.session;
        let Event::More = event else {
            return Fed {
                event,
                consumed: i,
                session: next,
            };
        };
        let p = framing_strides::strides(next, i, store, chunk);
        let reached = p.session;
        let onward = framing_session::rebuilt(reached);
        s = onward;
        i = p.at;
    }
    Fed {
        event: Event::More,
        consumed: i,
        session: s,
    }
}

// Offers a chunk to a session and its store.
pub fn feed(session: Session, store: &mut [u8], chunk: &[u8]) -> Fed
    ensures { feeds session store.old chunk.now ≡ answers result store.new }
{
    let n = store.len();
    if is_legal(session, n) {
        return runs(session, store, chunk);
    }
    Fed {
        event: Event::Setup,
        consumed: 0,
        session,
    }
}
