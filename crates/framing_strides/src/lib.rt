// What bytes do that make no event, taken many at a time: content, the rest of a frame that has a fault, a stray run.
#![tactic(auto)]

ghost use Rattle.std.specs.Prelude.{◌≡◌, ◌≢◌, ℕ, ◌≤◌, ◌<◌, List, slice_index};
ghost use lib.ListN.{length};
ghost use Rattle.framing_session.specs.Session.{Legal};
ghost use Rattle.framing_session.specs.Steps.{Reaches, Stays};
ghost use Rattle.framing_strides.specs.Strides.{arriving, Strode};

use framing_session::{BOF, CE, CONTENT_LIMIT, CONTENT_START, EOF, Frame, Session};

// How far a call has come in its chunk.
#[derive(Clone, Copy)]
pub struct Progress {
    pub session: Session,
    pub at: usize,
}

// In a frame that has no fault and no escape begun.
fn arrives(length: usize, message: Option<usize>, at: usize) -> Progress
    ensures { result ≡ arriving length message at }
{
    Progress {
        session: Session {
            frame: Frame::Inside { length },
            message,
        },
        at,
    }
}

// Takes the content bytes of a frame, escaped ones too, as far as they go.
fn fills(
    length: usize,
    message: Option<usize>,
    from: usize,
    store: &mut [u8],
    chunk: &[u8],
) -> Progress
    requires { Legal (arriving length message from).session store.old × (from ≤ lib.ListN.length chunk.now) }
    ensures { Reaches chunk.now from (arriving length message from).session store.old result.at result.session store.new }
{
    let mut n = length;
    let mut i = from;
    // Counted: `while let` over slice patterns took full packets from 2.07 of plain's speed to 1.59, under its floor.
    loop {
        // Up to here there is room, and no byte asks for it: no more are put than are taken.
        let most = chunk.len().min(i + (CONTENT_LIMIT - n));
        if most <= i {
            return arrives(n, message, i);
        }
        while i < most {
            let b = chunk[i];
            let to = CONTENT_START + n;
            if b < 0xf8 {
                store[to] = b;
                n += 1;
                i += 1;
            } else {
                if b != CE {
                    return arrives(n, message, i);
                }
                let next = i + 1;
                if chunk.len() <= next {
                    return arrives(n, message, i);
                }
                let e = chunk[next];
                if e < 0xd8 {
                    return arrives(n, message, i);
                }
                if 0xdf < e {
                    return arrives(n, message, i);
                }
                store[to] = e ^ 0x20;
                n += 1;
                i = next + 1;
            }
        }
    }
}

// How many bytes stand before the first that is BOF or one other.
fn run_of(other: u8, bytes: &[u8]) -> usize
    ensures inside { result ≤ length bytes.now }
    ensures apart { (k : ℕ) → k < result → (slice_index bytes.now k ≢ 254) × (slice_index bytes.now k ≢ other) }
{
    bytes
        .iter()
        .position(|b| *b == BOF || *b == other)
        .unwrap_or(bytes.len())
}

// Passes over bytes that change nothing: all but BOF and one other.
fn skips(session: Session, other: u8, from: usize, chunk: &[u8]) -> usize
    requires { Stays session other × (from ≤ length chunk.now) }
    ensures { (t : List ℕ) → Legal session t → Reaches chunk.now from session t result session t }
{
    from + run_of(other, &chunk[from..])
}

// Goes on as far as no event can be made, with a legal session and store.
fn advances(session: Session, from: usize, store: &mut [u8], chunk: &[u8]) -> Progress
    requires { Legal session store.old × (from ≤ length chunk.now) }
    ensures { Reaches chunk.now from session store.old result.at result.session store.new }
{
    let frame = session.frame;
    let message = session.message;
    match frame {
        Frame::Inside { length } => fills(length, message, from, store, chunk),
        Frame::Stray => Progress {
            session,
            at: skips(session, BOF, from, chunk),
        },
        Frame::BadByte { length: _ } => Progress {
            session,
            at: skips(session, EOF, from, chunk),
        },
        Frame::TooLong { length: _ } => Progress {
            session,
            at: skips(session, EOF, from, chunk),
        },
        Frame::Outside => Progress { session, at: from },
        Frame::Escaped { length: _ } => Progress { session, at: from },
    }
}

// Goes on from a place in the chunk as far as no event can be made: content, the rest of a frame that has a fault, a stray run.
pub fn strides(session: Session, from: usize, store: &mut [u8], chunk: &[u8]) -> Progress
    ensures { Strode chunk.now from session store.old result store.new }
{
    let n = store.len();
    if chunk.len() < from {
        return Progress { session, at: from };
    }
    if framing_session::is_legal(session, n) {
        return advances(session, from, store, chunk);
    }
    Progress { session, at: from }
}
