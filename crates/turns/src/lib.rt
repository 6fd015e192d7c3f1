// A whole turn: session, tree reader and desk. The claim over every list of turns is crates/turn_rules/proofs/Claim.antt.
#![tactic(auto)]

ghost use Rattle.std.specs.Prelude.{◌≡◌, ◌≤◌, length, take};
ghost use Rattle.framing_session.specs.Session.{feeds, answers};
ghost use Rattle.desk_crosspoints.specs.Desk.{desk_at};
ghost use Rattle.turns.specs.Whole.{gave, read_to, later_at};

use desk_crosspoints::Figures;
use framing::{Event, Fed, Session};
use glow_reader::Answer;

// What came after the session's call: nothing; the tree reader's answer, other than 0; its answer 0, the desk's number and how many connections it answered.
#[derive(Clone, Copy)]
pub enum After {
    Nothing,
    Refused {
        answer: Answer,
    },
    Served {
        root: u64,
        count: usize,
        number: u64,
        answered: usize,
    },
}

// What came after a finished message, and the answers in order, then zeros.
#[derive(Clone, Copy)]
pub struct Handled {
    pub after: After,
    pub answers: [u8; 256],
}

// What the session's call gave, what came after it, and the answers in order, then zeros.
#[derive(Clone, Copy)]
pub struct Turned {
    pub fed: Fed,
    pub after: After,
    pub answers: [u8; 256],
}

// How many of its first n bytes a store has: n, or its length where that is less.
pub fn front(store: &[u8], n: usize) -> usize
    ensures store_value { take result store.now ≡ take n store.now }
    ensures upper_bound { result ≤ length store.now }
{
    if n < store.len() {
        return n;
    }
    store.len()
}

// The tree reader's call on a message; if it gives 0, the desk's call on those entries, as read.
pub fn message(
    m: &[u8],
    table: &mut [[u64; 50]],
    figures: Figures,
    path: &[u64],
    crosspoints: &mut [u8],
) -> Handled
    ensures { read_to (desk_at figures path.now crosspoints.old) m.now table.old
        ≡ gave result.after result.answers table.new crosspoints.new }
{
    let both = desk_calls::read_and_call(m, table, figures, path, crosspoints);
    let answer = both.answer;
    let called = both.called;
    let answers = called.answers;
    let Answer::Read { root, count } = answer else {
        let after = After::Refused { answer };
        return Handled { after, answers };
    };
    let after = After::Served {
        root,
        count,
        number: called.number,
        answered: called.count,
    };
    Handled { after, answers }
}

// A turn: the session's call on a chunk; if it gives 3, the tree reader's call on that message; if that gives 0, the desk's call on those entries.
pub fn turn(
    session: Session,
    store: &mut [u8],
    chunk: &[u8],
    table: &mut [[u64; 50]],
    figures: Figures,
    path: &[u64],
    crosspoints: &mut [u8],
) -> Turned
    ensures chunk_value { feeds session store.old chunk.now ≡ answers result.fed store.new }
    ensures table_after { later_at (desk_at figures path.now crosspoints.old) result.fed.event store.new table.old
        ≡ gave result.after result.answers table.new crosspoints.new }
{
    let fed = framing::feed(session, store, chunk);
    let event = fed.event;
    let Event::Message { length, .. } = event else {
        return Turned {
            fed,
            after: After::Nothing,
            answers: [0u8; 256],
        };
    };
    let n = front(store, length);
    let handled = message(&store[..n], table, figures, path, crosspoints);
    let after = handled.after;
    let answers = handled.answers;
    Turned {
        fed,
        after,
        answers,
    }
}
