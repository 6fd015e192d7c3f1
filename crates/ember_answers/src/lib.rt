// What the C library's calls on desk and turns answer in numbers: which lengths are no SETUP, what comes after the session's call, the words of a turn's
// answer, what the desk's call told.
#![tactic(auto)]

mod after;

ghost use Rattle.std.specs.Prelude.{◌≡◌, List, ℕ, take};
ghost use Rattle.glow_rows.specs.Entry.{Rows};
ghost use Rattle.desk_crosspoints.specs.Crosspoints.{Cells};
ghost use Rattle.desk_crosspoints.specs.Desk.{desk_at};
ghost use Rattle.desk_calls.specs.Calls.{outcome_of};
ghost use Rattle.turns.specs.Whole.{later_of, gave};
ghost use Rattle.ember_answers.specs.Answers.{desk_call, counted_put, lengths_fit, next, answer_put};

use desk_calls::Called;
use desk_crosspoints::Figures;
use turns::{After, Handled};

// What the desk's call answered: 0, the answers and how many there are; or 1. An answer of other than one word is 1, and everything stays as it was.
pub fn put_answers(called: Called, answers: &mut [u8; 256], answer: &mut [u64]) -> u64
    ensures { (cells : Cells) → counted_put (outcome_of called cells) answers.old answer.old
        ≡ desk_call result answers.new cells answer.new }
{
    if answer.len() != 1 {
        return 1;
    }
    if called.number != 0 {
        return called.number;
    }
    let given = called.answers;
    *answers = given;
    answer[0] = base_casts::word(called.count);
    0
}

// Whether the lengths of a turn are no SETUP: the table's rows, the desk's size and its crosspoints, the path's numbers, the answer's words.
pub fn lengths_fit(rows: usize, size: usize, cells: usize, path: usize, words: usize) -> bool
    ensures { result ≡ lengths_fit rows size cells path words }
{
    if words != 9 {
        return false;
    }
    if 256 < rows {
        return false;
    }
    if cells != size {
        return false;
    }
    if path < 1 {
        return false;
    }
    path <= 16
}

// What comes after the session's call, with a message of n bytes, which is the store's first: nothing, unless it gave 3.
pub fn follow(
    number: u64,
    store: &[u8],
    n: u64,
    table: &mut [[u64; 50]],
    f: Figures,
    path: &[u64],
    crosspoints: &mut [u8],
) -> Handled
    ensures { next number (take n store.now) (desk_at f path.now crosspoints.old) table.old
        ≡ gave result.after result.answers table.new crosspoints.new }
{
    if number != 3 {
        let answers = [0u8; 256];
        return Handled {
            after: After::Nothing,
            answers,
        };
    }
    let k = turns::front(store, base_casts::index(n));
    turns::message(&store[..k], table, f, path, crosspoints)
}

// The answer of a turn: what the session's call told, and what came after it. Any slice but one of nine words stays as it was.
pub fn put_answer(answer: &mut [u64], discarded: u64, consumed: u64, length: u64, came: After)
    ensures { (answers : List ℕ) (table : Rows) (cells : Cells)
        → answer.new ≡ answer_put answer.old discarded consumed length (later_of came answers table cells) }
{
    if answer.len() != 9 {
        return;
    }
    let x = after::later(came);
    answer[0] = discarded;
    answer[1] = consumed;
    answer[2] = length;
    answer[3] = x.tree;
    answer[4] = x.place;
    answer[5] = x.count;
    answer[6] = x.root;
    answer[7] = x.desk;
    answer[8] = x.answers;
}
