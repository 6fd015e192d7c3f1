// The C interface of the tree reader and the tree writer: numbers and lent slices (include/glow.h).
#![tactic(auto)]

ghost use Rattle.std.specs.Prelude.{◌≡◌, [], ◌∷◌, length};
ghost use Rattle.glow_reader.specs.Message.{reply_by};
ghost use Rattle.glow_c.specs.Calls.{call, words_of, calls, length_word, writing, write_calls, accept_calls};
ghost use Rattle.ber_integers.specs.Digits.{wrote};

use base_casts::word;
use glow_reader::Answer;

fn put(answer: &mut [u64], place: u64, count: u64, root: u64)
    requires { length answer.old ≡ 3 }
    ensures { answer.new ≡ place ∷ count ∷ root ∷ [] }
{
    answer[0] = place;
    answer[1] = count;
    answer[2] = root;
}

// The number of an answer, and its words.
fn tell(a: Answer, answer: &mut [u64]) -> u64
    requires { length answer.old ≡ 3 }
    ensures value { result ≡ (reply_by a).number }
    ensures answer_after { answer.new ≡ words_of a answer.old }
{
    match a {
        Answer::Setup => 1,
        Answer::Refused { number, place } => {
            put(answer, word(place), 0, 0);
            number
        }
        Answer::Room { count } => {
            put(answer, 0, word(count), 0);
            38
        }
        Answer::Read { root, count } => {
            put(answer, 0, word(count), root);
            0
        }
    }
}

// Reads a message into the table's rows. 0, or document 01's number; the answer's three words are the place, the count and Root's kind.
#[unsafe(no_mangle)]
pub extern "C" fn glow_read(message: &[u8], table: &mut [[u64; 50]], answer: &mut [u64]) -> u64
    ensures { calls message.now table.old answer.old ≡ call result table.new answer.new }
{
    if answer.len() != 3 {
        return 1;
    }
    tell(glow_reader::read(message, table), answer)
}

// The number of what was written, and its length.
fn told(w: Option<usize>, answer: &mut [u64]) -> u64
    requires { length answer.old ≡ 1 }
    ensures value { result ≡ wrote w }
    ensures answer_after { answer.new ≡ length_word w }
{
    match w {
        Some(n) => {
            answer[0] = word(n);
            0
        }
        None => {
            answer[0] = 0;
            46
        }
    }
}

// Writes the message of the first `count` rows, whose texts, octets, paths and sources are parts of `message`, into the output. 0, and its length in the
// answer's one word; or 46, and the output as it was.
#[unsafe(no_mangle)]
pub extern "C" fn glow_write(
    rows: &[[u64; 50]],
    count: usize,
    root: u64,
    message: &[u8],
    out: &mut [u8],
    answer: &mut [u64],
) -> u64
    ensures { write_calls rows.now count root message.now out.old answer.old
        ≡ writing result out.new answer.new }
{
    if answer.len() != 1 {
        return 1;
    }
    let w = glow_writer::write::write(rows, count, root, message, out);
    told(w, answer)
}

// Whether the first `count` rows make a tree that the reader accepts: 1 or 0.
#[unsafe(no_mangle)]
pub extern "C" fn glow_accepts(rows: &[[u64; 50]], count: usize, root: u64, message: &[u8]) -> u64
    ensures { accept_calls rows.now count root message.now ≡ result }
{
    if glow_sizes::is_tree(rows, count, root, message) {
        return 1;
    }
    0
}
