// What came after the session's call, as six words.
ghost use Rattle.std.specs.Prelude.{◌≡◌};
ghost use Rattle.glow_reader.specs.Message.{reply_by};
ghost use Rattle.ember_answers.specs.Answers.{tree_words, words_in, Words};

use glow_reader::Answer;
use turns::After;

#[derive(Clone, Copy)]
pub struct Six {
    pub tree: u64,
    pub place: u64,
    pub count: u64,
    pub root: u64,
    pub desk: u64,
    pub answers: u64,
}

fn make(tree: u64, place: u64, count: u64, root: u64, desk: u64, answers: u64) -> Six
    ensures { result ≡ record { tree = tree; place = place; count = count; root = root; desk = desk; answers = answers } }
{
    Six {
        tree,
        place,
        count,
        root,
        desk,
        answers,
    }
}

// The tree reader's answer.
fn refused(a: Answer) -> Six
    ensures { tree_words (reply_by a) ≡ words_in result }
{
    match a {
        Answer::Setup => make(1, 0, 0, 0, 0, 0),
        Answer::Refused { number, place } => make(number, base_casts::word(place), 0, 0, 0, 0),
        Answer::Room { count } => make(38, 0, base_casts::word(count), 0, 0, 0),
        Answer::Read { root, count } => make(0, 0, base_casts::word(count), root, 0, 0),
    }
}

pub(crate) fn later(x: After) -> Six
    ensures { Words x result }
{
    match x {
        After::Nothing => make(0, 0, 0, 0, 0, 0),
        After::Refused { answer } => refused(answer),
        After::Served {
            root,
            count,
            number,
            answered,
        } => make(
            0,
            0,
            base_casts::word(count),
            root,
            number,
            base_casts::word(answered),
        ),
    }
}
