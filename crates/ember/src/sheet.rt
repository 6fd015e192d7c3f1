// What the route sheet's writer and reader answered, as words.
ghost use Rattle.std.specs.Prelude.{◌≡◌, List, ℕ, length};
ghost use Rattle.desk_crosspoints.specs.Crosspoints.{Cells};
ghost use Rattle.sheet_writer.specs.Calls.{outcome_of as wrote_as};
ghost use Rattle.sheet_reader.specs.Calls.{outcome_of as read_as};
ghost use Rattle.ember.specs.Calls.{measured, sheet_put, given, sheet_call};

use sheet_reader::Sheet;
use sheet_writer::Answer;

// 0 and how many bytes the sheet has, 46, or 1.
pub(crate) fn wrote(a: Answer, answer: &mut [u64]) -> u64
    requires { length answer.old ≡ 1 }
    ensures { (out : List ℕ) → measured (wrote_as a out) answer.old ≡ sheet_put result out answer.new }
{
    match a {
        Answer::Setup => 1,
        Answer::Out => {
            answer[0] = 0;
            46
        }
        Answer::Done { length } => {
            answer[0] = base_casts::word(length);
            0
        }
    }
}

// 0, the figures' words and how many numbers the path has; or a refusal, or 1.
pub(crate) fn read(x: Sheet, figures: &mut [u64], answer: &mut [u64]) -> u64
    requires figures_len { length figures.old ≡ 7 }
    requires answer_len { length answer.old ≡ 1 }
    ensures { (store path : List ℕ) (cells : Cells) → given (read_as x store path cells) figures.old answer.old
        ≡ sheet_call result store figures.new path cells answer.new }
{
    match x {
        Sheet::Setup => 1,
        Sheet::Refused { number } => {
            answer[0] = 0;
            number
        }
        Sheet::Read { figures: f, length } => {
            desk_words::put_figures(figures, f);
            answer[0] = base_casts::word(length);
            0
        }
    }
}
