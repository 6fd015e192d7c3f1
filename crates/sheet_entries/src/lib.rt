// What the entries of a route sheet say: whether they are one matrix and connections alone, the figures, the path's numbers, and the first refusal among a
// desk's answers.
#![tactic(auto)]

ghost use Rattle.std.specs.Prelude.{◌≡◌, List, ℕ, ◌<◌, length};
ghost use Rattle.glow_rows.specs.Cell.{number_in};
ghost use Rattle.glow_trees.specs.Content.{content_of, item_of};
ghost use Rattle.glow_trees.specs.Rows.{entry_of, items_in};
ghost use Rattle.glow_entries.specs.Member.{number_cell};
ghost use Rattle.glow_paths.specs.Paths.{octets_of, numbers_in};
ghost use Rattle.sheet_rules.specs.Reading.{first_refused, figures_in};
ghost use Rattle.sheet_entries.specs.Entries.{limit_from, is_sheet, Taken};

use desk_crosspoints::Figures;
use glow_rows::{Cell, KIND, kinds};

// The limit that a number gives.
fn limit_of(n: Option<i64>) -> Option<u64>
    ensures n_value { limit_from n ≡ result }
    ensures n_bound { number_in (number_cell n) < 18446744073709551616 }
{
    let w = glow_entries::number_word(n);
    match n {
        None => None,
        Some(_) => Some(w),
    }
}

// The figures of the matrix in a row: type, targets, sources, and limits where given.
pub fn figures_of(row: &[u64; 50]) -> Figures
    ensures { (s : List ℕ) → figures_in (item_of s (entry_of row.now)) ≡ result }
{
    let e = glow_entries::matrix_at(row);
    let matrix_type = e.matrix_type;
    let targets = e.targets;
    let sources = e.sources;
    let total_limit = e.total_limit;
    let target_limit = e.target_limit;
    let total = limit_of(total_limit);
    let each = limit_of(target_limit);
    Figures {
        kind: glow_entries::number_word(matrix_type),
        targets: glow_entries::number_word(targets),
        sources: glow_entries::number_word(sources),
        total,
        each,
    }
}

// Whether the rows are one qualified matrix and connections alone.
pub fn is_sheet(rows: &[[u64; 50]]) -> bool
    ensures { (s : List ℕ) → is_sheet (items_in s rows.now (length rows.now)) ≡ result }
{
    if rows.len() == 0 {
        return false;
    }
    if rows[0][KIND] != kinds::QUALIFIED_MATRIX {
        return false;
    }
    rows.iter()
        .skip(1)
        .all(|row| row[KIND] == kinds::CONNECTION)
}

// The numbers of an identifier, at the start of `list`: how many; 17 where there are more than 16.
fn numbers_of(octets: &[u8], list: &mut [u64]) -> usize
    requires { length list.old ≡ 16 }
    ensures { Taken (numbers_in octets.now) result list.new }
{
    let end = glow_paths::list_end(octets);
    let mut p: usize = 0;
    let mut k: usize = 0;
    // No place in the octets is counted: each number says where the next one begins.
    while p < end {
        let x = glow_paths::next_number(octets, p, end);
        if 16 <= k {
            return 17;
        }
        list[k] = x.number;
        k += 1;
        p = x.next;
    }
    k
}

// The numbers of a member, none where it has none.
pub fn path_of(s: &[u8], v: Cell, list: &mut [u64; 16]) -> usize
    ensures taken { Taken (numbers_in (octets_of (content_of s.now v))) result list.new }
    ensures list_len { length list.new ≡ 16 }
{
    let span = glow_rows::span_of(s, v);
    let start = span.start;
    let end = span.end;
    numbers_of(&s[start..end], list)
}

// The first answer that is a refusal, 0 where there is none.
pub fn first_refused(answers: &[u8]) -> u64
    ensures { first_refused answers.now ≡ result }
{
    for j in 0..answers.len() {
        if answers[j] != 0 {
            return u64::from(answers[j]);
        }
    }
    0
}
