// The route sheet reader: from a sheet's text to a desk, or the first refusal.
#![tactic(auto)]

ghost use Rattle.std.specs.Prelude.{◌≡◌, true, ◌++◌, ◌≤◌, length, drop};
ghost use Rattle.glow_trees.specs.Rows.{items_in};
ghost use Rattle.glow_sizes.specs.Accepted.{accepted};
ghost use Rattle.desk_crosspoints.specs.Figures.{most_cells, size_of};
ghost use Rattle.sheet_rules.specs.Reading.{opens, of_entries, of_message};
ghost use Rattle.sheet_reader.specs.Calls.{sheet_read, outcome_of};
ghost use Rattle.sheet_reader.specs.Steps.{sheet_by, Tells};

use desk_crosspoints::{Figures, SIDE};
use glow_reader::Answer;
use glow_rows::places;
use sheet_stream::Found;

// As many cells as the largest desk has.
pub const MOST: usize = SIDE * SIDE;

// 1 SETUP; a refusal; or a desk: its figures, and how many numbers its path has.
#[derive(Clone, Copy)]
pub enum Sheet {
    Setup,
    Refused { number: u64 },
    Read { figures: Figures, length: usize },
}

// Opens the desk and applies the connections of the first rows: 0 and its crosspoints, or the first refusal.
fn apply(
    f: Figures,
    mode: u64,
    path: &[u64],
    rows: &[[u64; 50]],
    count: usize,
    root: u64,
    s: &[u8],
    cells: &mut [u8],
) -> u64
    requires cells_len { (length cells.old ≡ size_of f) × ((length rows.now ≤ 256) × ((length s.now ≤ 16384) × (count ≤ length rows.now))) }
    requires count_value { accepted root (items_in s.now rows.now count) ≡ true }
    ensures { opens f path.now mode (items_in s.now rows.now count)
        ≡ sheet_by result f path.now cells.new }
{
    let opened = desk_crosspoints::open(f, mode, path, cells);
    if opened != 0 {
        return opened;
    }
    let called = desk_calls::call(f, path, rows, count, root, s, cells);
    let n = called.count;
    let answers = called.answers;
    sheet_entries::first_refused(&answers[..n])
}

// The answer: a desk where the number is 0, with its path and crosspoints handed over; else a refusal.
fn hand_over(
    number: u64,
    f: Figures,
    numbers: &[u64],
    cells: &[u8],
    path: &mut [u64],
    crosspoints: &mut [u8],
) -> Sheet
    requires { (length numbers.now ≤ length path.old) × (length cells.now ≤ length crosspoints.old) }
    ensures { Tells (sheet_by number f numbers.now cells.now) path.old crosspoints.old
        result path.new crosspoints.new }
{
    if number != 0 {
        return Sheet::Refused { number };
    }
    path[..numbers.len()].copy_from_slice(numbers);
    crosspoints[..cells.len()].copy_from_slice(cells);
    Sheet::Read {
        figures: f,
        length: numbers.len(),
    }
}

// The desk that figures, mode and path open, with the connections of the first rows applied, handed over; or the first refusal. The cells are those that it is
// opened on.
fn of_desk(
    f: Figures,
    mode: u64,
    numbers: &[u64],
    rows: &[[u64; 50]],
    count: usize,
    root: u64,
    s: &[u8],
    cells: &mut [u8],
    path: &mut [u64],
    crosspoints: &mut [u8],
) -> Sheet
    requires cells_len { (length cells.old ≡ size_of f) × ((length rows.now ≤ 256) × ((length s.now ≤ 16384) × (count ≤ length rows.now))) }
    requires count_value { accepted root (items_in s.now rows.now count) ≡ true }
    requires numbers_in_bounds { (length numbers.now ≤ length path.old) × (size_of f ≤ length crosspoints.old) }
    ensures { Tells (opens f numbers.now mode (items_in s.now rows.now count))
        path.old crosspoints.old result path.new crosspoints.new }
{
    let number = apply(f, mode, numbers, rows, count, root, s, cells);
    hand_over(number, f, numbers, cells, path, crosspoints)
}

// The entries of a message that was read: 33, the desk's refusals, or a desk.
fn of_entries(
    rows: &[[u64; 50]],
    count: usize,
    root: u64,
    s: &[u8],
    path: &mut [u64],
    crosspoints: &mut [u8],
) -> Sheet
    requires path_len { (length path.old ≡ 16) × ((length crosspoints.old ≡ most_cells)
        × ((length rows.now ≤ 256) × ((length s.now ≤ 16384) × (count ≤ length rows.now)))) }
    requires count_value { accepted root (items_in s.now rows.now count) ≡ true }
    ensures { Tells (of_entries (items_in s.now rows.now count)) path.old crosspoints.old
        result path.new crosspoints.new }
{
    if !sheet_entries::is_sheet(&rows[..count]) {
        return Sheet::Refused { number: 33 };
    }
    let mut numbers = [0u64; 16];
    let n = sheet_entries::path_of(s, glow_rows::cell_at(rows, 0, places::KEY), &mut numbers);
    if 16 < n {
        return Sheet::Refused { number: 45 };
    }
    let f = sheet_entries::figures_of(&rows[0]);
    let mode = glow_rows::number_of(glow_rows::cell_at(rows, 0, places::MODE));
    let size = desk_crosspoints::size(f);
    let mut cells = [0u8; MOST];
    of_desk(
        f,
        mode,
        &numbers[..n],
        rows,
        count,
        root,
        s,
        &mut cells[..size],
        path,
        crosspoints,
    )
}

// A message, read into the largest table: the tree's refusals, and then its entries.
fn of_rows(m: &[u8], table: &mut [[u64; 50]], path: &mut [u64], crosspoints: &mut [u8]) -> Sheet
    requires m_len_bound { length m.now ≤ 16384 }
    requires table_len { (length table.old ≡ 256) × ((length path.old ≡ 16) × (length crosspoints.old ≡ most_cells)) }
    ensures { Tells (of_message m.now) path.old crosspoints.old result path.new crosspoints.new }
{
    match glow_reader::read(m, table) {
        Answer::Setup => Sheet::Setup,
        Answer::Refused { number, place: _ } => Sheet::Refused { number },
        Answer::Room { count: _ } => Sheet::Refused { number: 38 },
        Answer::Read { root, count } => of_entries(table, count, root, m, path, crosspoints),
    }
}

// A message, with a table of its own: no sheet overwrites a lent one.
fn of_message(m: &[u8], path: &mut [u64], crosspoints: &mut [u8]) -> Sheet
    requires m_len_bound { length m.now ≤ 16384 }
    requires path_len { (length path.old ≡ 16) × (length crosspoints.old ≡ most_cells) }
    ensures { Tells (of_message m.now) path.old crosspoints.old result path.new crosspoints.new }
{
    let mut rows = [[0u64; 50]; 256];
    of_rows(m, &mut rows, path, crosspoints)
}

// Reads a route sheet: a desk, with its path in the first `length` words of `path` and its crosspoints in the first of `crosspoints`, as many as the desk
// has (`desk_crosspoints::size`), the others as they were; or the first refusal, with both as they were. `Setup`, with everything as it was, for a store of
// other than 17,408 bytes, a path of other than 16 words or crosspoints of other than the most cells (`MOST`). After 12 for a bad line the store is as it was;
// after any other answer it is as a session leaves it that is fed the sheet's bytes, up to and including that of the first event from 10 up, or all of them.
pub fn read(text: &[u8], store: &mut [u8], path: &mut [u64], crosspoints: &mut [u8]) -> Sheet
    ensures { sheet_read text.now store.old path.old crosspoints.old
        ≡ outcome_of result store.new path.new crosspoints.new }
{
    if path.len() != 16 {
        return Sheet::Setup;
    }
    if crosspoints.len() != MOST {
        return Sheet::Setup;
    }
    match sheet_stream::find_message(text, store) {
        Found::Setup => Sheet::Setup,
        Found::Refused { number } => Sheet::Refused { number },
        Found::Message { length } => {
            let n = turns::front(store, length);
            of_message(&store[..n], path, crosspoints)
        }
    }
}
