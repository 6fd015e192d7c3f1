// The desk's calls: one request on plain numbers, and a message's connections.
#![tactic(auto)]

ghost use Rattle.std.specs.Prelude.{◌≡◌, List, [], true, ℕ, ◌+◌, ◌*◌, ◌≤◌, ◌<◌, length, get_or};
ghost use Rattle.std.specs.Result.{result_unwrap_or};
ghost use Rattle.desk_crosspoints.specs.Figures.{cells_of};
ghost use Rattle.desk_crosspoints.specs.Crosspoints.{clear, count, taken_from, with_row, legal};
ghost use Rattle.desk_crosspoints.specs.Desk.{desk_at, answer};
ghost use Rattle.desk_requests.specs.Request.{request, named, others, requested};
ghost use Rattle.desk_requests.specs.Steps.{total_of, number_told};
ghost use Rattle.glow_reader.specs.Message.{read_result, read_at};
ghost use Rattle.desk_calls.specs.Calls.{outcome, called, outcome_of, called_after};
ghost use Rattle.desk_calls.specs.Steps.{asked_of, answered_at, served_in, Takes};

use base_casts::index;
use desk_connections::asked_at;
use desk_crosspoints::{Figures, ONE_TO_ONE, SIDE};
use desk_requests::Refusal;
use desk_sources::sources_of;
use glow_paths::is_path;
use glow_reader::Answer;
use glow_rows::{KIND, PARENT, kinds, word_at};

// What the call answers: 0, or 1 SETUP; how many connections were answered; and their answers in order, then zeros.
#[derive(Clone, Copy)]
pub struct Called {
    pub number: u64,
    pub count: usize,
    pub answers: [u8; 256],
}

// What the tree reader answers and, where that is 0, what the desk's call answers; else zeros.
#[derive(Clone, Copy)]
pub struct ReadCalled {
    pub answer: Answer,
    pub called: Called,
}

// The place for the next answer, and the total.
#[derive(Clone, Copy)]
struct Taken {
    next: usize,
    total: u64,
}

// The first source named, 0 if there is none.
fn first(sources: &[u64]) -> u64
    ensures { get_or sources.now 0 0 ≡ result }
{
    sources.first().copied().unwrap_or(0)
}

// A source taken from every one of n targets, rows of w cells.
fn take_from(cells: &mut [u8], n: u64, w: u64, s: u64)
    requires { (length cells.old ≡ n * w) × (s + 1 ≤ w) }
    ensures { cells.new ≡ taken_from w cells.old s n }
{
    for t in 0..n {
        let i = index(t * w + s);
        cells[i] = 0;
    }
}

// In 1:1, absolute or connect with one source takes it from every target; `ones` counts the sources named.
fn free(f: Figures, sources: &[u64], operation: u64, ones: u64, cells: &mut [u8])
    requires cells_len { length cells.old ≡ cells_of f }
    requires sources_bound { get_or sources.now 0 0 + 1 ≤ f.sources }
    requires sources_value { count (named f.sources sources.now) ≡ ones }
    ensures { cells.new ≡ others f sources.now operation cells.old }
{
    if f.kind != ONE_TO_ONE {
        return;
    }
    if desk_requests::DISCONNECT <= operation {
        return;
    }
    if ones != 1 {
        return;
    }
    take_from(cells, f.targets, f.sources, first(sources));
}

// Other cells for a target.
fn put_row(cells: &mut [u8], target: u64, row: &[u8])
    requires { target * length row.now + length row.now ≤ length cells.old }
    ensures { cells.new ≡ with_row (length row.now) cells.old target row.now }
{
    let t = index(target);
    let from = t * row.len();
    let to = from + row.len();
    cells[from..to].copy_from_slice(row);
}

// A request on a legal desk whose total is known; `row` is scratch, a cell for each source.
fn ask(
    f: Figures,
    target: u64,
    sources: &[u64],
    operation: u64,
    crosspoints: &mut [u8],
    row: &mut [u8],
    total: u64,
) -> Result<u64, Refusal>
    requires crosspoints_value { legal f crosspoints.old ≡ true }
    requires row_len { length row.old ≡ f.sources }
    requires crosspoints_value_2 { total_of f crosspoints.old ≡ total }
    ensures operation_value { requested (desk_at f [] crosspoints.old) (request target sources.now operation)
        ≡ answer (number_told result) crosspoints.new }
    ensures crosspoints_after { total_of f crosspoints.new ≡ result_unwrap_or result total }
{
    match desk_requests::judge(f, target, sources, operation, crosspoints, row, total) {
        Ok(told) => {
            free(f, sources, operation, told.ones, crosspoints);
            put_row(crosspoints, target, row);
            Ok(told.total)
        }
        Err(refusal) => Err(refusal),
    }
}

// One request on a legal desk: the total after it. One that is refused, also for an operation that is none, leaves the crosspoints as they were.
fn request_legal(
    f: Figures,
    target: u64,
    sources: &[u64],
    operation: u64,
    crosspoints: &mut [u8],
    total: u64,
) -> Result<u64, Refusal>
    requires crosspoints_value { legal f crosspoints.old ≡ true }
    requires crosspoints_value_2 { total_of f crosspoints.old ≡ total }
    ensures operation_value { requested (desk_at f [] crosspoints.old) (request target sources.now operation)
        ≡ answer (number_told result) crosspoints.new }
    ensures crosspoints_after { total_of f crosspoints.new ≡ result_unwrap_or result total }
{
    let mut row = [0u8; SIDE];
    let w = index(f.sources);
    ask(
        f,
        target,
        sources,
        operation,
        crosspoints,
        &mut row[..w],
        total,
    )
}

// One request, whatever the desk's path: 0 and the crosspoints as asked for; 41 to 44, or 1 where the desk is not legal or the operation none, and they stay as
// they were.
pub fn request(
    f: Figures,
    target: u64,
    sources: &[u64],
    operation: u64,
    crosspoints: &mut [u8],
) -> u64
    ensures { ((path : List ℕ) → requested (desk_at f path crosspoints.old) (request target sources.now operation)
        ≡ answer result crosspoints.new) }
{
    if !desk_crosspoints::is_legal(f, crosspoints) {
        return 1;
    }
    let total = desk_requests::total_of(f, crosspoints);
    let answered = request_legal(f, target, sources, operation, crosspoints, total);
    u64::from(number_of(answered))
}

// A request with the sources that octets name. The desk was judged before the first of them, and each leaves it legal.
fn ask_member(
    f: Figures,
    target: u64,
    octets: &[u8],
    operation: u64,
    cells: &mut [u8],
    total: u64,
) -> Result<u64, Refusal>
    requires cells_value { legal f cells.old ≡ true }
    requires cells_value_2 { total_of f cells.old ≡ total }
    ensures operation_value { asked_of (desk_at f [] cells.old) target octets.now operation ≡ answer (number_told result) cells.new }
    ensures cells_after { total_of f cells.new ≡ result_unwrap_or result total }
{
    let mut list = [0u64; SIDE];
    let n = sources_of(octets, f.sources, &mut list);
    request_legal(f, target, &list[..n], operation, cells, total)
}

// The answer to the connection at place i.
fn answer_to(
    f: Figures,
    path: &[u64],
    rows: &[[u64; 50]],
    count: usize,
    i: usize,
    s: &[u8],
    cells: &mut [u8],
    total: u64,
) -> Result<u64, Refusal>
    requires cells_value { (legal f cells.old ≡ true) × ((length path.now ≤ 16) × ((count ≤ length rows.now) × (i < count))) }
    requires cells_value_2 { total_of f cells.old ≡ total }
    ensures i_value { answered_at (desk_at f path.now cells.old) rows.now count s.now i
        ≡ answer (number_told result) cells.new }
    ensures cells_after { total_of f cells.new ≡ result_unwrap_or result total }
{
    if !is_path(path, rows, count, s, word_at(rows, i, PARENT)) {
        return Err(Refusal::Matrix);
    }
    let asked = asked_at(rows, i, s);
    let start = asked.start;
    let end = asked.end;
    ask_member(
        f,
        asked.target,
        &s[start..end],
        asked.operation,
        cells,
        total,
    )
}

// The number of an answer, 0 where nothing is refused.
fn number_of(answered: Result<u64, Refusal>) -> u8
    ensures { number_told answered ≡ result }
{
    match answered {
        Ok(_) => 0,
        Err(refusal) => refusal.number(),
    }
}

// The entry at place i: a connection is answered at place n of the answers.
fn take_entry(
    f: Figures,
    path: &[u64],
    rows: &[[u64; 50]],
    count: usize,
    i: usize,
    s: &[u8],
    cells: &mut [u8],
    answers: &mut [u8],
    n: usize,
    total: u64,
) -> Taken
    requires cells_value { (legal f cells.old ≡ true) × ((length path.now ≤ 16) × ((count ≤ length rows.now) × (i < count))) }
    requires n_in_bounds { n < length answers.old }
    requires cells_value_2 { total_of f cells.old ≡ total }
    ensures fact { Takes (desk_at f path.now cells.old) rows.now count s.now i n answers.old
        result.next answers.new cells.new }
    ensures fact_2 { (result.next ≤ n + 1) × ((legal f cells.new ≡ true) × (total_of f cells.new ≡ result.total)) }
{
    if word_at(rows, i, KIND) != kinds::CONNECTION {
        return Taken { next: n, total };
    }
    let answered = answer_to(f, path, rows, count, i, s, cells, total);
    answers[n] = number_of(answered);
    let next = n + 1;
    Taken {
        next,
        total: answered.unwrap_or(total),
    }
}

// Every connection answered, in order: how many. The desk's total is counted once, and each answer tells the next.
fn serve(
    f: Figures,
    path: &[u64],
    rows: &[[u64; 50]],
    count: usize,
    s: &[u8],
    cells: &mut [u8],
    answers: &mut [u8],
) -> usize
    requires { (legal f cells.old ≡ true) × ((length path.now ≤ 16) × ((count ≤ length rows.now) × (count ≤ length answers.old))) }
    ensures { served_in (desk_at f path.now cells.old) rows.now count s.now answers.old
        ≡ outcome 0 result answers.new cells.new }
{
    let mut n: usize = 0;
    let mut total = desk_requests::total_of(f, cells);
    for i in 0..count {
        let taken = take_entry(f, path, rows, count, i, s, cells, answers, n, total);
        n = taken.next;
        total = taken.total;
    }
    n
}

// 1 SETUP: no connection was answered.
fn unready() -> Called
    ensures { result ≡ record { number = 1; count = 0; answers = clear 256 } }
{
    Called {
        number: 1,
        count: 0,
        answers: [0u8; 256],
    }
}

// The desk's call on the first `count` rows, with the message beside them: an answer for each connection, in order, and how many; 1 and everything as it was
// where the table has over 256 rows, the message over 16,384 bytes, the desk is not legal, or the entries make no tree that the reader accepts.
pub fn call(
    f: Figures,
    path: &[u64],
    rows: &[[u64; 50]],
    count: usize,
    root: u64,
    s: &[u8],
    crosspoints: &mut [u8],
) -> Called
    ensures { called (desk_at f path.now crosspoints.old) root rows.now count s.now
        ≡ outcome_of result crosspoints.new }
{
    if !desk_setup::is_ready(f, path, rows, count, root, s, crosspoints) {
        return unready();
    }
    let mut answers = [0u8; 256];
    let answered = serve(f, path, rows, count, s, crosspoints, &mut answers);
    Called {
        number: 0,
        count: answered,
        answers,
    }
}

// The desk is not called.
fn uncalled() -> Called
    ensures { result ≡ record { number = 0; count = 0; answers = clear 256 } }
{
    Called {
        number: 0,
        count: 0,
        answers: [0u8; 256],
    }
}

// The tree reader's call on a message and, if it gives 0, the desk's call on those entries. Entries as read make a tree that the reader accepts, so they are not
// judged again; the desk is.
pub fn read_and_call(
    m: &[u8],
    table: &mut [[u64; 50]],
    f: Figures,
    path: &[u64],
    crosspoints: &mut [u8],
) -> ReadCalled
    ensures table_value { read_at m.now table.old ≡ read_result result.answer table.new }
    ensures table_after { called_after (desk_at f path.now crosspoints.old) m.now result.answer table.new
        ≡ outcome_of result.called crosspoints.new }
{
    let answer = glow_reader::read(m, table);
    let Answer::Read { root: _, count } = answer else {
        let called = uncalled();
        return ReadCalled { answer, called };
    };
    let fit = desk_crosspoints::desk_is_legal(f, path, crosspoints);
    if !fit {
        let called = unready();
        return ReadCalled { answer, called };
    }
    let mut answers = [0u8; 256];
    let answered = serve(f, path, table, count, m, crosspoints, &mut answers);
    let called = Called {
        number: 0,
        count: answered,
        answers,
    };
    ReadCalled { answer, called }
}
