// The checks of a request in their order, for a desk that is known to be legal. Nothing here changes a crosspoint: the request itself, which judges the desk
// first, is in desk_calls.
#![tactic(auto)]

ghost use Rattle.std.specs.Prelude.{◌≡◌, [], true, ◌+◌, ◌-◌, ◌*◌, ◌≤◌, ltb, eqb, length, set, IfOk};
ghost use Rattle.base_choices.specs.Choices.{pick, both};
ghost use Rattle.desk_crosspoints.specs.Figures.{n_to_n, side, most_cells, cells_of, most_each, most_total};
ghost use Rattle.desk_crosspoints.specs.Crosspoints.{count, row_at};
ghost use Rattle.desk_crosspoints.specs.Desk.{desk_at};
ghost use Rattle.desk_requests.specs.Request.{request, disconnect, marked, named, becomes, all_below};
ghost use Rattle.desk_requests.specs.Steps.{fits, heeded, total_of, judged_with, told_with, number_of, number_told, Becomes};

use base_casts::index;
use desk_crosspoints::{Figures, N_TO_N};

// The operations of a request (001); absolute is 0.
pub const CONNECT: u64 = 1;

pub const DISCONNECT: u64 = 2;

// The first check that fails: lengths, a desk or an operation that is none; a connection of another matrix; a target or a source out of range; the target's
// limit; the total limit.
#[derive(Clone, Copy, PartialEq, Eq, Debug)]
pub enum Refusal {
    Setup,
    Matrix,
    Target,
    Source,
    Many,
    Total,
}

impl Refusal {
    // Its number among those answered.
    pub fn number(self) -> u8
        ensures { number_of self ≡ result }
    {
        match self {
            Refusal::Setup => 1,
            Refusal::Matrix => 40,
            Refusal::Target => 41,
            Refusal::Source => 42,
            Refusal::Many => 43,
            Refusal::Total => 44,
        }
    }
}

// A request that is not refused: how many sources are named, and the total after it.
#[derive(Clone, Copy)]
pub struct Judged {
    pub ones: u64,
    pub total: u64,
}

// Whether every source named is one of the desk's.
fn all_below(n: u64, sources: &[u64]) -> bool
    ensures { all_below n sources.now ≡ result }
{
    sources.iter().all(|s| *s < n)
}

// The cells of the sources named set to v; a source past the cells' end does nothing.
fn mark(cells: &mut [u8], sources: &[u64], v: u8)
    ensures { cells.new ≡ marked v cells.old sources.now }
{
    for s in sources {
        put(cells, *s, v);
    }
}

fn put(cells: &mut [u8], at: u64, v: u8)
    ensures { cells.new ≡ set cells.old at v }
{
    let i = at as usize;
    if i < cells.len() {
        cells[i] = v;
    }
}

// Whether connect replaces: 1:N or 1:1, and one source named.
fn replaces(f: Figures, named: u64) -> bool
    ensures { both (ltb f.kind n_to_n) (eqb named 1) ≡ result }
{
    if N_TO_N <= f.kind {
        return false;
    }
    named == 1
}

// The list as a target's cells.
fn list_row(row: &mut [u8], sources: &[u64])
    ensures { row.new ≡ named (length row.old) sources.now }
{
    desk_crosspoints::wipe(row);
    mark(row, sources, 1);
}

// A target's cells after a request; `ones` counts the sources named.
fn become_row(f: Figures, sources: &[u64], operation: u64, ones: u64, row: &mut [u8])
    requires row_len { length row.old ≡ f.sources }
    requires sources_value { count (named f.sources sources.now) ≡ ones }
    ensures { row.new ≡ becomes f sources.now operation row.old }
{
    if operation == DISCONNECT {
        mark(row, sources, 0);
        return;
    }
    if operation != CONNECT {
        list_row(row, sources);
        return;
    }
    if replaces(f, ones) {
        list_row(row, sources);
        return;
    }
    mark(row, sources, 1);
}

// Whether a target has too many: for N:N its cells are over its limit, else the list is over one.
fn is_many(f: Figures, ones: u64, set: u64) -> bool
    ensures { pick (eqb f.kind n_to_n) (ltb (most_each f) set) (ltb 1 ones) ≡ result }
{
    if f.kind == N_TO_N {
        return desk_crosspoints::most_each(f) < set;
    }
    1 < ones
}

// Whether a target may have `set` cells set and the desk `total`; `ones` counts the sources named.
fn limit_told(f: Figures, operation: u64, ones: u64, set: u64, total: u64) -> Result<(), Refusal>
    ensures { pick (eqb operation disconnect) 0
        (pick (pick (eqb f.kind n_to_n) (ltb (most_each f) set) (ltb 1 ones)) 43 (pick (ltb (most_total f) total) 44 0)) ≡ number_told result }
{
    if DISCONNECT == operation {
        return Ok(());
    }
    if is_many(f, ones, set) {
        return Err(Refusal::Many);
    }
    if desk_crosspoints::in_total(f, total) {
        return Ok(());
    }
    Err(Refusal::Total)
}

// The total as `judge` takes it: how many crosspoints are set on N:N, which alone heeds it; 0 on the others, which need no count.
pub fn total_of(f: Figures, cells: &[u8]) -> u64
    ensures { total_of f cells.now ≡ result }
{
    if f.kind != N_TO_N {
        return 0;
    }
    desk_crosspoints::count(cells)
}

// The total after a request on a target that has `before` cells set and will have `after`.
fn total_after(f: Figures, total: u64, before: u64, after: u64) -> u64
    requires { (total ≤ most_cells) × (after ≤ side) }
    ensures { heeded f (total - before + after) ≡ result }
{
    if f.kind != N_TO_N {
        return 0;
    }
    if total < before {
        return after;
    }
    total - before + after
}

// A target's cells.
fn get_row(row: &mut [u8], cells: &[u8], target: u64)
    requires { target * length row.old + length row.old ≤ length cells.now }
    ensures { row.new ≡ row_at (length row.old) cells.now target }
{
    let from = index(target) * row.len();
    let to = from + row.len();
    row.copy_from_slice(&cells[from..to]);
}

// The limits held against a target's cells after the request, which `row` then holds; `ones` counts the sources named.
fn judge_limits(
    f: Figures,
    target: u64,
    sources: &[u64],
    operation: u64,
    ones: u64,
    cells: &[u8],
    row: &mut [u8],
    total: u64,
) -> Result<Judged, Refusal>
    requires targets_le_side { (f.targets ≤ side) × (f.sources ≤ side) }
    requires cells_len { length cells.now ≡ cells_of f }
    requires row_len { length row.old ≡ f.sources }
    requires target_bound { target + 1 ≤ f.targets }
    requires sources_value { all_below f.sources sources.now ≡ true }
    requires sources_value_2 { count (named f.sources sources.now) ≡ ones }
    requires total_in_bounds { total ≤ length cells.now }
    ensures operation_value { judged_with total (desk_at f [] cells.now) (request target sources.now operation) ≡ number_told result }
    ensures sources_value_3 { IfOk result (λ j. Becomes total (desk_at f [] cells.now) (request target sources.now operation) j row.new) }
{
    get_row(row, cells, target);
    let before = desk_crosspoints::count(row);
    become_row(f, sources, operation, ones, row);
    let after = desk_crosspoints::count(row);
    let left = total_after(f, total, before, after);
    limit_told(f, operation, ones, after, left)?;
    Ok(Judged { ones, total: left })
}

// Whether n cells and a row of w are those of a desk with these figures.
fn is_fit(f: Figures, n: usize, w: usize) -> bool
    ensures { fits f n w ≡ result }
{
    let size = desk_crosspoints::size(f);
    if size == 0 {
        return false;
    }
    if n != size {
        return false;
    }
    w == index(f.sources)
}

// The checks of a request in their order, with the total that the caller keeps (`total_of`): refused are lengths that are not the desk's, a total over its
// cells and an operation that is none (`Setup`), and what the desk's checks refuse. After `Ok`, `row`, else scratch, holds the target's cells after the request.
pub fn judge(
    f: Figures,
    target: u64,
    sources: &[u64],
    operation: u64,
    cells: &[u8],
    row: &mut [u8],
    total: u64,
) -> Result<Judged, Refusal>
    ensures row_value { told_with total (desk_at f [] cells.now) (request target sources.now operation) row.old ≡ number_told result }
    ensures sources_value { IfOk result (λ j. Becomes total (desk_at f [] cells.now) (request target sources.now operation) j row.new) }
{
    if !is_fit(f, cells.len(), row.len()) {
        return Err(Refusal::Setup);
    }
    if cells.len() < index(total) {
        return Err(Refusal::Setup);
    }
    if DISCONNECT < operation {
        return Err(Refusal::Setup);
    }
    if f.targets <= target {
        return Err(Refusal::Target);
    }
    if !all_below(f.sources, sources) {
        return Err(Refusal::Source);
    }
    list_row(row, sources);
    let ones = desk_crosspoints::count(row);
    judge_limits(f, target, sources, operation, ones, cells, row, total)
}
