// The desk's figures and crosspoints, which of them are legal, and opening.
#![tactic(auto)]

ghost use Rattle.std.specs.Prelude.{◌≡◌, ℕ, ◌+◌, ◌*◌, ◌≤◌, ◌<◌, min, leb, length, get_or};
ghost use Rattle.base_choices.specs.Choices.{both};
ghost use Rattle.desk_crosspoints.specs.Figures.{side, is_count, is_limit, figures_fit, cells_of, size_of, most_each, most_total};
ghost use Rattle.desk_crosspoints.specs.Crosspoints.{bit, count, all_bits, clear, rows_fit, sources_fit, kind_fits, cells_fit, legal};
ghost use Rattle.desk_crosspoints.specs.Desk.{desk_at, path_fits, desk_legal, answer, desk_opened};

use base_casts::{index, wide};

// The most targets and the most sources of a desk.
pub const SIDE: usize = 64;

// The types of a desk that have rules of their own; 1:N is 0.
pub const ONE_TO_ONE: u64 = 1;

pub const N_TO_N: u64 = 2;

// Type (0 1:N, 1 1:1, 2 N:N), counts of targets and sources, the limit in total and the limit per target.
#[derive(Clone, Copy)]
pub struct Figures {
    pub kind: u64,
    pub targets: u64,
    pub sources: u64,
    pub total: Option<u64>,
    pub each: Option<u64>,
}

fn is_count(n: u64) -> bool
    ensures { is_count n ≡ result }
{
    1 <= n && index(n) <= SIDE
}

fn is_limit(l: Option<u64>) -> bool
    ensures { is_limit l ≡ result }
{
    match l {
        None => true,
        Some(n) => 1 <= n && n <= 2147483647,
    }
}

// Whether figures are in their ranges.
pub fn figures_fit(f: Figures) -> bool
    ensures { figures_fit f ≡ result }
{
    if N_TO_N < f.kind {
        return false;
    }
    if !is_count(f.targets) {
        return false;
    }
    if !is_count(f.sources) {
        return false;
    }
    is_limit(f.total) && is_limit(f.each)
}

// The most sources of a target.
pub fn most_each(f: Figures) -> u64
    ensures { most_each f ≡ result }
{
    if f.kind == N_TO_N {
        let each = f.each;
        return each.unwrap_or(f.sources);
    }
    1
}

// 1 for a cell that is set.
fn bit(c: u8) -> u8
    ensures { bit c ≡ result }
{
    u8::from(c != 0)
}

// How many of a few cells are set: a sum of bytes, of which a processor adds many at a time.
fn count_few(cells: &[u8]) -> u64
    requires { length cells.now ≤ 192 }
    ensures { count cells.now ≡ result }
{
    let mut n: u8 = 0;
    for c in cells {
        n += bit(*c);
    }
    wide(n)
}

// How many cells are set.
pub fn count(cells: &[u8]) -> u64
    ensures { count cells.now ≡ result }
{
    let mut n = 0;
    for part in cells.chunks(192) {
        n += count_few(part);
    }
    n
}

// Whether every cell is 0 or 1: whether the largest is. No cell ends the loop, so that a processor compares many at a time.
fn all_bits(cells: &[u8]) -> bool
    ensures { all_bits cells.now ≡ result }
{
    let mut most: u8 = 0;
    for c in cells {
        most = most.max(*c);
    }
    most <= 1
}

// Whether n is no more than a times b, which may be more than a u64 holds.
fn in_product(n: u64, a: u64, b: u64) -> bool
    ensures { leb n (a * b) ≡ result }
{
    if n < 1 {
        return true;
    }
    if b < 1 {
        return false;
    }
    (n - 1) / b < a
}

// Whether n is no more than the total limit.
pub fn in_total(f: Figures, n: u64) -> bool
    ensures { leb n (most_total f) ≡ result }
{
    let total = f.total;
    match total {
        None => in_product(n, f.targets, f.sources),
        Some(most) => n <= most,
    }
}

// How many cells a desk has.
fn cells_of(f: Figures) -> usize
    requires { (f.targets ≤ side) × (f.sources ≤ side) }
    ensures { cells_of f ≡ result }
{
    index(f.targets * f.sources)
}

// How many crosspoints a host lends for a desk with these figures: 0 for figures out of range, which no desk has.
pub fn size(f: Figures) -> usize
    ensures { size_of f ≡ result }
{
    if !figures_fit(f) {
        return 0;
    }
    cells_of(f)
}

// Whether each of n targets, rows of w cells, has no more than `most` sources.
fn rows_fit(n: usize, w: usize, most: u64, cells: &[u8]) -> bool
    requires { length cells.now ≡ n * w }
    ensures { rows_fit w most cells.now n ≡ result }
{
    for t in 0..n {
        let from = t * w;
        let to = from + w;
        if most < count(&cells[from..to]) {
            return false;
        }
    }
    true
}

// One cell more, counted up to two: "one at most" asks no more, and so a byte serves for any number of targets.
fn up_to_two(n: u8, c: u8) -> u8
    ensures { result ≡ min (n + bit c) 2 }
{
    if n < 2 {
        return n + bit(c);
    }
    2
}

// A row's cells counted in, each at its source.
fn add_row(sums: &mut [u8], row: &[u8])
    requires { length sums.old ≡ length row.now }
    ensures { (s : ℕ) → get_or sums.new s 0 ≡ min (get_or sums.old s 0 + bit (get_or row.now s 0)) 2 }
{
    for (s, c) in row.iter().enumerate() {
        sums[s] = up_to_two(sums[s], *c);
    }
}

// Whether each of w sources is connected to one of n targets at most; `sums` is scratch, a cell for each source.
fn columns_fit(n: usize, w: usize, cells: &[u8], sums: &mut [u8]) -> bool
    requires cells_len { length cells.now ≡ n * w }
    requires sums_value { sums.old ≡ clear w }
    ensures { sources_fit w n cells.now w ≡ result }
{
    for target in 0..n {
        let from = target * w;
        let to = from + w;
        add_row(sums, &cells[from..to]);
    }
    all_bits(sums)
}

// Whether each source is connected to one of n targets at most.
fn sources_fit(n: usize, w: usize, cells: &[u8]) -> bool
    requires w_le_side { w ≤ side }
    requires cells_len { length cells.now ≡ n * w }
    ensures { sources_fit w n cells.now w ≡ result }
{
    let mut sums = [0u8; SIDE];
    columns_fit(n, w, cells, &mut sums[..w])
}

// Whether crosspoints fit the type.
fn kind_fits(f: Figures, cells: &[u8]) -> bool
    requires sources_le_side { f.sources ≤ side }
    requires cells_len { length cells.now ≡ cells_of f }
    ensures { kind_fits f cells.now ≡ result }
{
    if f.kind == ONE_TO_ONE {
        return sources_fit(index(f.targets), index(f.sources), cells);
    }
    if f.kind == N_TO_N {
        return in_total(f, count(cells));
    }
    true
}

// Whether crosspoints fit the counts, the type and the limits.
fn cells_fit(f: Figures, cells: &[u8]) -> bool
    requires { (f.targets ≤ side) × (f.sources ≤ side) }
    ensures { cells_fit f cells.now ≡ result }
{
    if cells.len() != cells_of(f) {
        return false;
    }
    if !all_bits(cells) {
        return false;
    }
    if !rows_fit(index(f.targets), index(f.sources), most_each(f), cells) {
        return false;
    }
    kind_fits(f, cells)
}

// Whether figures and crosspoints are those of a legal desk.
pub fn is_legal(f: Figures, crosspoints: &[u8]) -> bool
    ensures { legal f crosspoints.now ≡ result }
{
    figures_fit(f) && cells_fit(f, crosspoints)
}

// Whether a path has 1 to 16 numbers, each 1 to 2,147,483,647.
fn path_fits(path: &[u64]) -> bool
    ensures { path_fits path.now ≡ result }
{
    if path.len() < 1 {
        return false;
    }
    if 16 < path.len() {
        return false;
    }
    for n in path {
        if *n < 1 {
            return false;
        }
        if 2147483647 < *n {
            return false;
        }
    }
    true
}

// Whether a desk is legal, its path among its figures.
pub fn desk_is_legal(f: Figures, path: &[u64], crosspoints: &[u8]) -> bool
    ensures { desk_legal (desk_at f path.now crosspoints.now) ≡ result }
{
    path_fits(path) && is_legal(f, crosspoints)
}

// Clears every cell.
pub fn wipe(cells: &mut [u8])
    ensures { cells.new ≡ clear (length cells.old) }
{
    cells.fill(0);
}

// Opens a desk: 0 and its crosspoints cleared; 45 for figures, mode or path out of range, 1 for crosspoints of another count than the figures' give, and they
// stay as they were.
pub fn open(f: Figures, mode: u64, path: &[u64], crosspoints: &mut [u8]) -> u64
    ensures { desk_opened (desk_at f path.now crosspoints.old) mode ≡ answer result crosspoints.new }
{
    if !figures_fit(f) {
        return 45;
    }
    if crosspoints.len() != cells_of(f) {
        return 1;
    }
    if mode != 0 {
        return 45;
    }
    if !path_fits(path) {
        return 45;
    }
    wipe(crosspoints);
    0
}
