// Entries of the Glow tree as rows of words.
#![tactic(auto)]

pub mod kinds;
pub mod places;
pub mod tags;

ghost use Rattle.std.specs.Prelude.{◌≡◌, ◌-◌, ◌≤◌, length, take, drop};
ghost use Rattle.glow_rows.specs.Cell.{cell_of, bit_of, word_of, absent as absent_cell, int_of, value_of, number_in, octets_in};
ghost use Rattle.glow_rows.specs.Entry.{row, blank as blank_entry};
ghost use Rattle.glow_rows.specs.Row.{put_in, cell_put, blanked, cell_in, row_cell, row_word, same};

use base_casts::{index, word};
use ber_values::Value;

// The words of a row: the kind of entry; its parent's place and 1, 0 where it has none; then its cells, so many words each.
pub const KIND: usize = 0;

pub const PARENT: usize = 1;

pub const CELLS: usize = 2;

pub const CELL_WORDS: usize = 3;

// The most entries of a table, and the most bytes of a message.
pub const MOST_ENTRIES: usize = 256;

pub const MOST_BYTES: usize = 16384;

// What an entry keeps of one member: the universal tag number of its value (0: absent) and two words of content.
#[derive(Clone, Copy)]
pub struct Cell {
    pub kind: u64,
    pub first: u64,
    pub second: u64,
}

// Puts a cell into a row of the table; past the table's end, or past the sixteen cells, it does nothing.
pub fn put_cell(table: &mut [[u64; 50]], i: usize, c: usize, v: Cell)
    ensures { table.new ≡ cell_put table.old i c v }
{
    if i < table.len() {
        put_in(&mut table[i], c, v);
    }
}

// Begins an entry in a row of the table; past the table's end it does nothing.
pub fn blank(table: &mut [[u64; 50]], i: usize, kind: u64, parent: u64)
    ensures { table.new ≡ blanked table.old i kind parent }
{
    if i < table.len() {
        table[i] = begun(kind, parent);
    }
}

// The row of an entry with no member yet.
pub fn begun(kind: u64, parent: u64) -> [u64; 50]
    ensures { result ≡ row (blank_entry kind parent) }
{
    let mut row = [0; 50];
    row[KIND] = kind;
    row[PARENT] = parent;
    row
}

// Puts a cell into a row; past the sixteen cells it does nothing.
pub fn put_in(row: &mut [u64; 50], c: usize, v: Cell)
    ensures { row.new ≡ put_in row.old c v }
{
    if c < 16 {
        let j = CELLS + c * CELL_WORDS;
        row[j] = v.kind;
        row[j + 1] = v.first;
        row[j + 2] = v.second;
    }
}

// The cell c of a row; an absent one past the sixteen.
pub fn cell_in(row: &[u64; 50], c: usize) -> Cell
    ensures { result ≡ cell_in row.now c }
{
    if 16 <= c {
        return absent();
    }
    let j = CELLS + c * CELL_WORDS;
    Cell {
        kind: row[j],
        first: row[j + 1],
        second: row[j + 2],
    }
}

// The cell c of a row of the table; an absent one past the table's end, or past the sixteen cells.
pub fn cell_at(rows: &[[u64; 50]], i: usize, c: usize) -> Cell
    ensures { result ≡ row_cell rows.now i c }
{
    match rows.get(i) {
        Some(row) => cell_in(row, c),
        None => absent(),
    }
}

// The word j of a row of the table; 0 past the table's end, or past the fifty words.
pub fn word_at(rows: &[[u64; 50]], i: usize, j: usize) -> u64
    ensures { result ≡ row_word rows.now i j }
{
    rows.get(i).and_then(|row| row.get(j)).copied().unwrap_or(0)
}

// Whether two rows hold the same words.
pub fn is_same(a: &[u64; 50], b: &[u64; 50]) -> bool
    ensures { result ≡ same a.now b.now }
{
    a == b
}

// The cell of an absent member.
pub fn absent() -> Cell
    ensures { result ≡ absent_cell }
{
    Cell {
        kind: tags::ABSENT,
        first: 0,
        second: 0,
    }
}

// The cell of a value.
pub fn cell_of(v: Value) -> Cell
    ensures { result ≡ cell_of v }
{
    match v {
        Value::Absent => absent(),
        Value::Int(x) => int_cell(x),
        Value::Real(x) => real_cell(x),
        Value::Text { start, len } => Cell {
            kind: tags::TEXT,
            first: word(start),
            second: word(len),
        },
        Value::Bool(x) => bool_cell(x),
        Value::Octets { start, len } => Cell {
            kind: tags::OCTETS,
            first: word(start),
            second: word(len),
        },
    }
}

fn int_cell(x: i64) -> Cell
    ensures { result ≡ cell_of (Value.Int x) }
{
    Cell {
        kind: tags::INTEGER,
        first: x.cast_unsigned(),
        second: 0,
    }
}

fn real_cell(x: f64) -> Cell
    ensures { result ≡ cell_of (Value.Real x) }
{
    if x.is_nan() {
        return absent();
    }
    Cell {
        kind: tags::REAL,
        first: x.to_bits(),
        second: 0,
    }
}

fn bool_cell(x: bool) -> Cell
    ensures { result ≡ cell_of (Value.Bool x) }
{
    Cell {
        kind: tags::BOOLEAN,
        first: u64::from(x),
        second: 0,
    }
}

// What a word stands for as an integer.
pub fn int_of(a: u64) -> i64
    ensures { result ≡ int_of a }
{
    a.cast_signed()
}

// What a cell stands for as a value: where it stands for none, that there is none.
pub fn value_of(v: Cell) -> Value
    ensures { result ≡ value_of v }
{
    match v.kind {
        tags::INTEGER => Value::Int(int_of(v.first)),
        tags::REAL if 0x7ff0000000000000 < v.first % 0x8000000000000000 => Value::Absent,
        tags::REAL => Value::Real(f64::from_bits(v.first)),
        tags::TEXT => Value::Text {
            start: index(v.first),
            len: index(v.second),
        },
        tags::BOOLEAN => Value::Bool(v.first == 1),
        tags::OCTETS => Value::Octets {
            start: index(v.first),
            len: index(v.second),
        },
        _ => Value::Absent,
    }
}

// An integer's word, 0 of any other cell.
pub fn number_of(v: Cell) -> u64
    ensures { number_in v ≡ result }
{
    if v.kind == tags::INTEGER && v.second == 0 {
        v.first
    } else {
        0
    }
}

// Where octets begin and end in the message.
#[derive(Clone, Copy, Default)]
pub struct Span {
    pub start: usize,
    pub end: usize,
}

// The octets of a relative identifier; none of any other cell, or where they do not lie in the message.
pub fn span_of(s: &[u8], v: Cell) -> Span
    ensures s_value { take (result.end - result.start) (drop result.start s.now) ≡ octets_in s.now v }
    ensures start_le_end { (result.start ≤ result.end) × (result.end ≤ length s.now) }
{
    if v.kind != tags::NUMBERS {
        return Span::default();
    }
    let start = index(v.first);
    match start.checked_add(index(v.second)) {
        Some(end) if end <= s.len() => Span { start, end },
        _ => Span::default(),
    }
}
