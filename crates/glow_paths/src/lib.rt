// The numbers of relative identifiers, and the full paths of entries in rows.
#![tactic(auto)]

ghost use Rattle.std.specs.Prelude.{◌≡◌, List, ℕ, ◌≤◌, ◌<◌, length};
ghost use Rattle.glow_trees.specs.Content.{content_of};
ghost use Rattle.glow_trees.specs.Rows.{items_in};
ghost use Rattle.ber_identifiers.specs.Identifier.{arc_at, oid_at};
ghost use Rattle.glow_paths.specs.Paths.{number_of, octets_of, numbers_in, end_of, step_of, Left, Goes, is_qualified, full_path, same, has_path};

use base_casts::{index, word};
use ber_identifiers::{Arc, Oid};
use glow_rows::{Cell, KIND, PARENT, cell_at, kinds, places, word_at};

// The number of a member, 0 where it has none.
fn number_of(v: Cell) -> u64
    ensures { (s : List ℕ) → number_of (content_of s v) ≡ result }
{
    glow_rows::number_of(v)
}

// The end of an identifier's numbers: that of its octets, or 0 where these are none.
pub fn list_end(octets: &[u8]) -> usize
    ensures octets_value { end_of (oid_at octets.now 0 (length octets.now)) (length octets.now) ≡ result }
    ensures left { Left octets.now 0 result (numbers_in octets.now) }
{
    match ber_identifiers::read_oid(octets, 0, octets.len()) {
        Oid::Numbers(_) => octets.len(),
        Oid::Range | Oid::Refused => 0,
    }
}

// A number of an identifier, and where the next one begins.
#[derive(Clone, Copy)]
pub struct Step {
    pub number: u64,
    pub next: usize,
}

// The number at p, where numbers are left before `end`; 0 and `end` where there is none.
pub fn next_number(octets: &[u8], p: usize, end: usize) -> Step
    ensures end_value { step_of (arc_at octets.now p end) end ≡ result }
    ensures goes { p < end → (xs : List ℕ) → Left octets.now p end xs → Goes octets.now end xs result.number result.next }
    ensures p_lt_next { p < end → (p < result.next) × (result.next ≤ end) }
{
    match ber_identifiers::read_number(octets, p, end) {
        Arc::Number { number, next } => Step { number, next },
        Arc::Range { .. } | Arc::Refused => Step {
            number: 0,
            next: end,
        },
    }
}

// Whether the numbers of an identifier are those of a path.
fn same_numbers(octets: &[u8], path: &[u64]) -> bool
    ensures { same (numbers_in octets.now) path.now ≡ result }
{
    let end = list_end(octets);
    let mut p: usize = 0;
    for number in path {
        if end <= p {
            return false;
        }
        let x = next_number(octets, p, end);
        if *number != x.number {
            return false;
        }
        p = x.next;
    }
    end <= p
}

fn is_qualified(kind: u64) -> bool
    ensures { is_qualified kind ≡ result }
{
    matches!(kind, kinds::QUALIFIED_PARAMETER..=kinds::QUALIFIED_MATRIX)
}

// Whether the octets of a member are the numbers of a path.
fn same_part(s: &[u8], v: Cell, path: &[u64]) -> bool
    ensures { same (numbers_in (octets_of (content_of s.now v))) path.now ≡ result }
{
    let span = glow_rows::span_of(s, v);
    let start = span.start;
    let end = span.end;
    same_numbers(&s[start..end], path)
}

// Whether the full path of the entry whose place and 1 is p, 0 for Root, is this one: numbers are compared from the last to the first, up to a qualified
// element or Root.
fn climbs(path: &[u64], rows: &[[u64; 50]], count: usize, s: &[u8], entry: u64) -> bool
    requires { (length path.now ≤ 16) × (count ≤ length rows.now) }
    ensures { same (full_path (items_in s.now rows.now count) entry) path.now ≡ result }
{
    let mut left = path;
    let mut p = entry;
    // No index is counted: each entry says which one holds it.
    while 0 < p && p <= word(count) {
        let i = index(p - 1);
        let v = cell_at(rows, i, places::KEY);
        if is_qualified(word_at(rows, i, KIND)) {
            return same_part(s, v, left);
        }
        let Some((last, rest)) = left.split_last() else {
            return false;
        };
        if *last != number_of(v) {
            return false;
        }
        left = rest;
        p = word_at(rows, i, PARENT);
    }
    left.is_empty()
}

// Whether an entry's full path is this one, on the first `count` rows, or as many as there are; none of over 16 numbers is.
pub fn is_path(path: &[u64], rows: &[[u64; 50]], count: usize, s: &[u8], entry: u64) -> bool
    ensures { has_path (items_in s.now rows.now count) entry path.now ≡ result }
{
    path.len() <= 16 && climbs(path, rows, count.min(rows.len()), s, entry)
}
