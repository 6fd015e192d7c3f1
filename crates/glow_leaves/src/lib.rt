// One value, read and judged by what stands at its member.
#![tactic(auto)]

ghost use Rattle.std.specs.Prelude.{◌≡◌, ◌+◌, ◌≤◌, true, leb, eqb, length, Some};
ghost use Rattle.base_choices.specs.Choices.{pick};
ghost use Rattle.ber_identifiers.specs.Identifier.{arcs};
ghost use Rattle.glow_rows.specs.Cell.{numbers_cell};
ghost use Rattle.glow_grammar.specs.Leaf.{no_word, Counted, NumberTold, ListTold, LeafTold};
ghost use Rattle.glow_grammar.specs.Leaf.{number_leaf, text_leaf, value_leaf, judged, path_leaf, oid_leaf, numbers_at, leaf_at, LeafBounded};

use base_casts::word;
use ber_identifiers::{Arc, Oid};
use ber_values::{Answer, Value};
use glow_grammar::{Leaf, rules};
use glow_rows::{Cell, tags as universal};

// What a quick answer says where the value is for `read_leaf` to judge: no word of a cell in any range.
// A word and no Option: an enum on the frequent way cost the reader a load that waits (docs/PROVING, "Speed of the compiled code").
pub const NO_WORD: u64 = 9223372036854775808;

fn wide(n: u32) -> u64
    ensures { result ≡ n }
{
    n as u64
}

fn number_leaf(at: usize, what: u64, above: usize, x: i64) -> Leaf
    ensures { number_leaf at what above x ≡ result }
{
    let v = glow_rows::cell_of(Value::Int(x));
    if what == rules::ANY {
        return Leaf::Kept(v, above);
    }
    if !glow_grammar::in_range(what, v.first) {
        return Leaf::Refused(34, at);
    }
    if what == rules::STEP {
        if above < 16 {
            return Leaf::Kept(v, above + 1);
        }
        return Leaf::Refused(37, at);
    }
    Leaf::Kept(v, above)
}

fn text_leaf(s: &[u8], at: usize, what: u64, above: usize, start: usize, len: usize) -> Leaf
    ensures { text_leaf s.now at what above start len ≡ result }
{
    let v = glow_rows::cell_of(Value::Text { start, len });
    if what == rules::NAME {
        if !glow_grammar::is_name(s, start, len) {
            return Leaf::Refused(36, at);
        }
    }
    Leaf::Kept(v, above)
}

fn value_leaf(s: &[u8], at: usize, what: u64, above: usize, v: Value) -> Leaf
    ensures { value_leaf s.now at what above v ≡ result }
{
    match v {
        Value::Absent => Leaf::Refused(33, at),
        Value::Int(x) => number_leaf(at, what, above, x),
        Value::Real(_) => Leaf::Kept(glow_rows::cell_of(v), above),
        Value::Text { start, len } => text_leaf(s, at, what, above, start, len),
        Value::Bool(_) => Leaf::Kept(glow_rows::cell_of(v), above),
        Value::Octets { start: _, len: _ } => Leaf::Kept(glow_rows::cell_of(v), above),
    }
}

// A value that was read, by the member's rule.
fn judge(s: &[u8], at: usize, what: u64, above: usize, a: Answer) -> Leaf
    ensures { judged s.now at what above a ≡ result }
{
    match a {
        Answer::Found { value, next: _ } => value_leaf(s, at, what, above, value),
        Answer::Other => Leaf::Refused(33, at),
        Answer::Refused { number, place } => Leaf::Refused(wide(number), place),
    }
}

// Whether the message holds the octets of a value.
fn holds(s: &[u8], start: usize, len: usize) -> bool
    ensures { leb (start + len) (length s.now) ≡ result }
{
    if s.len() < len {
        return false;
    }
    if s.len() - len < start {
        return false;
    }
    true
}

fn numbers_cell(start: usize, len: usize) -> Cell
    ensures { numbers_cell start len ≡ result }
{
    Cell {
        kind: universal::NUMBERS,
        first: word(start),
        second: word(len),
    }
}

// Whether a path was wrong, or is with this number.
fn spoiled(wrong: bool, number: u64) -> bool
    ensures { pick (eqb number 0) true wrong ≡ result }
{
    if number == 0 {
        return true;
    }
    wrong
}

// A path: 1 to 16 numbers, each at least 1. A number that is cut off counts before one out of its range.
fn path_leaf(s: &[u8], at: usize, start: usize, len: usize) -> Leaf
    requires { start + len ≤ length s.now }
    ensures { path_leaf at start len (arcs s.now start len) ≡ result }
{
    let end = start + len;
    let mut p = start;
    let mut count: usize = 0;
    let mut wrong = false;
    // No index is counted: each number says where the next one begins.
    while p < end {
        match ber_identifiers::read_number(s, p, end) {
            Arc::Number { number, next } => {
                p = next;
                count = count + 1;
                wrong = spoiled(wrong, number);
            }
            Arc::Range { next } => {
                p = next;
                wrong = true;
            }
            Arc::Refused => {
                return Leaf::Refused(30, at);
            }
        }
    }
    if wrong {
        return Leaf::Refused(37, at);
    }
    if count == 0 {
        return Leaf::Refused(37, at);
    }
    if 16 < count {
        return Leaf::Refused(37, at);
    }
    Leaf::Kept(numbers_cell(start, len), count)
}

// The sources of a connection.
fn list_leaf(at: usize, start: usize, len: usize, above: usize, o: Oid) -> Leaf
    ensures { oid_leaf at start len above o ≡ result }
{
    match o {
        Oid::Numbers(_) => Leaf::Kept(numbers_cell(start, len), above),
        Oid::Range => Leaf::Refused(34, at),
        Oid::Refused => Leaf::Refused(30, at),
    }
}

// A relative identifier.
fn numbers_at(s: &[u8], at: usize, start: usize, len: usize, what: u64, above: usize) -> Leaf
    ensures { numbers_at s.now at start len what above ≡ result }
{
    if !holds(s, start, len) {
        return Leaf::Refused(30, s.len());
    }
    if what == rules::PATH {
        return path_leaf(s, at, start, len);
    }
    list_leaf(
        at,
        start,
        len,
        above,
        ber_identifiers::read_oid(s, start, len),
    )
}

// Whether a number stands at a member, or may, and is none of a path's.
fn is_counted(what: u64) -> bool
    ensures { result ≡ true → Counted what }
{
    if what == rules::ANY {
        return true;
    }
    rules::FROM_0 <= what
}

// The word of a number that is in its member's range; NO_WORD where that is for `read_leaf` to say.
fn word_in(what: u64, x: i64) -> u64
    ensures { (result ≡ no_word → ⊥) → NumberTold what (Some x) result }
{
    let v = glow_rows::cell_of(Value::Int(x));
    if what == rules::ANY {
        return v.first;
    }
    if glow_grammar::in_range(what, v.first) {
        return v.first;
    }
    NO_WORD
}

fn number_word(what: u64, n: Option<i64>) -> u64
    ensures { (result ≡ no_word → ⊥) → NumberTold what n result }
{
    match n {
        None => NO_WORD,
        Some(x) => word_in(what, x),
    }
}

fn list_word(start: usize, o: Oid) -> u64
    ensures { (result ≡ no_word → ⊥) → ListTold start o result }
{
    match o {
        Oid::Numbers(_) => word(start),
        Oid::Range => NO_WORD,
        Oid::Refused => NO_WORD,
    }
}

// The first word of a value's cell, for a number, a text or sources that fit their member;
// NO_WORD where that is for `read_leaf` to say.
pub fn word_of(s: &[u8], number: u64, start: usize, len: usize, what: u64) -> u64
    ensures { (result ≡ no_word → ⊥) → LeafTold s.now number start len what result }
{
    if !holds(s, start, len) {
        return NO_WORD;
    }
    if number == universal::INTEGER {
        if is_counted(what) {
            return number_word(what, ber_integers::read_int(s, start, len));
        }
        return NO_WORD;
    }
    if number == universal::TEXT {
        if what == rules::NAME {
            if glow_grammar::is_name(s, start, len) {
                return word(start);
            }
            return NO_WORD;
        }
        if what == rules::TEXT {
            return word(start);
        }
        return NO_WORD;
    }
    if number == universal::NUMBERS {
        if what == rules::LIST {
            return list_word(start, ber_identifiers::read_oid(s, start, len));
        }
    }
    NO_WORD
}

// The value whose tag stands at `at`, with this universal number, and whose len octets stand at `start`;
// `above` counts the numbers of the path so far.
pub fn read_leaf(
    s: &[u8],
    at: usize,
    number: u64,
    start: usize,
    len: usize,
    what: u64,
    above: usize,
) -> Leaf
    ensures above_value { leaf_at s.now at number start len what above ≡ result }
    ensures leaf_bounded { LeafBounded above result }
{
    if !glow_grammar::fits(what, number) {
        return Leaf::Refused(33, at);
    }
    if number == universal::NUMBERS {
        return numbers_at(s, at, start, len, what, above);
    }
    judge(
        s,
        at,
        what,
        above,
        ber_values::read_content(s, at, number, start, len),
    )
}
