// The grammar of Glow: what stands where, and whether a tag, a number or a name fits there.
#![tactic(auto)]

pub mod collections;
pub mod rows;
pub mod rules;
pub mod tags;

ghost use Rattle.std.specs.Prelude.{◌≡◌, [], ◌∷◌, get_or, take, drop};
ghost use Rattle.glow_grammar.specs.Grammar.{no, body, kids, links, rule_of, required, is_set, contents_of, kind_in};
ghost use Rattle.ber_values.specs.Value.{is_listed};
ghost use Rattle.glow_grammar.specs.Leaf.{expects, least, most, word_in, is_letter, no_slash, is_name};

use glow_rows::{Cell, kinds, tags as universal};

// What judging one value gives: it is kept in its cell, with the count of the path's numbers after it; or a refusal with its place.
#[derive(Clone, Copy)]
pub enum Leaf {
    Kept(Cell, usize),
    Refused(u64, usize),
}

// The members of each row, by context number: of an element, whose key is its number or its path.
fn of_element(key: u64, n: u64) -> u64
    ensures { get_or (key ∷ body ∷ kids ∷ []) n no ≡ result }
{
    match n {
        0 => key,
        1 => rules::BODY,
        2 => rules::KIDS,
        _ => rules::NONE,
    }
}

// The same of a matrix.
fn of_matrix(key: u64, n: u64) -> u64
    ensures { get_or (key ∷ body ∷ kids ∷ no ∷ no ∷ links ∷ []) n no ≡ result }
{
    match n {
        5 => rules::LINKS,
        _ => of_element(key, n),
    }
}

#[tactic(auto, unfolding(crate::specs::Grammar::rule_of, crate::specs::Grammar::members))]
fn of_command(n: u64) -> u64
    ensures { rule_of 2 n ≡ result }
{
    match n {
        0 => rules::INT_32,
        1 => rules::INT_32,
        _ => rules::NONE,
    }
}

#[tactic(auto, unfolding(crate::specs::Grammar::rule_of, crate::specs::Grammar::members))]
fn of_connection(n: u64) -> u64
    ensures { rule_of 8 n ≡ result }
{
    match n {
        0 => rules::FROM_0,
        1 => rules::LIST,
        2 => rules::TO_2,
        _ => rules::NONE,
    }
}

#[tactic(auto, unfolding(crate::specs::Grammar::rule_of, crate::specs::Grammar::members))]
fn of_stream_entry(n: u64) -> u64
    ensures { rule_of 9 n ≡ result }
{
    match n {
        0 => rules::FROM_0,
        1 => rules::ANY,
        _ => rules::NONE,
    }
}

#[tactic(auto, unfolding(crate::specs::Grammar::rule_of, crate::specs::Grammar::members))]
fn of_parameter(n: u64) -> u64
    ensures { rule_of 10 n ≡ result }
{
    match n {
        0 => rules::NAME,
        1 => rules::TEXT,
        2 | 3 | 4 => rules::ANY,
        5 => rules::TO_3,
        8 => rules::INT_32,
        9 => rules::FLAG,
        11 => rules::INT_32,
        14 => rules::FROM_0,
        _ => rules::NONE,
    }
}

#[tactic(auto, unfolding(crate::specs::Grammar::rule_of, crate::specs::Grammar::members))]
fn of_node(n: u64) -> u64
    ensures { rule_of 11 n ≡ result }
{
    match n {
        0 => rules::NAME,
        1 => rules::TEXT,
        2 | 3 => rules::FLAG,
        _ => rules::NONE,
    }
}

#[tactic(auto, unfolding(crate::specs::Grammar::rule_of, crate::specs::Grammar::members))]
fn of_matrix_contents(n: u64) -> u64
    ensures { rule_of 12 n ≡ result }
{
    match n {
        0 => rules::NAME,
        1 => rules::TEXT,
        2 => rules::TO_2,
        3 => rules::TO_1,
        4 | 5 | 6 | 7 => rules::FROM_0,
        _ => rules::NONE,
    }
}

// What stands at member n of a row.
pub fn rule_of(row: u64, n: u64) -> u64
    ensures { rule_of row n ≡ result }
{
    match row {
        kinds::PARAMETER => of_element(rules::STEP, n),
        kinds::COMMAND => of_command(n),
        kinds::NODE => of_element(rules::STEP, n),
        kinds::MATRIX => of_matrix(rules::STEP, n),
        kinds::QUALIFIED_PARAMETER => of_element(rules::PATH, n),
        kinds::QUALIFIED_NODE => of_element(rules::PATH, n),
        kinds::QUALIFIED_MATRIX => of_matrix(rules::PATH, n),
        kinds::CONNECTION => of_connection(n),
        kinds::STREAM_ENTRY => of_stream_entry(n),
        rows::PARAMETER_CONTENTS => of_parameter(n),
        rows::NODE_CONTENTS => of_node(n),
        rows::MATRIX_CONTENTS => of_matrix_contents(n),
        _ => rules::NONE,
    }
}

// How many members of a row are required: its first ones.
#[tactic(auto, unfolding(crate::specs::Grammar::required, crate::specs::Grammar::requirements))]
pub fn required_of(row: u64) -> u64
    ensures { required row ≡ result }
{
    match row {
        kinds::PARAMETER..=kinds::CONNECTION => 1,
        kinds::STREAM_ENTRY => 2,
        _ => 0,
    }
}

// Whether a row's members stand in a set.
pub fn is_set(row: u64) -> bool
    ensures { is_set row ≡ result }
{
    rows::PARAMETER_CONTENTS <= row
}

// The row of a kind's contents.
#[tactic(auto, unfolding(crate::specs::Grammar::contents_of, crate::specs::Grammar::contents_rows))]
pub fn contents_of(row: u64) -> u64
    ensures { contents_of row ≡ result }
{
    match row {
        kinds::PARAMETER => rows::PARAMETER_CONTENTS,
        kinds::NODE => rows::NODE_CONTENTS,
        kinds::MATRIX => rows::MATRIX_CONTENTS,
        kinds::QUALIFIED_PARAMETER => rows::PARAMETER_CONTENTS,
        kinds::QUALIFIED_NODE => rows::NODE_CONTENTS,
        kinds::QUALIFIED_MATRIX => rows::MATRIX_CONTENTS,
        _ => rows::NONE,
    }
}

fn at_root(number: u64) -> u64
    ensures { kind_in 0 number ≡ result }
{
    match number {
        tags::PARAMETER => kinds::PARAMETER,
        tags::COMMAND => kinds::COMMAND,
        tags::NODE => kinds::NODE,
        tags::QUALIFIED_PARAMETER => kinds::QUALIFIED_PARAMETER,
        tags::QUALIFIED_NODE => kinds::QUALIFIED_NODE,
        tags::MATRIX => kinds::MATRIX,
        tags::QUALIFIED_MATRIX => kinds::QUALIFIED_MATRIX,
        _ => 0,
    }
}

fn among_children(number: u64) -> u64
    ensures { kind_in 1 number ≡ result }
{
    match number {
        tags::PARAMETER => kinds::PARAMETER,
        tags::COMMAND => kinds::COMMAND,
        tags::NODE => kinds::NODE,
        tags::MATRIX => kinds::MATRIX,
        _ => 0,
    }
}

// The kind that an application number names in a collection, or 0: word 0 of a row, which the C interface has as a number.
pub fn kind_in(which: u64, number: u64) -> u64
    ensures { kind_in which number ≡ result }
{
    match which {
        collections::ROOT_ELEMENTS => at_root(number),
        collections::CHILDREN => among_children(number),
        collections::CONNECTIONS => {
            if number == tags::CONNECTION {
                return kinds::CONNECTION;
            }
            0
        }
        collections::STREAMS => {
            if number == tags::STREAM_ENTRY {
                return kinds::STREAM_ENTRY;
            }
            0
        }
        _ => 0,
    }
}

// Whether a universal tag number is that of a value of any kind.
fn is_value(number: u64) -> bool
    ensures { is_listed number ≡ result }
{
    match number {
        universal::BOOLEAN => true,
        universal::INTEGER => true,
        universal::OCTETS => true,
        universal::REAL => true,
        universal::TEXT => true,
        _ => false,
    }
}

// Whether a universal tag number is that of a value at a member.
pub fn fits(what: u64, number: u64) -> bool
    ensures { expects what number ≡ result }
{
    match what {
        rules::NONE..=rules::TEXT => number == universal::TEXT,
        rules::FLAG => number == universal::BOOLEAN,
        rules::ANY => is_value(number),
        rules::STEP => number == universal::INTEGER,
        rules::PATH..=rules::LIST => number == universal::NUMBERS,
        _ => number == universal::INTEGER,
    }
}

// The least and the greatest number of a member that is not below zero.
fn least_of(what: u64) -> u64
    ensures { least what ≡ result }
{
    if what == rules::STEP {
        return 1;
    }
    0
}

fn most_of(what: u64) -> u64
    ensures { most what ≡ result }
{
    match what {
        rules::TO_3 => 3,
        rules::TO_2 => 2,
        rules::TO_1 => 1,
        _ => 2147483647,
    }
}

// Whether a number, by its word, is in the range of its member.
pub fn in_range(what: u64, w: u64) -> bool
    ensures { word_in what w ≡ result }
{
    if what == rules::INT_32 {
        if w <= 2147483647 {
            return true;
        }
        return 18446744071562067968 <= w;
    }
    if w < least_of(what) {
        return false;
    }
    w <= most_of(what)
}

fn is_letter(b: u8) -> bool
    ensures { is_letter b ≡ result }
{
    b.is_ascii_alphabetic() || b == b'_'
}

// Whether no octet is "/". No octet ends the loop, so that a processor compares many at a time, wherever the loop lies.
fn no_slash(text: &[u8]) -> bool
    ensures { no_slash text.now ≡ result }
{
    let mut slash = false;
    for b in text {
        slash |= *b == b'/';
    }
    !slash
}

// Whether a text is an identifier.
pub fn is_name(s: &[u8], start: usize, len: usize) -> bool
    ensures { is_name (take len (drop start s.now)) ≡ result }
{
    if s.len() <= start {
        return false;
    }
    let name = &s[start..][..len.min(s.len() - start)];
    let [first, ..] = name else {
        return false;
    };
    is_letter(*first) && no_slash(name)
}
