// The members of an entry: how many octets each takes with its tags, and whether it may stand where it does.
#![tactic(auto)]

ghost use Rattle.std.specs.Prelude.{◌≡◌, true, false, List, [], ℕ, ◌+◌, length};
ghost use Rattle.ber_integers.specs.Integer.{shortest};
ghost use Rattle.glow_grammar.specs.Leaf.{expects, leaf_at};
ghost use Rattle.glow_trees.specs.Content.{content_of, is_part, int_of};
ghost use Rattle.glow_trees.specs.Legal.{is_real, word_suits};
ghost use Rattle.glow_member_sizes.specs.Spelling.{spelling};
ghost use Rattle.glow_member_sizes.specs.Sizes.{cap, tagged_size, next_of, WordSized, is_kept, member_size};

use base_casts::{index, word};
use ber_integers::{magnitude, size_of};
use glow_grammar::{Leaf, rules};
use glow_leaves::NO_WORD;
use glow_rows::{Cell, MOST_BYTES, int_of, tags};

// The octets of the longest message, and the size of what is longer or not legal: `measure` promises this number (docs/API.md).
pub const MESSAGE_LIMIT: u64 = MOST_BYTES as u64;

pub const NO_SIZE: u64 = 65536;

pub fn capped(n: u64) -> u64
    ensures { cap n ≡ result }
{
    if n <= MESSAGE_LIMIT { n } else { NO_SIZE }
}

// The sum of two sizes.
pub fn plus(a: u64, b: u64) -> u64
    ensures { cap (a + b) ≡ result }
{
    if MESSAGE_LIMIT < a {
        return NO_SIZE;
    }
    if MESSAGE_LIMIT < b {
        return NO_SIZE;
    }
    capped(a + b)
}

// A tag of one octet, its length and n octets.
pub fn around(n: u64) -> u64
    ensures { cap (tagged_size n) ≡ result }
{
    if n < 128 {
        return n + 2;
    }
    if MESSAGE_LIMIT < n {
        return NO_SIZE;
    }
    capped(1 + word(ber_tag_writer::length_size(n)) + n)
}

// The place after what was written, 0 where the output was too short.
pub fn place(w: Option<usize>) -> usize
    ensures { next_of w ≡ result }
{
    match w {
        Some(n) => n,
        None => 0,
    }
}

// The content octets of an integer.
fn int_size(w: u64) -> u64
    ensures { length (shortest (int_of w)) ≡ result }
{
    word(size_of(magnitude(int_of(w))))
}

// The content octets of a real.
fn real_size(w: u64, least: bool) -> u64
    ensures { is_real w ≡ true → length (spelling least w) ≡ result }
{
    if least {
        return word(ber_real_sizes::least_size(w));
    }
    word(ber_real_sizes::written_size(w))
}

// Whether a boolean, an integer or a real, by its word, may stand at a member.
fn word_suits(what: u64, kind: u64, w: u64) -> bool
    ensures { word_suits what kind w ≡ result }
{
    if kind == tags::BOOLEAN {
        return w <= 1;
    }
    if kind == tags::INTEGER {
        if what == rules::ANY {
            return true;
        }
        return glow_grammar::in_range(what, w);
    }
    ber_real_sizes::is_written(w)
}

// The content octets of a boolean, an integer or a real.
pub fn word_size(kind: u64, w: u64, least: bool) -> u64
    ensures { WordSized (spelling least) kind w result }
{
    if kind == tags::BOOLEAN {
        return 1;
    }
    if kind == tags::INTEGER {
        return int_size(w);
    }
    real_size(w, least)
}

// Whether a universal tag number is that of octets, a text or a relative identifier.
pub fn is_part(kind: u64) -> bool
    ensures { is_part kind ≡ result }
{
    if kind == tags::OCTETS {
        return true;
    }
    if kind == tags::TEXT {
        return true;
    }
    kind == tags::NUMBERS
}

// Whether the reader keeps a part of the message at a member, by the part's universal tag number.
fn part_fits(s: &[u8], kind: u64, start: usize, len: usize, what: u64) -> bool
    ensures { is_kept (leaf_at s.now 0 kind start len what 0) ≡ result }
{
    if glow_leaves::word_of(s, kind, start, len, what) != NO_WORD {
        return true;
    }
    match glow_leaves::read_leaf(s, 0, kind, start, len, what, 0) {
        Leaf::Refused(_, _) => false,
        Leaf::Kept(_, _) => true,
    }
}

// A member that holds a part of the message: its octets with both tags.
fn part_size(s: &[u8], v: Cell, what: u64) -> u64
    requires { (is_part v.kind ≡ true) × ((expects what v.kind ≡ true) × (what ≡ 0 → ⊥)) }
    ensures { (real : ℕ → List ℕ) → member_size real what (content_of s.now v) ≡ result }
{
    let total = word(s.len());
    if total < v.second {
        return NO_SIZE;
    }
    if total - v.second < v.first {
        return NO_SIZE;
    }
    let start = index(v.first);
    let len = index(v.second);
    if !part_fits(s, v.kind, start, len, what) {
        return NO_SIZE;
    }
    around(around(v.second))
}

// A member by its cell and its rule: the octets with both tags, 0 for an absent one.
pub fn member_size(s: &[u8], v: Cell, what: u64, least: bool) -> u64
    ensures { member_size (spelling least) what (content_of s.now v) ≡ result }
{
    if v.kind == tags::ABSENT {
        if v.first != 0 {
            return NO_SIZE;
        }
        if v.second != 0 {
            return NO_SIZE;
        }
        return 0;
    }
    if what == rules::NONE {
        return NO_SIZE;
    }
    if !glow_grammar::fits(what, v.kind) {
        return NO_SIZE;
    }
    if is_part(v.kind) {
        return part_size(s, v, what);
    }
    if v.second != 0 {
        return NO_SIZE;
    }
    if !word_suits(what, v.kind, v.first) {
        return NO_SIZE;
    }
    around(around(word_size(v.kind, v.first, least)))
}
