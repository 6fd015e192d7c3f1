// Which entries make a tree that the reader accepts, and how many octets its message takes.
#![tactic(auto)]

ghost use Rattle.std.specs.Prelude.{◌≡◌, true, false, [], ◌∷◌, ◌⊎◌, ℕ, ◌+◌, ◌-◌, ◌*◌, ◌^◌, ◌/◌, ◌%◌, ◌≤◌, ◌<◌, length, get_or, leb, eqb};
ghost use Rattle.base_choices.specs.Choices.{pick};
ghost use Rattle.glow_trees.specs.Content.{content_of, contents_of};
ghost use Rattle.glow_trees.specs.Rows.{cells_from, items_in};
ghost use Rattle.glow_trees.specs.Trees.{stands_in};
ghost use Rattle.glow_grammar.specs.Grammar.{required, rule_of};
ghost use Rattle.glow_trees.specs.Legal.{suits, path_of};
ghost use Rattle.glow_member_sizes.specs.Spelling.{least_real, spelling};
ghost use Rattle.glow_member_sizes.specs.Sizes.{cap, tagged_size};
ghost use Rattle.glow_sizes.specs.Accepted.{fits, length_of};
ghost use Rattle.glow_sizes.specs.Sizes.{cells_size, wrapped_size, path_cap, split, keyed, entered_at, Gives};
ghost use Rattle.glow_sizes.specs.Kept.{RulesIn, Packed, Stored, Notes, Judged};

use base_casts::{index, word};
use ber_identifiers::Oid;
use glow_grammar::{collections, rows, rules, tags};
use glow_member_sizes::{MESSAGE_LIMIT, NO_SIZE, around, capped, member_size, plus};
use glow_rows::tags::ABSENT;
use glow_rows::{CELL_WORDS, CELLS, Cell, KIND, MOST_ENTRIES, PARENT, cell_at, kinds, word_at};

// The containers that are left in Root's collection.
const LEFT: u64 = collections::IN_COLLECTION as u64;

// The containers that an entry takes: its outer tag, its element and a member's outer tag; with contents their outer tag, the set and a
// member's outer tag in place of the last; and with a collection its outer tag and the collection.
const FOR_ENTRY: u64 = 3;

const FOR_CONTENTS: u64 = 5;

const FOR_COLLECTION: u64 = 4;

// The most numbers of a path, and what stands for more.
const PATH: usize = 16;

const MOST_NUMBERS: u64 = PATH as u64;

const TOO_MANY: u64 = 17;

// The word of a row where its second cell begins.
const SECOND_CELL: usize = CELLS + CELL_WORDS;

// The sizes of an entry in one word: each is below ONE_SIZE; the second, third and fourth are counted in these.
pub const ONE_SIZE: u64 = 65536;

pub const INSIDE_UNIT: u64 = 65536;

pub const KIDS_UNIT: u64 = 4294967296;

pub const LINKS_UNIT: u64 = 281474976710656;

// An entry alone: how many octets its members and contents take, and its contents inside their tags, and how many numbers the path has with its own.
#[derive(Clone, Copy)]
pub struct Entered {
    pub size: u64,
    pub inside: u64,
    pub path: u64,
}

// The rules for the cells of a kind in one word, four bits a cell, the first lowest: of the first kinds.
fn first_rules(kind: u64) -> u64
    requires { kind ≤ 6 }
    ensures { RulesIn kind result }
{
    match kind {
        kinds::PARAMETER => 0x800903900a444215,
        kinds::COMMAND => 0x99,
        kinds::NODE => 0x33215,
        kinds::MATRIX => 0x8888cb215,
        kinds::QUALIFIED_PARAMETER => 0x800903900a444216,
        kinds::QUALIFIED_NODE => 0x33216,
        _ => 0,
    }
}

// The same of any kind.
fn rules_of(kind: u64) -> u64
    ensures { RulesIn kind result }
{
    if kind <= kinds::QUALIFIED_NODE {
        return first_rules(kind);
    }
    match kind {
        kinds::QUALIFIED_MATRIX => 0x8888cb216,
        kinds::CONNECTION => 0xb78,
        kinds::STREAM_ENTRY => 0x48,
        rows::PARAMETER_CONTENTS => 0x800903900a44421,
        rows::NODE_CONTENTS => 0x3321,
        rows::MATRIX_CONTENTS => 0x8888cb21,
        _ => 0,
    }
}

// The rule for the cell c among them.
fn rule_in(rules: u64, c: u64) -> u64
    requires { c < 16 }
    ensures { rules / 2 ^ (4 * c) % 16 ≡ result }
{
    (rules >> (4 * c)) % 16
}

// The members of an entry from one cell up to another.
fn cells_size(
    rows: &[[u64; 50]],
    i: usize,
    s: &[u8],
    rules: u64,
    from: usize,
    to: usize,
    least: bool,
) -> u64
    requires { (from ≤ to) × (to ≤ 16) }
    ensures { (kind : ℕ) → RulesIn kind rules
        → cells_size (spelling least) kind from (contents_of s.now (cells_from (to - from) from (get_or rows.now i []))) ≡ result }
{
    let mut total: u64 = 0;
    for c in (from..to).rev() {
        total += member_size(s, cell_at(rows, i, c), rule_in(rules, word(c)), least);
    }
    capped(total)
}

// Contents or a collection of n octets in its outer tag; an empty one is left out.
pub fn wrapped_size(n: u64) -> u64
    ensures { cap (wrapped_size n) ≡ result }
{
    if n == 0 {
        return 0;
    }
    around(around(n))
}

// How many cells stand outside an entry's contents.
pub fn split_of(kind: u64) -> usize
    ensures kind_value { split kind ≡ result }
    ensures upper_bound { result ≤ 16 }
{
    if glow_grammar::contents_of(kind) == rows::NONE {
        return 16;
    }
    1
}

// Whether the members that an entry must have are there.
fn is_complete(rows: &[[u64; 50]], i: usize, kind: u64) -> bool
    ensures { keyed (required kind) (get_or rows.now i []) ≡ result }
{
    let n = glow_grammar::required_of(kind);
    if n == 0 {
        return true;
    }
    if word_at(rows, i, CELLS) == ABSENT {
        return false;
    }
    if n == 1 {
        return true;
    }
    word_at(rows, i, SECOND_CELL) != ABSENT
}

fn few(n: u64) -> u64
    ensures { path_cap n ≡ result }
{
    if n <= MOST_NUMBERS { n } else { TOO_MANY }
}

// The numbers of a path with this entry's own, 17 for more than 16.
fn path_after(s: &[u8], v: Cell, what: u64, above: u64) -> u64
    requires { suits what (content_of s.now v) ≡ true }
    ensures { path_cap (path_of what above (content_of s.now v ∷ [])) ≡ result }
{
    if v.kind == ABSENT {
        return few(above);
    }
    if what == rules::STEP {
        if MOST_NUMBERS <= above {
            return TOO_MANY;
        }
        return above + 1;
    }
    if what == rules::PATH {
        match ber_identifiers::read_oid(s, index(v.first), index(v.second)) {
            Oid::Numbers(n) => {
                if n <= PATH {
                    return word(n);
                }
                return TOO_MANY;
            }
            Oid::Range => {
                return 0;
            }
            Oid::Refused => {
                return 0;
            }
        }
    }
    few(above)
}

fn none() -> Entered
    ensures { result ≡ record { size = 65536; inside = 0; path = 0 } }
{
    Entered {
        size: NO_SIZE,
        inside: 0,
        path: 0,
    }
}

// Whether k containers are enough for contents of so many octets.
fn is_shallow(inside: u64, k: u64) -> bool
    ensures { pick (eqb inside 0) true (leb 5 k) ≡ result }
{
    if inside == 0 {
        return true;
    }
    FOR_CONTENTS <= k
}

// An entry alone, with k containers still allowed where it stands.
fn entry_size(rows: &[[u64; 50]], i: usize, s: &[u8], k: u64, above: u64, least: bool) -> Entered
    ensures { entered_at (spelling least) s.now (get_or rows.now i []) k above ≡ result }
{
    let kind = word_at(rows, i, KIND);
    let split = split_of(kind);
    let rules = rules_of(kind);
    let own = cells_size(rows, i, s, rules, 0, split, least);
    let inside = cells_size(rows, i, s, rules, split, 16, least);
    if MESSAGE_LIMIT < own {
        return none();
    }
    if MESSAGE_LIMIT < inside {
        return none();
    }
    let size = plus(own, wrapped_size(inside));
    if MESSAGE_LIMIT < size {
        return none();
    }
    if !is_shallow(inside, k) {
        return none();
    }
    if !is_complete(rows, i, kind) {
        return none();
    }
    let path = path_after(s, cell_at(rows, i, 0), rule_in(rules, 0), above);
    if MOST_NUMBERS < path {
        return none();
    }
    Entered { size, inside, path }
}

// Whether a collection may hold a kind.
pub fn stands_in(which: u64, kind: u64) -> bool
    ensures { stands_in which kind ≡ result }
{
    match which {
        collections::ROOT_ELEMENTS => {
            if kind == 0 {
                return false;
            }
            kind <= kinds::QUALIFIED_MATRIX
        }
        collections::CHILDREN => {
            if kind == 0 {
                return false;
            }
            kind <= kinds::MATRIX
        }
        collections::CONNECTIONS => kind == kinds::CONNECTION,
        collections::STREAMS => kind == kinds::STREAM_ENTRY,
        _ => false,
    }
}

// Four containers less: an outer tag, an element, a member's outer tag and its collection.
pub fn inside_of(k: u64) -> u64
    ensures { result ≡ k - 4 }
{
    if k < FOR_COLLECTION {
        return 0;
    }
    k - FOR_COLLECTION
}

// The trees of a collection: the place after their entries, and how many octets they take; NO_SIZE where they are not legal or
// take more than a message may have.
#[derive(Clone, Copy)]
pub struct Measured {
    pub next: usize,
    pub size: u64,
}

fn empty(start: usize) -> Measured
    ensures { result ≡ record { next = start; size = 0 } }
{
    Measured {
        next: start,
        size: 0,
    }
}

fn refused() -> Measured
    ensures { result ≡ record { next = 0; size = 65536 } }
{
    Measured {
        next: 0,
        size: NO_SIZE,
    }
}

// Whether an entry stands in a collection under a parent.
fn is_next(rows: &[[u64; 50]], i: usize, which: u64, parent: u64) -> bool
    ensures { pick (eqb (get_or (get_or rows.now i []) 1 0) parent) (stands_in which (get_or (get_or rows.now i []) 0 0)) false ≡ result }
{
    if word_at(rows, i, PARENT) != parent {
        return false;
    }
    stands_in(which, word_at(rows, i, KIND))
}

// Whether a kind may hold a collection, by the rule of its member c, or the collection is empty.
fn may_hold(kind: u64, c: u64, what: u64, from: usize, next: usize) -> bool
    ensures { pick (eqb (rule_of kind c) what) true (eqb next from) ≡ result }
{
    if next == from {
        return true;
    }
    glow_grammar::rule_of(kind, c) == what
}

// The octets before a tree and its own: its entry, its children and its connections in their tags.
fn tree_size(total: u64, own: u64, kids: u64, links: u64) -> u64
    ensures { cap (total + tagged_size (tagged_size (own + (wrapped_size kids + wrapped_size links)))) ≡ result }
{
    let held = plus(own, plus(wrapped_size(kids), wrapped_size(links)));
    plus(total, around(around(held)))
}

// Four sizes in one word.
fn packed(size: u64, inside: u64, kids: u64, links: u64) -> u64
    requires { (size ≤ 16384) × ((inside ≤ 16384) × ((kids ≤ 16384) × (links ≤ 16384))) }
    ensures { Packed size inside kids links result }
{
    size + inside * INSIDE_UNIT + kids * KIDS_UNIT + links * LINKS_UNIT
}

// A word kept at a place, if there is one.
fn keep(kept: &mut [u64], i: usize, w: u64)
    ensures { Stored kept.old i w kept.new }
{
    if kept.len() <= i {
        return;
    }
    kept[i] = w;
}

// The trees that stand in a collection under a parent, from an entry on: nothing to walk where that entry has another parent.
#[cycle(inside_items)]
fn inside(
    rows: &[[u64; 50]],
    s: &[u8],
    count: usize,
    which: u64,
    parent: u64,
    start: usize,
    k: u64,
    above: u64,
    least: bool,
    kept: &mut [u64],
) -> Measured
    requires { (start ≤ count) × (count ≤ length rows.now) }
    ensures gives { Gives (spelling least) (items_in s.now rows.now count) which parent k above 0 start result }
    ensures fact { (start ≤ result.next) ⊎ (16384 < result.size) }
    ensures next_le_count { result.next ≤ count }
    ensures notes { Notes (spelling least) s.now rows.now count start result kept.old kept.new }
{
    if count <= start {
        return empty(start);
    }
    if word_at(rows, start, PARENT) != parent {
        return empty(start);
    }
    items(rows, s, count, which, parent, start, k, above, least, kept)
}

// The same, entry by entry.
#[cycle(inside_items)]
fn items(
    rows: &[[u64; 50]],
    s: &[u8],
    count: usize,
    which: u64,
    parent: u64,
    start: usize,
    k: u64,
    above: u64,
    least: bool,
    kept: &mut [u64],
) -> Measured
    requires { (start ≤ count) × (count ≤ length rows.now) }
    ensures gives { Gives (spelling least) (items_in s.now rows.now count) which parent k above 0 start result }
    ensures fact { (start ≤ result.next) ⊎ (16384 < result.size) }
    ensures next_le_count { result.next ≤ count }
    ensures notes { Notes (spelling least) s.now rows.now count start result kept.old kept.new }
{
    let mut i = start;
    let mut total: u64 = 0;
    // No index is counted: each tree says where the next one begins.
    while i < count {
        if !is_next(rows, i, which, parent) {
            return Measured {
                next: i,
                size: total,
            };
        }
        if k < FOR_ENTRY {
            return refused();
        }
        let e = entry_size(rows, i, s, k, above, least);
        if MESSAGE_LIMIT < e.size {
            return refused();
        }
        let kind = word_at(rows, i, KIND);
        let below = i + 1;
        let me = word(below);
        let left = inside_of(k);
        let kids = inside(
            rows,
            s,
            count,
            collections::CHILDREN,
            me,
            below,
            left,
            e.path,
            least,
            kept,
        );
        if MESSAGE_LIMIT < kids.size {
            return refused();
        }
        if !may_hold(kind, tags::KIDS_MEMBER, rules::KIDS, below, kids.next) {
            return refused();
        }
        let links = inside(
            rows,
            s,
            count,
            collections::CONNECTIONS,
            me,
            kids.next,
            left,
            e.path,
            least,
            kept,
        );
        if MESSAGE_LIMIT < links.size {
            return refused();
        }
        if !may_hold(
            kind,
            tags::LINKS_MEMBER,
            rules::LINKS,
            kids.next,
            links.next,
        ) {
            return refused();
        }
        keep(kept, i, packed(e.size, e.inside, kids.size, links.size));
        total = tree_size(total, e.size, kids.size, links.size);
        if MESSAGE_LIMIT < total {
            return refused();
        }
        i = links.next;
    }
    Measured {
        next: i,
        size: total,
    }
}

// The same of any place and any count: past the count or the rows' end there is nothing.
pub fn trees_size(
    rows: &[[u64; 50]],
    s: &[u8],
    count: usize,
    which: u64,
    parent: u64,
    start: usize,
    k: u64,
    above: u64,
    least: bool,
) -> Measured
    ensures { Gives (spelling least) (items_in s.now rows.now count) which parent k above 0 start result }
{
    let n = count.min(rows.len());
    if n < start {
        return Measured {
            next: start,
            size: 0,
        };
    }
    let mut none = [0u64; 1];
    let kept: &mut [u64] = &mut none;
    items(rows, s, n, which, parent, start, k, above, least, kept)
}

// How many octets the trees of the first `count` rows take in Root's collection, with the sizes of each entry kept by its place; NO_SIZE where they
// make no tree that the reader accepts in 16,384 octets.
pub fn judge(
    rows: &[[u64; 50]],
    count: usize,
    root: u64,
    s: &[u8],
    least: bool,
    kept: &mut [u64],
) -> u64
    ensures count_value { length_of (spelling least) root (length rows.now) count (items_in s.now rows.now count)
        ≡ cap (tagged_size (cap (tagged_size result))) }
    ensures judged { result ≤ 16384 → Judged (spelling least) s.now rows.now count root result kept.old kept.new }
{
    if rows.len() < count {
        return NO_SIZE;
    }
    if MOST_ENTRIES < count {
        return NO_SIZE;
    }
    if !glow_trees::is_root(root) {
        return NO_SIZE;
    }
    let m = items(rows, s, count, root, 0, 0, LEFT, 0, least, kept);
    if MESSAGE_LIMIT < m.size {
        return NO_SIZE;
    }
    if m.next != count {
        return NO_SIZE;
    }
    m.size
}

// How many octets the message of the first `count` rows has, with reals as they are written or in the fewest octets; NO_SIZE where
// they make no tree that the reader accepts in 16,384 octets.
pub fn measure(rows: &[[u64; 50]], count: usize, root: u64, s: &[u8], least: bool) -> u64
    ensures { length_of (spelling least) root (length rows.now) count (items_in s.now rows.now count) ≡ result }
{
    let mut none = [0u64; 1];
    let kept: &mut [u64] = &mut none;
    around(around(judge(rows, count, root, s, least, kept)))
}

// Whether the first `count` rows make a tree that the reader accepts: some message of at most 16,384 bytes is read as exactly these entries.
pub fn is_tree(rows: &[[u64; 50]], count: usize, root: u64, s: &[u8]) -> bool
    ensures { fits least_real root (length rows.now) count (items_in s.now rows.now count) ≡ result }
{
    measure(rows, count, root, s, true) <= MESSAGE_LIMIT
}
