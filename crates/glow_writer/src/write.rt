// The message of a tree, written forward: the sizes are kept by entry before anything is written.
ghost use Rattle.std.specs.Prelude.{◌≡◌, [], ◌∷◌, ◌+◌, ◌-◌, ◌%◌, ◌≤◌, ◌<◌, length, get_or, eqb};
ghost use Rattle.base_choices.specs.Choices.{pick};
ghost use Rattle.ber_integers.specs.Digits.{outcome};
ghost use Rattle.glow_grammar.specs.Grammar.{applications, root_number, application, octet_of};
ghost use Rattle.glow_trees.specs.Content.{content_of};
ghost use Rattle.glow_trees.specs.Rows.{items_in};
ghost use Rattle.glow_writer.specs.Writes.{writes};
ghost use Rattle.glow_member_sizes.specs.Sizes.{tagged_size};
ghost use Rattle.glow_writer.specs.Puts.{Puts, head, heads, row_cells, WordPuts, MemberPuts, MembersPut, EntryPuts, ItemsBy, ItemBy, InsideBy, AllKept};

use base_casts::{index, word};
use glow_grammar::{collections, tags};
use glow_member_sizes::{MESSAGE_LIMIT, around, is_part, place, plus, word_size};
use glow_rows::tags::{ABSENT, BOOLEAN, INTEGER};
use glow_rows::{Cell, KIND, MOST_ENTRIES, PARENT, cell_at, int_of, kinds, word_at};
use glow_sizes::{
    INSIDE_UNIT, KIDS_UNIT, LINKS_UNIT, ONE_SIZE, judge, split_of, stands_in, wrapped_size,
};

// The context numbers of members that hold contents, children and connections, as octets.
const CONTENTS: u8 = tags::CONTENTS_MEMBER as u8;

const KIDS: u8 = tags::KIDS_MEMBER as u8;

const LINKS: u8 = tags::LINKS_MEMBER as u8;

// The next entry and the place after what was written.
#[derive(Clone, Copy)]
pub struct Placed {
    pub next: usize,
    pub place: usize,
}

fn put_octet(b: u8, out: &mut [u8], at: usize) -> usize
    ensures { Puts out.old at (b ∷ []) result out.new }
{
    place(ber_integers::write_octet(b, out, at))
}

// A tag of one octet and a length.
fn put_head(tag: u8, n: u64, out: &mut [u8], at: usize) -> usize
    ensures { n ≤ 16384 → Puts out.old at (head tag n) result out.new }
{
    let a = put_octet(tag, out, at);
    place(ber_tag_writer::write_length(n, out, a))
}

// A context tag and the tag in it, around n octets.
fn put_outer(number: u8, tag: u8, n: u64, out: &mut [u8], at: usize) -> usize
    requires { number < 31 }
    ensures { tagged_size n ≤ 16384 → Puts out.old at (heads number tag n) result out.new }
{
    let a = put_head(tags::CONTEXT_OCTET + number, around(n), out, at);
    put_head(tag, n, out, a)
}

fn low(x: u64) -> u8
    ensures { result ≡ x % 256 }
{
    (x % 256) as u8
}

fn flag(w: u64) -> u8
    ensures { result ≡ pick (eqb w 0) 0 255 }
{
    if w == 0 { 0 } else { 255 }
}

// The content octets of a boolean, an integer or a real.
fn put_word(kind: u64, w: u64, out: &mut [u8], at: usize) -> usize
    ensures { WordPuts kind w out.old at result out.new }
{
    if kind == BOOLEAN {
        return put_octet(flag(w), out, at);
    }
    if kind == INTEGER {
        return place(ber_integers::write_int(int_of(w), out, at));
    }
    place(ber_real_writer::write_bits(w, out, at))
}

// A member with both tags; nothing for an absent one.
fn put_member(s: &[u8], v: Cell, number: u8, out: &mut [u8], at: usize) -> usize
    requires { number < 31 }
    ensures { MemberPuts number (content_of s.now v) out.old at result out.new }
{
    if v.kind == ABSENT {
        return at;
    }
    let tag = low(v.kind);
    if is_part(v.kind) {
        let a = put_outer(number, tag, v.second, out, at);
        return place(ber_value_writer::write_part(s, index(v.first), index(v.second), out, a));
    }
    let a = put_outer(number, tag, word_size(v.kind, v.first, false), out, at);
    put_word(v.kind, v.first, out, a)
}

fn byte(x: usize) -> u8
    requires { x < 16 }
    ensures { result ≡ x }
{
    x as u8
}

// The members of an entry from one cell up to another, numbered from 0.
fn put_cells(
    rows: &[[u64; 50]],
    i: usize,
    s: &[u8],
    kind: u64,
    from: usize,
    to: usize,
    out: &mut [u8],
    at: usize,
) -> usize
    requires { (i < length rows.now) × ((from ≤ to) × (to ≤ 16)) }
    ensures { MembersPut kind from (row_cells s.now rows.now i (to - from) from) out.old at result out.new }
{
    let mut p = at;
    for c in from..to {
        p = put_member(s, cell_at(rows, i, c), byte(c - from), out, p);
    }
    p
}

// An entry's own members, and its contents in their tags.
fn put_entry(
    rows: &[[u64; 50]],
    i: usize,
    s: &[u8],
    kind: u64,
    n: u64,
    out: &mut [u8],
    at: usize,
) -> usize
    requires { i < length rows.now }
    ensures { EntryPuts kind (row_cells s.now rows.now i 16 0) n out.old at result out.new }
{
    let split = split_of(kind);
    let a = put_cells(rows, i, s, kind, 0, split, out, at);
    if n == 0 {
        return a;
    }
    let b = put_outer(CONTENTS, tags::SET_OCTET, n, out, a);
    put_cells(rows, i, s, kind, split, 16, out, b)
}

// The tag of an entry's kind, its application number, constructed: of the first kinds.
fn first_tag(kind: u64) -> u8
    requires { kind ≤ 4 }
    ensures { result ≡ octet_of application 0 + get_or applications kind 0 }
{
    match kind {
        kinds::PARAMETER => tags::PARAMETER_OCTET,
        kinds::COMMAND => tags::COMMAND_OCTET,
        kinds::NODE => tags::NODE_OCTET,
        kinds::MATRIX => tags::MATRIX_OCTET,
        _ => tags::APPLICATION_OCTET,
    }
}

// The same of any kind.
fn tag_of(kind: u64) -> u8
    ensures { result ≡ octet_of application 0 + get_or applications kind 0 }
{
    if kind <= kinds::MATRIX {
        return first_tag(kind);
    }
    match kind {
        kinds::QUALIFIED_PARAMETER => tags::QUALIFIED_PARAMETER_OCTET,
        kinds::QUALIFIED_NODE => tags::QUALIFIED_NODE_OCTET,
        kinds::QUALIFIED_MATRIX => tags::QUALIFIED_MATRIX_OCTET,
        kinds::CONNECTION => tags::CONNECTION_OCTET,
        kinds::STREAM_ENTRY => tags::STREAM_ENTRY_OCTET,
        _ => tags::APPLICATION_OCTET,
    }
}

// A collection in its tags, with the trees that stand in it; an empty one is left out.
#[cycle(put_inside_put_item_put_items)]
fn put_inside(
    rows: &[[u64; 50]],
    s: &[u8],
    count: usize,
    which: u64,
    number: u8,
    tag: u8,
    size: u64,
    parent: u64,
    start: usize,
    kept: &[u64],
    out: &mut [u8],
    at: usize,
) -> Placed
    requires { (start ≤ count) × ((count ≤ length rows.now) × ((count ≤ length kept.now) × (AllKept s.now rows.now count kept.now
        × (number < 31)))) }
    ensures inside_by { InsideBy s.now rows.now count which number tag size parent start out.old at result out.new }
    ensures start_le_next { (start ≤ result.next) × (result.next ≤ count) }
{
    if size == 0 {
        return Placed {
            next: start,
            place: at,
        };
    }
    let a = put_outer(number, tag, size, out, at);
    put_items(rows, s, count, which, parent, start, kept, out, a)
}

// An entry with its children and connections.
#[cycle(put_inside_put_item_put_items)]
fn put_item(
    rows: &[[u64; 50]],
    s: &[u8],
    count: usize,
    i: usize,
    kept: &[u64],
    out: &mut [u8],
    at: usize,
) -> Placed
    requires { (i < count) × ((count ≤ length rows.now) × ((count ≤ length kept.now) × AllKept s.now rows.now count kept.now)) }
    ensures item_by { ItemBy s.now rows.now count i out.old at result out.new }
    ensures i_lt_next { (i < result.next) × (result.next ≤ count) }
{
    let kind = word_at(rows, i, KIND);
    let w = kept[i];
    let size = w % ONE_SIZE;
    let inside = w / INSIDE_UNIT % ONE_SIZE;
    let kids = w / KIDS_UNIT % ONE_SIZE;
    let links = w / LINKS_UNIT % ONE_SIZE;
    let me = word(i) + 1;
    let held = plus(size, plus(wrapped_size(kids), wrapped_size(links)));
    let a = put_outer(0, tag_of(kind), held, out, at);
    let b = put_entry(rows, i, s, kind, inside, out, a);
    let c = put_inside(
        rows,
        s,
        count,
        collections::CHILDREN,
        KIDS,
        tags::ELEMENT_COLLECTION_OCTET,
        kids,
        me,
        i + 1,
        kept,
        out,
        b,
    );
    put_inside(
        rows,
        s,
        count,
        collections::CONNECTIONS,
        LINKS,
        tags::SEQUENCE_OCTET,
        links,
        me,
        c.next,
        kept,
        out,
        c.place,
    )
}

// The trees that stand in a collection under a parent, from an entry on.
#[cycle(put_inside_put_item_put_items)]
fn put_items(
    rows: &[[u64; 50]],
    s: &[u8],
    count: usize,
    which: u64,
    parent: u64,
    start: usize,
    kept: &[u64],
    out: &mut [u8],
    at: usize,
) -> Placed
    requires { (start ≤ count) × ((count ≤ length rows.now) × ((count ≤ length kept.now) × AllKept s.now rows.now count kept.now)) }
    ensures items_by { ItemsBy s.now rows.now count which parent start out.old at result out.new }
    ensures start_le_next { (start ≤ result.next) × (result.next ≤ count) }
{
    let mut i = start;
    let mut p = at;
    // No index is counted: each tree says where the next one begins.
    while i < count {
        if word_at(rows, i, PARENT) != parent {
            return Placed { next: i, place: p };
        }
        if !stands_in(which, word_at(rows, i, KIND)) {
            return Placed { next: i, place: p };
        }
        let r = put_item(rows, s, count, i, kept, out, p);
        i = r.next;
        p = r.place;
    }
    Placed { next: i, place: p }
}

// The tag of Root's collection.
fn root_tag(root: u64) -> u8
    ensures { result ≡ octet_of application 0 + root_number root }
{
    if root == collections::ROOT_ELEMENTS {
        tags::ROOT_ELEMENT_COLLECTION_OCTET
    } else {
        tags::STREAM_COLLECTION_OCTET
    }
}

// The message of the first `count` rows, with their texts in s.
pub fn write(rows: &[[u64; 50]], count: usize, root: u64, s: &[u8], out: &mut [u8]) -> Option<usize>
    ensures { writes root (length rows.now) count (items_in s.now rows.now count) out.old
        ≡ outcome result out.new }
{
    let mut room = [0u64; MOST_ENTRIES];
    let kept: &mut [u64] = &mut room;
    let all = judge(rows, count, root, s, false, kept);
    let one = around(all);
    let m = around(one);
    if MESSAGE_LIMIT < m {
        return None;
    }
    if word(out.len()) < m {
        return None;
    }
    let a = put_head(tags::ROOT_OCTET, one, out, 0);
    let b = put_head(root_tag(root), all, out, a);
    let p = put_items(rows, s, count, root, 0, 0, kept, out, b);
    Some(p.place)
}
