// The walk through a message: its entries into the rows that there are, and no row past them.
#![tactic(auto)]

ghost use Rattle.std.specs.Prelude.{◌+◌, ◌≤◌, ◌<◌, ◌≡◌, true, false};
ghost use Rattle.glow_grammar.specs.Grammar.{body};
ghost use Rattle.glow_grammar.specs.Leaf.{cell_by};
ghost use Rattle.glow_steps.specs.Brief.{opened_by};
ghost use Rattle.glow_walk.specs.Progress.{WalkedOnward, TurnOnward, Keeps, Closes, Finishes, cursor, onward_of, ended_of, LeafRoom, LeafTurn};
ghost use Rattle.glow_walk.specs.Progress.{NestedRoom, MembersTurn, ItemsTurn, ContentsFill, ListFill, EntryFill, MembersFill, ItemsFill, MessageFill};

use base_casts::{size, wide, word};
use ber_containers::{No, Open};
use glow_grammar::{Leaf, collections, rules, tags};
use glow_rows::Cell;
use glow_rows::tags::TEXT;
use glow_steps::{Item, Member};

// The place after what was read, and the count of entries so far; or a refusal.
pub type Walked = Result<(usize, usize), No>;

// Where the reader stands in a container: the place, what came before it, the count of the path's numbers and that of the
// entries so far.
#[derive(Clone, Copy)]
pub struct Cursor {
    pub place: usize,
    pub before: u64,
    pub above: usize,
    pub count: usize,
}

// One turn: the cursor after it; or the place after the container's end and the count of entries; or a refusal.
#[derive(Clone, Copy)]
pub enum Turn {
    On(Cursor),
    Read(usize, usize),
    Refused(No),
}

// At the beginning of a container.
fn begin(place: usize, above: usize, count: usize) -> Cursor
    ensures { cursor place 0 above count ≡ result }
{
    Cursor {
        place,
        before: 0,
        above,
        count,
    }
}

// The open container of a tag of the length l (128: indefinite), its content from `start` on in a container that ends at `end`.
fn opened(start: usize, l: usize, end: usize) -> Open
    requires { l < 128 → start + l ≤ end }
    ensures { opened_by start l end ≡ result }
{
    if l < 128 {
        return Open {
            definite: 1,
            end: start + l,
        };
    }
    Open { definite: 0, end }
}

// The cell of a value by its first word.
fn worded(number: u64, first: u64, len: usize) -> Cell
    ensures { cell_by number first len ≡ result }
{
    if number < TEXT {
        return Cell {
            kind: number,
            first,
            second: 0,
        };
    }
    Cell {
        kind: number,
        first,
        second: word(len),
    }
}

// What was read in an outer tag is the one thing that it holds.
fn close(s: &[u8], outer: Open, k: usize, w: Walked) -> Walked
    ensures closes { Closes s.now outer k w result }
    ensures keeps { Keeps w result }
{
    let (next, count) = w?;
    let z = ber_containers::shut(s, next, outer);
    if z != ber_containers::NOT_SHUT {
        return Ok((z, count));
    }
    let q = ber_containers::last(s, next, outer, k)?;
    Ok((q, count))
}

fn on(place: usize, before: u64, above: usize, count: usize) -> Turn
    ensures { Turn.On (cursor place before above count) ≡ result }
{
    Turn::On(Cursor {
        place,
        before,
        above,
        count,
    })
}

// The cursor after a container that was gone into and closed.
fn onward(before: u64, above: usize, w: Walked) -> Turn
    ensures { onward_of before above w ≡ result }
{
    match w {
        Err(e) => Turn::Refused(e),
        Ok((place, count)) => on(place, before, above, count),
    }
}

// The end of a row's members, with the place after it: a required member may be missing.
fn ended(row: u64, at: Cursor, next: usize) -> Walked
    ensures { ended_of row at next ≡ result }
{
    if glow_steps::is_due(row, at.before, tags::PAST_ALL) {
        return Err(No(33, at.place));
    }
    Ok((next, at.count))
}

fn is_leaf(what: u64) -> bool
    ensures fact { result ≡ true → (what ≡ 0 → ⊥) × (what < body) }
    ensures body_le_what { result ≡ false → (what ≡ 0 → ⊥) → body ≤ what }
{
    if what == rules::NONE {
        return false;
    }
    what < rules::BODY
}

// A member that holds one value, told at once by its rule `what`: the value goes into its cell.
fn leaf(s: &[u8], row: u64, me: usize, at: Cursor, what: u64, table: &mut [[u64; 50]]) -> Turn
    requires { LeafRoom s.now at }
    ensures leaf_turn { LeafTurn s.now row me at what table.old table.new result }
    ensures turn_onward { TurnOnward s.now at.place at.count result }
{
    let p = at.place;
    let number = wide(s[p] % 32);
    let c = glow_steps::column_of(row, number);
    let before = glow_steps::after_listed(row, at.before, number);
    let kind = wide(s[p + 2]);
    let len = size(s[p + 3]);
    let start = p + 4;
    let first = glow_leaves::word_of(s, kind, start, len, what);
    if first != glow_leaves::NO_WORD {
        glow_rows::put_cell(table, me, c, worded(kind, first, len));
        return on(start + len, before, at.above, at.count);
    }
    match glow_leaves::read_leaf(s, p + 2, kind, start, len, what, at.above) {
        Leaf::Refused(no, place) => Turn::Refused(No(no, place)),
        Leaf::Kept(value, above) => {
            glow_rows::put_cell(table, me, c, value);
            on(start + len, before, above, at.count)
        }
    }
}

// Contents from a place on, in their outer tag, for the entry `me`, after the cursor `at`.
#[cycle(contents_element_entry_general_item_turn_items_list_nested)]
fn contents(
    s: &[u8],
    from: usize,
    o: Open,
    outer: Open,
    left: usize,
    row: u64,
    me: usize,
    at: Cursor,
    table: &mut [[u64; 50]],
) -> Walked
    requires { (me < at.count) × (at.count ≤ from) }
    ensures contents_fill { ContentsFill s.now o outer left row me at.above from at.count table.old table.new result }
    ensures walked_onward { WalkedOnward from at.count result }
{
    let k = ber_containers::less(left);
    let row = glow_grammar::contents_of(row);
    let w = element(s, from, o, k, row, me, at.above, at.count, table);
    close(s, outer, left, w)
}

// A collection from a place on, in its outer tag, after the cursor `at`.
#[cycle(contents_element_entry_general_item_turn_items_list_nested)]
fn list(
    s: &[u8],
    from: usize,
    o: Open,
    outer: Open,
    left: usize,
    which: u64,
    parent: usize,
    at: Cursor,
    table: &mut [[u64; 50]],
) -> Walked
    requires { at.count ≤ from }
    ensures list_fill { ListFill s.now o outer left which parent at.above from at.count table.old table.new result }
    ensures walked_onward { WalkedOnward from at.count result }
{
    let k = ber_containers::less(left);
    let w = items(s, from, o, k, which, parent, at.above, at.count, table);
    close(s, outer, left, w)
}

// A new entry, in its outer tag, with its members from a place on, after the cursor `at`.
#[cycle(contents_element_entry_general_item_turn_items_list_nested)]
fn entry(
    s: &[u8],
    from: usize,
    o: Open,
    outer: Open,
    left: usize,
    kind: u64,
    parent: usize,
    at: Cursor,
    table: &mut [[u64; 50]],
) -> Walked
    requires { at.count < from }
    ensures entry_fill { EntryFill s.now o outer left kind parent at.above from at.count table.old table.new result }
    ensures walked_onward { WalkedOnward from (at.count + 1) result }
{
    let me = at.count;
    glow_rows::blank(table, me, kind, word(parent));
    let k = ber_containers::less(left);
    let w = element(s, from, o, k, kind, me, at.above, me + 1, table);
    close(s, outer, left, w)
}

// A member that holds contents or a collection, told at once by its rule `what`, or any member by the general turn.
#[cycle(contents_element_entry_general_item_turn_items_list_nested)]
fn nested(
    s: &[u8],
    o: Open,
    k: usize,
    row: u64,
    me: usize,
    at: Cursor,
    what: u64,
    table: &mut [[u64; 50]],
) -> Turn
    requires { NestedRoom s.now k o row me at what }
    ensures members_turn { MembersTurn s.now k o row me at table.old table.new result }
    ensures turn_onward { TurnOnward s.now at.place at.count result }
{
    let p = at.place;
    if what == rules::NONE {
        let z = glow_steps::over_at(s, p, o.end, k, row, at.before);
        if z != ber_containers::NOT_SHUT {
            let after = glow_steps::after_unlisted(row, at.before, s[p]);
            return on(z, after, at.above, at.count);
        }
        return general(s, o, k, row, me, at, table);
    }
    let after = glow_steps::after_listed(row, at.before, wide(s[p] % 32));
    let from = p + 4;
    let inner = opened(from, size(s[p + 3]), o.end);
    if what == rules::BODY {
        let w = contents(s, from, inner, inner, k - 1, row, me, at, table);
        return onward(after, at.above, w);
    }
    let which = glow_steps::collection_of(what);
    let parent = me + 1;
    let w = list(s, from, inner, inner, k - 1, which, parent, at, table);
    onward(after, at.above, w)
}

// A member by the general turn.
#[cycle(contents_element_entry_general_item_turn_items_list_nested)]
fn general(
    s: &[u8],
    o: Open,
    k: usize,
    row: u64,
    me: usize,
    at: Cursor,
    table: &mut [[u64; 50]],
) -> Turn
    requires { (me < at.count) × (at.count ≤ at.place) }
    ensures members_turn { MembersTurn s.now k o row me at table.old table.new result }
    ensures turn_onward { TurnOnward s.now at.place at.count result }
{
    match glow_steps::member_at(s, at.place, o, k, row, at.above, at.before) {
        Member::Done(next) => Turn::Read(next, at.count),
        Member::Refused(e) => Turn::Refused(e),
        Member::Over(before, place) => on(place, before, at.above, at.count),
        Member::Leaf(before, c, v, above, place) => {
            glow_rows::put_cell(table, me, c, v);
            on(place, before, above, at.count)
        }
        Member::Contents(before, outer, g, left) => {
            let w = contents(s, g.start, g.inner, outer, left, row, me, at, table);
            onward(before, at.above, w)
        }
        Member::Items(before, which, outer, g, left) => {
            let w = list(s, g.start, g.inner, outer, left, which, me + 1, at, table);
            onward(before, at.above, w)
        }
    }
}

// The members of a row from a place on, for the entry `me`; n entries before them.
#[cycle(contents_element_entry_general_item_turn_items_list_nested)]
fn element(
    s: &[u8],
    from: usize,
    o: Open,
    k: usize,
    row: u64,
    me: usize,
    above: usize,
    n: usize,
    table: &mut [[u64; 50]],
) -> Walked
    requires { (me < n) × (n ≤ from) }
    ensures members_fill { MembersFill s.now k o row me above from n table.old table.new result }
    ensures walked_onward { WalkedOnward from n result }
{
    let mut at = begin(from, above, n);
    loop {
        let z = ber_containers::shut(s, at.place, o);
        if z != ber_containers::NOT_SHUT {
            return ended(row, at, z);
        }
        let what = glow_steps::rule_at(s, at.place, o.end, k, row, at.before);
        if is_leaf(what) {
            match leaf(s, row, me, at, what, table) {
                Turn::On(next) => {
                    at = next;
                }
                Turn::Read(next, count) => {
                    return Ok((next, count));
                }
                Turn::Refused(e) => {
                    return Err(e);
                }
            }
        } else {
            match nested(s, o, k, row, me, at, what, table) {
                Turn::On(next) => {
                    at = next;
                }
                Turn::Read(next, count) => {
                    return Ok((next, count));
                }
                Turn::Refused(e) => {
                    return Err(e);
                }
            }
        }
    }
}

// One turn of a collection: its end, or an element with its members, a new entry.
#[cycle(contents_element_entry_general_item_turn_items_list_nested)]
fn item_turn(
    s: &[u8],
    o: Open,
    k: usize,
    which: u64,
    parent: usize,
    at: Cursor,
    table: &mut [[u64; 50]],
) -> Turn
    requires { at.count ≤ at.place }
    ensures items_turn { ItemsTurn s.now k o which parent at table.old table.new result }
    ensures turn_onward { TurnOnward s.now at.place at.count result }
{
    let p = at.place;
    let z = ber_containers::shut(s, p, o);
    if z != ber_containers::NOT_SHUT {
        return Turn::Read(z, at.count);
    }
    let quick = glow_steps::kind_at(s, p, o.end, k, which);
    if quick != 0 {
        let from = p + 4;
        let inner = opened(from, size(s[p + 3]), o.end);
        let w = entry(s, from, inner, inner, k - 1, quick, parent, at, table);
        return onward(0, at.above, w);
    }
    match glow_steps::item_at(s, p, o, k, which) {
        Item::Done(next) => Turn::Read(next, at.count),
        Item::Refused(e) => Turn::Refused(e),
        Item::Element(kind, outer, g, left) => {
            let w = entry(s, g.start, g.inner, outer, left, kind, parent, at, table);
            onward(0, at.above, w)
        }
    }
}

// The items of a collection from a place on; n entries before them.
#[cycle(contents_element_entry_general_item_turn_items_list_nested)]
fn items(
    s: &[u8],
    from: usize,
    o: Open,
    k: usize,
    which: u64,
    parent: usize,
    above: usize,
    n: usize,
    table: &mut [[u64; 50]],
) -> Walked
    requires { n ≤ from }
    ensures items_fill { ItemsFill s.now k o which parent above from n table.old table.new result }
    ensures walked_onward { WalkedOnward from n result }
{
    let mut at = begin(from, above, n);
    loop {
        match item_turn(s, o, k, which, parent, at, table) {
            Turn::On(next) => {
                at = next;
            }
            Turn::Read(next, count) => {
                return Ok((next, count));
            }
            Turn::Refused(e) => {
                return Err(e);
            }
        }
    }
}

// Nothing is left after Root.
fn finish(s: &[u8], which: u64, w: Walked) -> Result<(u64, usize), No>
    ensures { Finishes s.now which w result }
{
    let (next, count) = w?;
    if next == s.len() {
        Ok((which, count))
    } else {
        Err(No(30, next))
    }
}

// A whole message into the rows that there are.
pub fn message(s: &[u8], table: &mut [[u64; 50]]) -> Result<(u64, usize), No>
    ensures { MessageFill s.now table.old table.new result }
{
    let (which, outer, g) = glow_steps::root_of(s)?;
    let w = items(
        s,
        g.start,
        g.inner,
        collections::IN_COLLECTION,
        which,
        0,
        0,
        0,
        table,
    );
    finish(s, which, close(s, outer, collections::IN_ROOT, w))
}
