// One turn of the tree reader: what stands at a place among the members of a row, in a collection, or in Root. No turn recurs.
#![tactic(auto)]

ghost use Rattle.std.specs.Prelude.{◌+◌, ◌-◌, ◌%◌, ◌≤◌, ◌<◌, ◌≡◌, true};
ghost use Rattle.ber_containers.specs.Progress.{Ahead};
ghost use Rattle.ber_containers.specs.Short.{Short, not_shut};
ghost use Rattle.glow_grammar.specs.Grammar.{rule_of, inner_class, inner_number, collection_of, root_of};
ghost use Rattle.glow_steps.specs.Members.{marked, mark, due, in_order, again, after_listed, after_other, column};
ghost use Rattle.glow_steps.specs.Members.{plain_at, inner_at, listed_at, ruled_at, member_at, kind_of, item_at};
ghost use Rattle.glow_steps.specs.Brief.{Nested, NextRule, Suits, MemberTold, Unlisted, Pasts, OverTold, KindTold, ItemTold};
ghost use Rattle.glow_steps.specs.Root.{root_kind, top_at};
ghost use Rattle.glow_steps.specs.Progress.{MemberOnward, InnerOnward, ItemOnward};

use base_casts::{index, wide};
use ber_containers::{No, Open, Stands, Tag};
use glow_grammar::{Leaf, collections, rules, tags};
use glow_rows::Cell;

// One turn of the members of a row: the end; a member passed over; a value for a cell; contents or a collection to go into.
#[derive(Clone, Copy)]
pub enum Member {
    Done(usize),
    Over(u64, usize),
    Leaf(u64, usize, Cell, usize, usize),
    Contents(u64, Open, Tag, usize),
    Items(u64, u64, Open, Tag, usize),
    Refused(No),
}

// One turn of a collection: the end, or an element to go into.
#[derive(Clone, Copy)]
pub enum Item {
    Done(usize),
    Element(u64, Open, Tag, usize),
    Refused(No),
}

// Whether the listed member n of a set came before.
fn is_marked(before: u64, n: u64) -> bool
    requires { n < 16 }
    ensures { marked before n ≡ result }
{
    (before >> n) % 2 == 1
}

fn marking(before: u64, n: u64) -> u64
    requires { n < 16 }
    ensures { mark before n ≡ result }
{
    before | (1 << n)
}

// Whether a required member is missing before number n.
pub fn is_due(row: u64, before: u64, n: u64) -> bool
    ensures { due row before n ≡ result }
{
    if before < glow_grammar::required_of(row) {
        return before < n;
    }
    false
}

fn in_order(row: u64, before: u64, n: u64) -> bool
    ensures { in_order row before n ≡ result }
{
    if glow_grammar::is_set(row) {
        return true;
    }
    if before <= n {
        return !is_due(row, before, n);
    }
    false
}

fn is_again(row: u64, before: u64, n: u64) -> bool
    requires { n < 16 }
    ensures { again row before n ≡ result }
{
    if glow_grammar::is_set(row) {
        return is_marked(before, n);
    }
    false
}

// What came before, after the listed member n: a listed member's number is below 16, and for any other it is 0.
pub fn after_listed(row: u64, before: u64, n: u64) -> u64
    ensures n_value { n < 16 → after_listed row before n ≡ result }
    ensures value { 16 ≤ n → 0 ≡ result }
{
    if 16 <= n {
        return 0;
    }
    if glow_grammar::is_set(row) {
        return marking(before, n);
    }
    n + 1
}

fn after_other(row: u64, before: u64, n: u64) -> u64
    requires { n < 268435456 }
    ensures { after_other row before n ≡ result }
{
    if glow_grammar::is_set(row) {
        return before;
    }
    n + 1
}

// The cell that keeps the listed member n; 0 for a number that none has.
pub fn column_of(row: u64, n: u64) -> usize
    ensures n_value { n < 16 → column row n ≡ result }
    ensures value { 16 ≤ n → 0 ≡ result }
{
    if 16 <= n {
        return 0;
    }
    if glow_grammar::is_set(row) {
        return index(n) + 1;
    }
    index(n)
}

// The value g of a member t that holds one value.
fn plain(
    s: &[u8],
    t: Tag,
    k: usize,
    g: Tag,
    what: u64,
    above: usize,
    after: u64,
    c: usize,
) -> Member
    requires { Ahead s.now t.start g }
    ensures c_value { plain_at s.now t k g what above after c ≡ result }
    ensures member_onward { MemberOnward s.now t.start result }
{
    let at = t.start;
    if !ber_containers::is_tag(g, tags::UNIVERSAL, 0, g.number) {
        return Member::Refused(No(33, at));
    }
    let start = g.start;
    let inner = g.inner;
    let end = inner.end;
    match glow_leaves::read_leaf(s, at, g.number, start, end - start, what, above) {
        Leaf::Refused(number, place) => Member::Refused(No(number, place)),
        Leaf::Kept(v, path) => {
            let outer = t.inner;
            match ber_containers::last(s, end, outer, k) {
                Err(e) => Member::Refused(e),
                Ok(next) => Member::Leaf(after, c, v, path, next),
            }
        }
    }
}

fn inner_class(what: u64) -> u64
    ensures { inner_class what ≡ result }
{
    if what == rules::KIDS {
        tags::APPLICATION
    } else {
        tags::UNIVERSAL
    }
}

fn inner_number(what: u64) -> u64
    ensures { inner_number what ≡ result }
{
    if what == rules::BODY {
        return tags::SET;
    }
    if what == rules::KIDS {
        tags::ELEMENT_COLLECTION
    } else {
        tags::SEQUENCE
    }
}

// The collection that a member holds: children or connections.
pub fn collection_of(what: u64) -> u64
    ensures { collection_of what ≡ result }
{
    if what == rules::KIDS {
        collections::CHILDREN
    } else {
        collections::CONNECTIONS
    }
}

// The value g of a member t that holds contents or a collection.
fn inner(t: Tag, k: usize, g: Tag, what: u64, after: u64) -> Member
    ensures after_value { inner_at t k g what after ≡ result }
    ensures inner_onward { InnerOnward g.start result }
{
    let outer = t.inner;
    if !ber_containers::is_tag(g, inner_class(what), 1, inner_number(what)) {
        return Member::Refused(No(33, t.start));
    }
    if what == rules::BODY {
        return Member::Contents(after, outer, g, k);
    }
    Member::Items(after, collection_of(what), outer, g, k)
}

// A listed member.
fn listed(s: &[u8], t: Tag, k: usize, what: u64, above: usize, after: u64, c: usize) -> Member
    ensures c_value { listed_at s.now t k what above after c ≡ result }
    ensures member_onward { MemberOnward s.now t.start result }
{
    match ber_containers::first(s, t.start, t.inner, k) {
        Err(e) => Member::Refused(e),
        Ok(g) => {
            if rules::BODY <= what {
                return inner(t, k, g, what, after);
            }
            plain(s, t, k, g, what, above, after, c)
        }
    }
}

// The tag t of a member, at p, by what stands there.
fn ruled(s: &[u8], p: usize, t: Tag, k: usize, row: u64, above: usize, before: u64) -> Member
    requires { Ahead s.now p t }
    ensures number_value { ruled_at s.now p t k row above before (rule_of row t.number) ≡ result }
    ensures member_onward { MemberOnward s.now p result }
{
    let n = t.number;
    let what = glow_grammar::rule_of(row, n);
    if what == rules::NONE {
        let after = after_other(row, before, n);
        match ber_containers::passed(s, t, k) {
            Err(e) => {
                return Member::Refused(e);
            }
            Ok(next) => {
                return Member::Over(after, next);
            }
        }
    }
    if t.constructed != 1 {
        return Member::Refused(No(33, p));
    }
    if is_again(row, before, n) {
        return Member::Refused(No(33, p));
    }
    listed(
        s,
        t,
        k,
        what,
        above,
        after_listed(row, before, n),
        column_of(row, n),
    )
}

// What stands at the member of a constructed context tag b, if that may come now; NONE where that is for the general turn to say.
fn next_rule(b: u8, row: u64, before: u64) -> u64
    ensures { (result ≡ 0 → ⊥) → NextRule b row before result }
{
    if b / 32 != 5 {
        return rules::NONE;
    }
    let n = wide(b % 32);
    let what = glow_grammar::rule_of(row, n);
    if what == rules::NONE {
        return rules::NONE;
    }
    if !in_order(row, before, n) {
        return rules::NONE;
    }
    if is_again(row, before, n) {
        return rules::NONE;
    }
    what
}

// Whether the value's tag b, of the length n, is what stands at the member: a universal primitive tag, the contents' set,
// or the collection's own.
fn suits(what: u64, b: u8, n: usize) -> bool
    ensures { result ≡ true → Suits what b n }
{
    if what < rules::BODY {
        if b < 31 {
            return n < 128;
        }
        return false;
    }
    if what == rules::BODY {
        return b == tags::SET_OCTET;
    }
    if what == rules::KIDS {
        return b == tags::ELEMENT_COLLECTION_OCTET;
    }
    b == tags::SEQUENCE_OCTET
}

// What stands at a member of the tag b, if that may come now and its value's tag is of that kind;
// NONE where that is for the general turn to say.
fn rule_by(b: u8, value: u8, n: usize, row: u64, before: u64) -> u64
    ensures { (result ≡ 0 → ⊥) → (NextRule b row before result) × (Suits result value n) }
{
    let what = next_rule(b, row, before);
    if what == rules::NONE {
        return rules::NONE;
    }
    if suits(what, value, n) {
        return what;
    }
    rules::NONE
}

// The length of the value inside the tag at p, of the length l (128: indefinite), if its tag and length take one octet each
// and it fills the tag; 128 where 00 00 ends both, 129 where that is for the general turn to say.
fn nested(s: &[u8], p: usize, end: usize, l: usize) -> usize
    requires { (l ≤ 128) × (Short s.now p end l) }
    ensures { result < 129 → Nested s.now p end result }
{
    let at = p + 2;
    if l == 128 {
        if ber_containers::short(s, at, end) != 128 {
            return 129;
        }
        return 128;
    }
    let n = ber_containers::short(s, at, at + l);
    if 128 <= n {
        return 129;
    }
    if n + 2 != l {
        return 129;
    }
    n
}

// What stands at a member at p, if tags and lengths take one octet each and the value fills the member;
// NONE where that is for the general turn to say. A number and no Option, as for NO_WORD of glow_leaves; so for the kind of an element.
pub fn rule_at(s: &[u8], p: usize, end: usize, k: usize, row: u64, before: u64) -> u64
    ensures { (result ≡ 0 → ⊥) → MemberTold s.now p end k row before result }
{
    if k < 2 {
        return rules::NONE;
    }
    let l = ber_containers::short(s, p, end);
    if 128 < l {
        return rules::NONE;
    }
    let n = nested(s, p, end, l);
    if 128 < n {
        return rules::NONE;
    }
    rule_by(s[p], s[p + 2], n, row, before)
}

// What came before, after the member of the tag b that is not listed.
pub fn after_unlisted(row: u64, before: u64, b: u8) -> u64
    ensures { after_other row before (b % 32) ≡ result }
{
    after_other(row, before, wide(b % 32))
}

// Whether the tag b is of a member that is not listed and may come now.
fn is_unlisted(b: u8, row: u64, before: u64) -> bool
    ensures { result ≡ true → Unlisted b row before }
{
    if b / 64 != 2 {
        return false;
    }
    let n = wide(b % 32);
    if glow_grammar::rule_of(row, n) != rules::NONE {
        return false;
    }
    in_order(row, before, n)
}

// The place after the value of the tag b at p, of the length l (128: indefinite); 2^64 - 1 where that is for the general turn to say.
fn past(s: &[u8], p: usize, b: u8, l: usize, end: usize, k: usize) -> usize
    requires { (l ≤ 128) × (Short s.now p end l) }
    ensures { Pasts s.now p b l end k result }
{
    let start = p + 2;
    if 128 <= l {
        if b % 64 < 32 {
            return ber_containers::NOT_SHUT;
        }
        return ber_containers::over(s, start, 0, end, k);
    }
    let next = start + l;
    if b % 64 < 32 {
        if s.len() < next {
            return ber_containers::NOT_SHUT;
        }
        return next;
    }
    ber_containers::over(s, start, 1, next, k)
}

// The place after a member at p that is not listed, if its tag and length take one octet each; 2^64 - 1 where that is for the
// general turn to say.
pub fn over_at(s: &[u8], p: usize, end: usize, k: usize, row: u64, before: u64) -> usize
    ensures { (result ≡ not_shut → ⊥) → OverTold s.now p end k row before result }
{
    if k == 0 {
        return ber_containers::NOT_SHUT;
    }
    let l = ber_containers::short(s, p, end);
    if 128 < l {
        return ber_containers::NOT_SHUT;
    }
    if is_unlisted(s[p], row, before) {
        return past(s, p, s[p], l, end, k - 1);
    }
    ber_containers::NOT_SHUT
}

// One turn of the members of a row.
pub fn member_at(
    s: &[u8],
    p: usize,
    o: Open,
    k: usize,
    row: u64,
    above: usize,
    before: u64,
) -> Member
    ensures before_value { member_at s.now p o k row above before ≡ result }
    ensures member_onward { MemberOnward s.now p result }
{
    match ber_containers::entering(s, p, o, k) {
        Stands::Refused(e) => Member::Refused(e),
        Stands::Ended(next) => {
            if is_due(row, before, tags::PAST_ALL) {
                return Member::Refused(No(33, p));
            }
            Member::Done(next)
        }
        Stands::Here(t) => {
            if t.class != tags::CONTEXT {
                return Member::Refused(No(33, p));
            }
            if in_order(row, before, t.number) {
                return ruled(s, p, t, ber_containers::less(k), row, above, before);
            }
            Member::Refused(No(33, p))
        }
    }
}

fn kind_of(which: u64, g: Tag) -> u64
    ensures { kind_of which g ≡ result }
{
    if ber_containers::is_tag(g, tags::APPLICATION, 1, g.number) {
        return glow_grammar::kind_in(which, g.number);
    }
    0
}

// The kind that the tag b of an item's value names in a collection; 0 where that is for the general turn to say.
fn kind_by(which: u64, item: u8, b: u8) -> u64
    ensures { (result ≡ 0 → ⊥) → KindTold which item b result }
{
    if item != tags::ITEM_OCTET {
        return 0;
    }
    if b / 32 != 3 {
        return 0;
    }
    glow_grammar::kind_in(which, wide(b % 32))
}

// The kind of an element at p, if tags and lengths take one octet each and it fills the item; 0 where that is for the general turn to say.
pub fn kind_at(s: &[u8], p: usize, end: usize, k: usize, which: u64) -> u64
    ensures { (result ≡ 0 → ⊥) → ItemTold s.now p end k which result }
{
    if k < 2 {
        return 0;
    }
    let l = ber_containers::short(s, p, end);
    if 128 < l {
        return 0;
    }
    let n = nested(s, p, end, l);
    if 128 < n {
        return 0;
    }
    kind_by(which, s[p], s[p + 2])
}

// One turn of a collection.
pub fn item_at(s: &[u8], p: usize, o: Open, k: usize, which: u64) -> Item
    ensures which_value { item_at s.now p o k which ≡ result }
    ensures item_onward { ItemOnward s.now p result }
{
    match ber_containers::entering(s, p, o, k) {
        Stands::Refused(e) => Item::Refused(e),
        Stands::Ended(next) => Item::Done(next),
        Stands::Here(t) => {
            if !ber_containers::is_tag(t, tags::CONTEXT, 1, tags::ITEM) {
                return Item::Refused(No(33, p));
            }
            let start = t.start;
            let outer = t.inner;
            let left = ber_containers::less(k);
            match ber_containers::first(s, start, outer, left) {
                Err(e) => Item::Refused(e),
                Ok(g) => {
                    let kind = kind_of(which, g);
                    if kind == 0 {
                        return Item::Refused(No(33, start));
                    }
                    Item::Element(kind, outer, g, left)
                }
            }
        }
    }
}

fn root_number(number: u64) -> u64
    ensures { root_of number ≡ result }
{
    if number == tags::ROOT_ELEMENT_COLLECTION {
        return collections::ROOT_ELEMENTS;
    }
    if number == tags::STREAM_COLLECTION {
        collections::STREAMS
    } else {
        collections::NO_ROOT
    }
}

fn root_kind(g: Tag) -> u64
    ensures { root_kind g ≡ result }
{
    if ber_containers::is_tag(g, tags::APPLICATION, 1, g.number) {
        return root_number(g.number);
    }
    collections::NO_ROOT
}

// Root and the collection in it.
pub fn root_of(s: &[u8]) -> Result<(u64, Open, Tag), No>
    ensures { top_at s.now ≡ result }
{
    let all = Open {
        definite: 1,
        end: 18446744073709551615,
    };
    match ber_containers::entering(s, 0, all, collections::DEPTH) {
        Stands::Refused(e) => Err(e),
        Stands::Ended(next) => Err(No(33, 0)),
        Stands::Here(t) => {
            if !ber_containers::is_tag(t, tags::APPLICATION, 1, tags::ROOT) {
                return Err(No(33, 0));
            }
            let start = t.start;
            let outer = t.inner;
            match ber_containers::first(s, start, outer, collections::IN_ROOT) {
                Err(e) => Err(e),
                Ok(g) => {
                    let which = root_kind(g);
                    if which == collections::NO_ROOT {
                        return Err(No(33, start));
                    }
                    Ok((which, outer, g))
                }
            }
        }
    }
}
