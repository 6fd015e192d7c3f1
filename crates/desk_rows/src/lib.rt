// A desk's entries as rows: its qualified matrix, and a connection for a target with its sources.
#![tactic(auto)]

ghost use Rattle.std.specs.Prelude.{◌≡◌, ◌≤◌, length, take};
ghost use Rattle.ber_integers.specs.Digits.{outcome};
ghost use Rattle.glow_rows.specs.Cell.{numbers};
ghost use Rattle.glow_rows.specs.Entry.{row};
ghost use Rattle.glow_entries.specs.Member as members;
ghost use Rattle.desk_rows.specs.Rows.{number_cell, limit_cell, list_cell, matrix_entry, link_entry};
ghost use Rattle.desk_rows.specs.Sources.{sources_from, put_sources};

use base_casts::{index, word};
use desk_crosspoints::{Figures, SIDE};
use glow_entries::{Connection, Key, Matrix, Part};

// A number, by its word.
fn number(w: u64) -> Option<i64>
    ensures { members.number_cell result ≡ number_cell w }
{
    glow_entries::number_from(w)
}

// A limit, where given.
fn limit(l: Option<u64>) -> Option<i64>
    ensures { members.number_cell result ≡ limit_cell l }
{
    match l {
        None => None,
        Some(n) => number(n),
    }
}

// Sources by their place among the octets: an empty list is left out.
pub fn list_of(start: u64, len: u64) -> Option<Part>
    ensures { list_cell start len ≡ members.part_cell numbers result }
{
    if len == 0 {
        return None;
    }
    Some(Part {
        start: index(start),
        len: index(len),
    })
}

// The qualified matrix: its path, the first `len` octets; type, targets, sources and limits.
pub fn matrix_row(f: Figures, len: u64) -> [u64; 50]
    ensures { result ≡ row (matrix_entry f len) }
{
    let most = f.total;
    let most_each = f.each;
    let path = index(len);
    let matrix_type = number(f.kind);
    let targets = number(f.targets);
    let sources = number(f.sources);
    let total_limit = limit(most);
    let target_limit = limit(most_each);
    glow_entries::matrix_row(Matrix {
        parent: None,
        key: Key::Path {
            start: 0,
            len: path,
        },
        identifier: None,
        description: None,
        matrix_type,
        mode: None,
        targets,
        sources,
        total_limit,
        target_limit,
    })
}

// A connection of the matrix in the first row: target and sources; no operation.
pub fn link_row(target: u64, sources: Option<Part>) -> [u64; 50]
    ensures { result ≡ row (link_entry target (members.part_cell numbers sources)) }
{
    glow_entries::connection_row(Connection {
        parent: Some(0),
        target: glow_rows::int_of(target),
        sources,
        operation: None,
    })
}

// The places of the cells that are set, ascending, at the start of `list`: how many.
fn list_sources(cells: &[u8], list: &mut [u64]) -> usize
    requires { length cells.now ≤ length list.old }
    ensures list_after { take result list.new ≡ sources_from 0 cells.now }
    ensures upper_bound { result ≤ length cells.now }
{
    let mut n = 0;
    for (s, c) in cells.iter().enumerate() {
        if *c != 0 {
            list[n] = word(s);
            n += 1;
        }
    }
    n
}

// The octets of the sources of a row of cells, ascending, at a position of the output.
pub fn put_sources(cells: &[u8], out: &mut [u8], at: usize) -> Option<usize>
    ensures { put_sources out.old at cells.now ≡ outcome result out.new }
{
    if SIDE < cells.len() {
        return None;
    }
    let mut list = [0u64; SIDE];
    let n = list_sources(cells, &mut list);
    ber_identifiers::write_oid(&list[..n], out, at)
}
