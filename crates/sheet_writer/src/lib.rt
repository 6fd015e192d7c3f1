// The route sheet writer: a legal desk's sheet, into a lent output.
#![tactic(auto)]

ghost use Rattle.std.specs.Prelude.{◌≡◌, true, ◌+◌, ◌*◌, ◌≤◌, ◌<◌, length, take};
ghost use Rattle.glow_trees.specs.Rows.{items_in};
ghost use Rattle.glow_trees.specs.Trees.{flat};
ghost use Rattle.framing_packets.specs.Written.{in_packets};
ghost use Rattle.glow_member_sizes.specs.Sizes.{next_of};
ghost use Rattle.desk_crosspoints.specs.Figures.{side};
ghost use Rattle.desk_crosspoints.specs.Desk.{desk_at, desk_legal};
ghost use Rattle.sheet_rules.specs.Sheet.{sheet_tree, sheet_message};
ghost use Rattle.sheet_writer.specs.Calls.{outcome_of, writes_sheet};
ghost use Rattle.sheet_writer.specs.Steps.{most_rows, most_path, most_octets};
ghost use Rattle.sheet_writer.specs.Steps.{filled, with_link, with_links, said};

use base_casts::{index, word};
use desk_crosspoints::{Figures, SIDE};

// The matrix, and a connection for each target.
const ROWS: usize = SIDE + 1;

// The octets of a path, at most 80, and of all sources.
const OCTETS: usize = 80 + SIDE * SIDE;

// 1 SETUP, 46 OUT, or how many bytes the sheet has.
#[derive(Clone, Copy)]
pub enum Answer {
    Setup,
    Out,
    Done { length: usize },
}

fn end_of(w: Option<usize>) -> usize
    ensures { next_of w ≡ result }
{
    match w {
        Some(n) => n,
        None => 0,
    }
}

// The connection of a target in rows of w cells, and the place after its sources.
fn put_link(
    cells: &[u8],
    w: usize,
    t: usize,
    rows: &mut [[u64; 50]],
    octets: &mut [u8],
    at: usize,
) -> usize
    requires w_in_bounds { (t * w + w ≤ length cells.now) × (w ≤ side) }
    requires t_lt_side { (t < side) × ((length rows.old ≡ most_rows) × ((at + side ≤ length octets.old) × (length octets.old ≡ most_octets))) }
    ensures at_value { with_link w cells.now t (filled rows.old octets.old at)
        ≡ filled rows.new octets.new result }
    ensures upper_bound { result ≤ at + side }
{
    let from = t * w;
    let to = from + w;
    let next = end_of(desk_rows::put_sources(&cells[from..to], octets, at));
    rows[t + 1] = desk_rows::link_row(word(t), desk_rows::list_of(word(at), word(next - at)));
    next
}

// Every target.
fn put_links(
    cells: &[u8],
    w: usize,
    targets: usize,
    rows: &mut [[u64; 50]],
    octets: &mut [u8],
    at: usize,
) -> usize
    requires cells_len { (length cells.now ≡ targets * w) × (w ≤ side) }
    requires targets_le_side { (targets ≤ side) × ((length rows.old ≡ most_rows) × ((length octets.old ≡ most_octets) × (at ≤ most_path))) }
    ensures { with_links w cells.now 0 targets (filled rows.old octets.old at)
        ≡ filled rows.new octets.new result }
{
    let mut next = at;
    for t in 0..targets {
        next = put_link(cells, w, t, rows, octets, next);
    }
    next
}

// The entries of a sheet as rows, with the octets beside them: how many rows.
fn put_entries(
    f: Figures,
    path: &[u64],
    cells: &[u8],
    rows: &mut [[u64; 50]],
    octets: &mut [u8],
) -> usize
    requires cells_value { desk_legal (desk_at f path.now cells.now) ≡ true }
    requires rows_len { (length rows.old ≡ most_rows) × (length octets.old ≡ most_octets) }
    ensures result_after { items_in octets.new rows.new result
        ≡ flat 0 0 (sheet_tree (desk_at f path.now cells.now)) }
    ensures upper_bound { result ≤ most_rows }
{
    let targets = index(f.targets);
    let sources = index(f.sources);
    let end = end_of(ber_identifiers::write_oid(path, octets, 0));
    rows[0] = desk_rows::matrix_row(f, word(end));
    put_links(cells, sources, targets, rows, octets, end);
    targets + 1
}

// The message of a sheet.
fn put_message(f: Figures, path: &[u64], cells: &[u8], message: &mut [u8]) -> usize
    requires cells_value { desk_legal (desk_at f path.now cells.now) ≡ true }
    requires message_len { length message.old ≡ 6144 }
    ensures message_after { take result message.new ≡ sheet_message (desk_at f path.now cells.now) }
    ensures upper_bound { result ≤ 6144 }
{
    let mut rows = [[0u64; 50]; ROWS];
    let mut octets = [0u8; OCTETS];
    let count = put_entries(f, path, cells, &mut rows, &mut octets);
    end_of(glow_writer::write::write(&rows, count, 0, &octets, message))
}

// Its frames.
fn put_frames(message: &[u8], frames: &mut [u8]) -> usize
    requires { (length message.now ≤ 6144) × (length frames.old ≡ 16384) }
    ensures frames_after { take result frames.new ≡ in_packets message.now }
    ensures upper_bound { result ≤ 16384 }
{
    match framing_writer::write_message(message, frames) {
        Some(length) => length,
        None => 0,
    }
}

fn tell(w: Option<usize>) -> Answer
    ensures { said w ≡ result }
{
    match w {
        Some(length) => Answer::Done { length },
        None => Answer::Out,
    }
}

// The sheet of a desk: 1 for a desk that is not legal; 46 where the output is too short. Both leave the output as it was.
pub fn write(f: Figures, path: &[u64], crosspoints: &[u8], out: &mut [u8]) -> Answer
    ensures { writes_sheet (desk_at f path.now crosspoints.now) out.old ≡ outcome_of result out.new }
{
    if !desk_crosspoints::desk_is_legal(f, path, crosspoints) {
        return Answer::Setup;
    }
    let mut message = [0u8; 6144];
    let n = put_message(f, path, crosspoints, &mut message);
    let mut frames = [0u8; 16384];
    let k = put_frames(&message[..n], &mut frames);
    tell(sheet_rules::write_lines(&frames[..k], out))
}
