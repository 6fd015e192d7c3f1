// Whether the desk's call is no SETUP: of a table, a message, a desk, and entries handed in.
#![tactic(auto)]

ghost use Rattle.std.specs.Prelude.{◌≡◌};
ghost use Rattle.desk_crosspoints.specs.Desk.{desk_at};
ghost use Rattle.desk_setup.specs.Ready.{is_ready};

use desk_crosspoints::Figures;
use glow_member_sizes::MESSAGE_LIMIT;
use glow_rows::{MOST_BYTES, MOST_ENTRIES};

// Whether the table has no more than 256 rows, the message no more than 16,384 bytes, the desk is legal, and the entries, which the first `count` rows hold,
// make a tree that the reader accepts.
pub fn is_ready(
    f: Figures,
    path: &[u64],
    rows: &[[u64; 50]],
    count: usize,
    root: u64,
    s: &[u8],
    crosspoints: &[u8],
) -> bool
    ensures { is_ready (desk_at f path.now crosspoints.now) root rows.now count s.now ≡ result }
{
    if MOST_ENTRIES < rows.len() {
        return false;
    }
    if MOST_BYTES < s.len() {
        return false;
    }
    if !desk_crosspoints::desk_is_legal(f, path, crosspoints) {
        return false;
    }
    glow_sizes::measure(rows, count, root, s, true) <= MESSAGE_LIMIT
}
