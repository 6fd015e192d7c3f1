// The sources that a connection names, each once, for a request.
#![tactic(auto)]

ghost use Rattle.std.specs.Prelude.{◌≡◌, ◌≤◌, ◌<◌, length, take};
ghost use Rattle.desk_crosspoints.specs.Figures.{side};
ghost use Rattle.desk_crosspoints.specs.Crosspoints.{clear};
ghost use Rattle.desk_requests.specs.Lists.{once};
ghost use Rattle.glow_paths.specs.Paths.{numbers_in};
ghost use Rattle.desk_sources.specs.Gathered.{Handed, Kept};

use base_casts::index;
use desk_crosspoints::SIDE;

// One more source: kept if it is not among the first k already; how many there are then.
fn keep(list: &mut [u64], marks: &mut [u8], k: usize, x: u64) -> usize
    requires kept { Kept list.old marks.old k }
    requires x_lt_side { x < side }
    ensures kept_2 { Kept list.new marks.new result }
    ensures list_after { take result list.new ≡ once (take k list.old) x }
{
    let j = index(x);
    if marks[j] != 0 {
        return k;
    }
    marks[j] = 1;
    list[k] = x;
    k + 1
}

// The numbers of an identifier as sources, each once, at the start of `list`: how many. One that is not the desk's stands alone.
fn gather(octets: &[u8], sources: u64, list: &mut [u64], marks: &mut [u8]) -> usize
    requires sources_le_side { sources ≤ side }
    requires side_in_bounds { side ≤ length list.old }
    requires marks_value { marks.old ≡ clear side }
    ensures handed { Handed sources (numbers_in octets.now) (take result list.new) }
    ensures upper_bound { result ≤ side }
{
    let end = glow_paths::list_end(octets);
    let mut p: usize = 0;
    let mut k: usize = 0;
    // No index is counted: each number says where the next one begins.
    while p < end {
        let x = glow_paths::next_number(octets, p, end);
        if sources <= x.number {
            list[0] = x.number;
            return 1;
        }
        k = keep(list, marks, k, x.number);
        p = x.next;
    }
    k
}

// The sources that octets name, for a desk of so many, at the start of `list`: how many. A request with them is the request with the list that the octets are.
// A list with room for fewer than the most sources of a desk is left as it was.
pub fn sources_of(octets: &[u8], sources: u64, list: &mut [u64]) -> usize
    ensures handed { side ≤ length list.old → Handed sources (numbers_in octets.now) (take result list.new) }
    ensures upper_bound { result ≤ length list.old }
{
    if list.len() < SIDE {
        return 0;
    }
    if SIDE < index(sources) {
        return 0;
    }
    let mut marks = [0u8; SIDE];
    gather(octets, sources, list, &mut marks)
}
