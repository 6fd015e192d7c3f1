// Output: a byte put where there is room.
#![tactic(auto)]

ghost use Rattle.std.specs.Prelude.{◌≡◌, ◌+◌, ◌≤◌, ◌<◌, [], ◌∷◌};
ghost use Rattle.base_output.specs.Output.{wrote, last_place};

// A byte, put only where the output has a place for it, and the place after it. So over an output of no bytes it counts.
pub fn put(out: &mut [u8], at: usize, b: u8) -> usize
    ensures b_value { at < last_place → wrote out.old at (b ∷ []) ≡ record { next = result; output = out.new } }
    ensures upper_bound { result ≤ at + 1 }
{
    if at < out.len() {
        out[at] = b;
        return at + 1;
    }
    if at < usize::MAX {
        return at + 1;
    }
    at
}
