// The C library of supervision (crates/supervision_c/include/supervision.h): the calls of supervision_c, for an archive of their own.
#![tactic(auto)]

ghost use Rattle.std.specs.Prelude.{◌≡◌};
ghost use Rattle.supervision.specs.Order.{later_of};
ghost use Rattle.supervision_c.specs.Calls.{starts, calls};

// The start. 0, or 1 where the link has not two words.
#[unsafe(no_mangle)]
pub extern "C" fn supervision_start(link: &mut [u64], tick: u32) -> u64
    ensures { starts link.old tick ≡ record { number = result; link = link.new } }
{
    supervision_c::supervision_start(link, tick)
}

// Shows a tick and the number that a session call gave at it, 0 for none. What is to be done, or 1.
#[unsafe(no_mangle)]
pub extern "C" fn supervision_show(link: &mut [u64], tick: u32, number: u64) -> u64
    ensures { calls link.old tick number ≡ record { number = result; link = link.new } }
{
    supervision_c::supervision_show(link, tick, number)
}

// The tick to show, of the latest so far and one that may be behind it.
#[unsafe(no_mangle)]
pub extern "C" fn supervision_later(latest: u32, tick: u32) -> u32
    ensures { result ≡ later_of latest tick }
{
    supervision_c::supervision_later(latest, tick)
}
