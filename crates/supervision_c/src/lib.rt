// The C interface of supervision: numbers and lent slices (include/supervision.h).
#![tactic(auto)]

mod words;

ghost use Rattle.std.specs.Prelude.{◌≡◌};
ghost use Rattle.supervision.specs.Events.{happened_by};
ghost use Rattle.supervision.specs.Order.{later_of};
ghost use Rattle.supervision_c.specs.Words.{number_of};
ghost use Rattle.supervision_c.specs.Calls.{starts, calls};

use supervision::{Answer, Happened};

// What happened, by the number of a session call.
fn happened(number: u64) -> Happened
    ensures { result ≡ happened_by number }
{
    match number {
        0 | 1 => Happened::Nothing,
        4 => Happened::Request,
        _ => Happened::Event,
    }
}

// The numbers are those of include/supervision.h.
fn number_of(answer: Answer) -> u64
    ensures { result ≡ number_of answer }
{
    match answer {
        Answer::Nothing => 0,
        Answer::Ask => 2,
        Answer::Respond => 3,
        Answer::Dead => 4,
    }
}

// The start. 0, or 1 where the link has not two words.
#[unsafe(no_mangle)]
pub extern "C" fn supervision_start(link: &mut [u64], tick: u32) -> u64
    ensures { starts link.old tick ≡ record { number = result; link = link.new } }
{
    if link.len() != 2 {
        return 1;
    }
    words::put_link(link, supervision::start(tick));
    0
}

// Shows a tick and the number that a session call gave at it, 0 for none. What is to be done, or 1.
#[unsafe(no_mangle)]
pub extern "C" fn supervision_show(link: &mut [u64], tick: u32, number: u64) -> u64
    ensures { calls link.old tick number ≡ record { number = result; link = link.new } }
{
    let Some(before) = words::link_in(link) else {
        return 1;
    };
    let shown = supervision::show(before, tick, happened(number));
    words::put_link(link, shown.link);
    number_of(shown.answer)
}

// The tick to show, of the latest so far and one that may be behind it.
#[unsafe(no_mangle)]
pub extern "C" fn supervision_later(latest: u32, tick: u32) -> u32
    ensures { result ≡ later_of latest tick }
{
    supervision::later(latest, tick)
}
