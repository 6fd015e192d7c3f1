// A supervisor for one connection (request 01). It is shown ticks and what happened, and says what to do: it asks for a
// keep-alive request in a silence, declares a silent link dead, and has every incoming request answered.
#![tactic(auto)]

ghost use Rattle.std.specs.Prelude.{◌≡◌, []};
ghost use Rattle.framing_session.specs.Session.{said_by};
ghost use Rattle.supervision.specs.Events.{happened_by};
ghost use Rattle.supervision.specs.Supervisor.{begun, elapsed, gone, waited, heard, shows};
ghost use Rattle.supervision.specs.Order.{later_of};

use framing::Event;

// A silence is due at this many milliseconds: for a request to be asked for, and after asking for the link to be dead.
const SILENCE: u32 = 5000;

// What is shown with a tick. An incoming request is an event too.
#[derive(Clone, Copy)]
pub enum Happened {
    Nothing,
    Event,
    Request,
}

// What is to be done: nothing; write a keep-alive request; write a keep-alive response; give the link up.
#[derive(Clone, Copy)]
pub enum Answer {
    Nothing,
    Ask,
    Respond,
    Dead,
}

// The supervisor's state: a silence, with the tick of the event that it began with; one in which a request was asked for,
// with the tick of asking; or a dead link.
#[derive(Clone, Copy)]
pub enum Link {
    Silent { since: u32 },
    Asked { since: u32 },
    Dead,
}

// What a showing answers, and the next state.
#[derive(Clone, Copy)]
pub struct Shown {
    pub answer: Answer,
    pub link: Link,
}

// The start counts as an event.
pub fn start(tick: u32) -> Link
    ensures { result ≡ begun tick }
{
    Link::Silent { since: tick }
}

// The milliseconds from one tick to a later one, of two that lie less than 2^32 apart.
fn gap(since: u32, tick: u32) -> u32
    ensures { result ≡ elapsed since tick }
{
    tick.wrapping_sub(since)
}

fn gives(answer: Answer, link: Link) -> Shown
    ensures { result ≡ record { answer = answer; link = link } }
{
    Shown { answer, link }
}

// A dead link is dead for good.
fn dead() -> Shown
    ensures { result ≡ gone }
{
    gives(Answer::Dead, Link::Dead)
}

// What is due, after what happened has counted.
fn wait(link: Link, tick: u32) -> Shown
    ensures { result ≡ waited link tick }
{
    match link {
        Link::Silent { since } => {
            if SILENCE <= gap(since, tick) {
                return gives(Answer::Ask, Link::Asked { since: tick });
            }
            gives(Answer::Nothing, Link::Silent { since })
        }
        Link::Asked { since } => {
            if SILENCE <= gap(since, tick) {
                return dead();
            }
            gives(Answer::Nothing, Link::Asked { since })
        }
        Link::Dead => dead(),
    }
}

// An event begins a new silence, save on a dead link.
fn hear(link: Link, tick: u32) -> Link
    ensures { result ≡ heard link tick }
{
    match link {
        Link::Silent { .. } | Link::Asked { .. } => Link::Silent { since: tick },
        Link::Dead => Link::Dead,
    }
}

// Shows the supervisor a tick and what happened at it. An event counts first.
pub fn show(link: Link, tick: u32, happened: Happened) -> Shown
    ensures { result ≡ shows link tick happened }
{
    match happened {
        Happened::Nothing => wait(link, tick),
        Happened::Event => {
            let next = hear(link, tick);
            wait(next, tick)
        }
        Happened::Request => {
            let next = hear(link, tick);
            gives(Answer::Respond, next)
        }
    }
}

// What to show of a session call's event: each from 2 on counts, 4 is an incoming request; 0 and 1 are no events.
pub fn happening(event: Event) -> Happened
    ensures { result ≡ happened_by (said_by event []).number }
{
    match event {
        Event::More | Event::Setup => Happened::Nothing,
        Event::Request => Happened::Request,
        Event::Piece { .. } | Event::Message { .. } | Event::Response | Event::Refused { .. } => {
            Happened::Event
        }
    }
}

// For hosts that cannot promise order: the tick to show, of the latest so far and one that may be behind it.
pub fn later(latest: u32, tick: u32) -> u32
    ensures { result ≡ later_of latest tick }
{
    if gap(latest, tick) < 2147483648 {
        return tick;
    }
    latest
}
