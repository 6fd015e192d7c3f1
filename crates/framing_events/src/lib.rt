// What an event says, as numbers: document 01's number, whether an unfinished message was thrown away, and how many
// bytes at the store's start are the message.
#![tactic(auto)]

ghost use Rattle.std.specs.Prelude.{◌≡◌, []};
ghost use Rattle.framing_session.specs.Session.{said_by};
ghost use Rattle.framing_events.specs.Events.{length_of};

use framing_session::Event;

// The event's number, as in document 01.
pub fn number(event: Event) -> u64
    ensures { result ≡ (said_by event []).number }
{
    match event {
        Event::More => 0,
        Event::Setup => 1,
        Event::Piece { .. } => 2,
        Event::Message { .. } => 3,
        Event::Request => 4,
        Event::Response => 5,
        Event::Refused { fault, .. } => fault as u64,
    }
}

// Whether a message that was being put together was thrown away.
pub fn is_discarded(event: Event) -> bool
    ensures { result ≡ (said_by event []).discarded }
{
    match event {
        Event::Piece { discarded }
        | Event::Message { discarded, .. }
        | Event::Refused { discarded, .. } => discarded,
        Event::More | Event::Setup | Event::Request | Event::Response => false,
    }
}

// The length of a finished message, 0 for every other event.
pub fn message_length(event: Event) -> usize
    ensures { result ≡ length_of event }
{
    match event {
        Event::Message { length, .. } => length,
        _ => 0,
    }
}
