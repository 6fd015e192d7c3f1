// What the C interface of framing answers in numbers: which calls are no SETUP, the words of a call's answer, what the writer told.
#![tactic(auto)]

ghost use Rattle.std.specs.Prelude.{◌≡◌};
ghost use Rattle.framing_answers.specs.Answers.{accepts as is_accepted, answer_put, tells};

use framing_session::Event;

// Whether a call is no SETUP: of the session's words, a store of n bytes, and an answer of k words.
#[tactic(auto, unfolding(crate::specs::Answers::accepts))]
pub fn accepts(session: &[u64], n: usize, k: usize) -> bool
    ensures { result ≡ is_accepted session.now n k }
{
    k == 3
        && framing_words::is_session(session)
        && framing_session::is_legal(framing_words::session_at(session), n)
}

// The answer of a call that gave this event and consumed this many bytes, with a store of n bytes. Any slice but one of three words stays as it was.
#[tactic(auto, unfolding(crate::specs::Answers::answer_put))]
pub fn put_answer(answer: &mut [u64], event: Event, consumed: usize, n: usize)
    ensures { answer.new ≡ answer_put answer.old event consumed n }
{
    if answer.len() == 3 {
        answer.copy_from_slice(&[
            u64::from(framing_events::is_discarded(event)),
            consumed as u64,
            // A finished message's bytes are the store's first, so there are no more than the store has.
            framing_events::message_length(event).min(n) as u64,
        ]);
    }
}

// What the writer answered: 0 and the count of bytes, or 46.
pub fn tell(res: Option<usize>, count: &mut u64) -> u64
    ensures { tells res count.old ≡ record { number = result; count = count.new } }
{
    match res {
        Some(length) => {
            *count = length as u64;
            0
        }
        None => 46,
    }
}
