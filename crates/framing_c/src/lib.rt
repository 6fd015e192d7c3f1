// The C interface of framing: numbers and lent slices (include/framing.h).
#![tactic(auto)]

ghost use Rattle.std.specs.Prelude.{◌≡◌};
ghost use Rattle.framing_packets.specs.Written.{frame, request_body, response_body, into, frame_into, message_into};
ghost use Rattle.framing_c.specs.Calls.{starts, calls, puts};

// A fresh session. 0, or 1 where the session has not four words.
#[tactic(auto, unfolding(crate::specs::Calls::starts))]
#[unsafe(no_mangle)]
pub extern "C" fn framing_start(session: &mut [u64]) -> u64
    ensures { starts session.old ≡ record { number = result; session = session.new } }
{
    if session.len() != 4 {
        return 1;
    }
    framing_words::put_session(session, framing::start());
    0
}

// Offers a chunk. The number of the event, or 0 where all was consumed and no event came, or 1.
#[unsafe(no_mangle)]
pub extern "C" fn framing_feed(
    session: &mut [u64],
    store: &mut [u8],
    chunk: &[u8],
    answer: &mut [u64],
) -> u64
    ensures { calls session.old store.old chunk.now answer.old
        ≡ record { number = result; session = session.new; store = store.new; answer = answer.new } }
{
    if framing_answers::accepts(session, store.len(), answer.len()) {
        let fed = framing::feed(framing_words::session_at(session), store, chunk);
        let event = fed.event;
        let next = fed.session;
        framing_words::put_session(session, next);
        framing_answers::put_answer(answer, event, fed.consumed, store.len());
        return framing_events::number(event);
    }
    1
}

// A frame around content without its CRC. 0 and the count of bytes written, or 46.
#[unsafe(no_mangle)]
pub extern "C" fn framing_write_frame(content: &[u8], out: &mut [u8], count: &mut u64) -> u64
    ensures { puts (frame_into content.now out.old) count.old
        ≡ record { number = result; output = out.new; count = count.new } }
{
    let result = framing_writer::write_frame(content, out);
    framing_answers::tell(result, count)
}

// The keep-alive request.
#[unsafe(no_mangle)]
pub extern "C" fn framing_write_request(out: &mut [u8], count: &mut u64) -> u64
    ensures { puts (into (frame request_body) out.old) count.old
        ≡ record { number = result; output = out.new; count = count.new } }
{
    let result = framing_writer::write_request(out);
    framing_answers::tell(result, count)
}

// The keep-alive response.
#[unsafe(no_mangle)]
pub extern "C" fn framing_write_response(out: &mut [u8], count: &mut u64) -> u64
    ensures { puts (into (frame response_body) out.old) count.old
        ≡ record { number = result; output = out.new; count = count.new } }
{
    let result = framing_writer::write_response(out);
    framing_answers::tell(result, count)
}

// A message as packets. 0 and the count of bytes written, or 46.
#[unsafe(no_mangle)]
pub extern "C" fn framing_write_message(message: &[u8], out: &mut [u8], count: &mut u64) -> u64
    ensures { puts (message_into message.now out.old) count.old
        ≡ record { number = result; output = out.new; count = count.new } }
{
    let result = framing_writer::write_message(message, out);
    framing_answers::tell(result, count)
}
