// The C library of framing (crates/framing_c/include/framing.h): the calls of framing_c, for an archive of their own.
#![tactic(auto)]

ghost use Rattle.std.specs.Prelude.{◌≡◌};
ghost use Rattle.framing_packets.specs.Written.{frame, request_body, response_body, into, frame_into, message_into};
ghost use Rattle.framing_c.specs.Calls.{starts, calls, puts};

// A fresh session. 0, or 1 where the session has not four words.
#[unsafe(no_mangle)]
pub extern "C" fn framing_start(session: &mut [u64]) -> u64
    ensures { starts session.old ≡ record { number = result; session = session.new } }
{
    framing_c::framing_start(session)
}

// Offers a chunk. The number of the event, or 0 where all was consumed and no event came, or 1.
#[unsafe(no_mangle)]
pub extern "C" fn framing_feed(
    session: &mut [u64],
    store: &mut [u8],
    chunk: &[u8],
    answer: &mut [u64],
) -> u64
    ensures { calls session.old store.old chunk.now answer.old
        ≡ record { number = result; session = session.new; store = store.new; answer = answer.new } }
{
    framing_c::framing_feed(session, store, chunk, answer)
}

// A frame around content without its CRC. 0 and the count of bytes written, or 46.
#[unsafe(no_mangle)]
pub extern "C" fn framing_write_frame(content: &[u8], out: &mut [u8], count: &mut u64) -> u64
    ensures { puts (frame_into content.now out.old) count.old
        ≡ record { number = result; output = out.new; count = count.new } }
{
    framing_c::framing_write_frame(content, out, count)
}

// The keep-alive request.
#[unsafe(no_mangle)]
pub extern "C" fn framing_write_request(out: &mut [u8], count: &mut u64) -> u64
    ensures { puts (into (frame request_body) out.old) count.old
        ≡ record { number = result; output = out.new; count = count.new } }
{
    framing_c::framing_write_request(out, count)
}

// The keep-alive response.
#[unsafe(no_mangle)]
pub extern "C" fn framing_write_response(out: &mut [u8], count: &mut u64) -> u64
    ensures { puts (into (frame response_body) out.old) count.old
        ≡ record { number = result; output = out.new; count = count.new } }
{
    framing_c::framing_write_response(out, count)
}

// A message as packets. 0 and the count of bytes written, or 46.
#[unsafe(no_mangle)]
pub extern "C" fn framing_write_message(message: &[u8], out: &mut [u8], count: &mut u64) -> u64
    ensures { puts (message_into message.now out.old) count.old
        ≡ record { number = result; output = out.new; count = count.new } }
{
    framing_c::framing_write_message(message, out, count)
}
