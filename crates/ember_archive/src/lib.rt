// The C library (crates/ember/include/ember.h): the calls of ember, for an archive of their own.
#![tactic(auto)]

ghost use Rattle.std.specs.Prelude.{◌≡◌};
ghost use Rattle.framing_packets.specs.Written.{frame, request_body, response_body, into, frame_into, message_into};
ghost use Rattle.framing_c.specs.Calls.{starts, calls, puts};
ghost use Rattle.glow_c.specs.Calls.{call, calls as read_calls, writing, write_calls, accept_calls};
ghost use Rattle.desk_crosspoints.specs.Desk.{answer as answered};
ghost use Rattle.ember_answers.specs.Answers.{desk_call};
ghost use Rattle.ember.specs.Calls.{sizes, opens, legals, requests, desk_calls, turns};
ghost use Rattle.ember.specs.Calls.{sheet_put, sheet_writes, sheet_call, sheet_reads};

// A fresh session.
#[unsafe(no_mangle)]
pub extern "C" fn ember_start(session: &mut [u64]) -> u64
    ensures { starts session.old ≡ record { number = result; session = session.new } }
{
    ember::ember_start(session)
}

// Offers a chunk.
#[unsafe(no_mangle)]
pub extern "C" fn ember_feed(
    session: &mut [u64],
    store: &mut [u8],
    chunk: &[u8],
    answer: &mut [u64],
) -> u64
    ensures { calls session.old store.old chunk.now answer.old
        ≡ record { number = result; session = session.new; store = store.new; answer = answer.new } }
{
    ember::ember_feed(session, store, chunk, answer)
}

// A frame around content without its CRC.
#[unsafe(no_mangle)]
pub extern "C" fn ember_write_frame(content: &[u8], out: &mut [u8], count: &mut u64) -> u64
    ensures { puts (frame_into content.now out.old) count.old
        ≡ record { number = result; output = out.new; count = count.new } }
{
    ember::ember_write_frame(content, out, count)
}

// The keep-alive request.
#[unsafe(no_mangle)]
pub extern "C" fn ember_write_request(out: &mut [u8], count: &mut u64) -> u64
    ensures { puts (into (frame request_body) out.old) count.old
        ≡ record { number = result; output = out.new; count = count.new } }
{
    ember::ember_write_request(out, count)
}

// The keep-alive response.
#[unsafe(no_mangle)]
pub extern "C" fn ember_write_response(out: &mut [u8], count: &mut u64) -> u64
    ensures { puts (into (frame response_body) out.old) count.old
        ≡ record { number = result; output = out.new; count = count.new } }
{
    ember::ember_write_response(out, count)
}

// A message as packets.
#[unsafe(no_mangle)]
pub extern "C" fn ember_write_message(message: &[u8], out: &mut [u8], count: &mut u64) -> u64
    ensures { puts (message_into message.now out.old) count.old
        ≡ record { number = result; output = out.new; count = count.new } }
{
    ember::ember_write_message(message, out, count)
}

// Reads a message into the table's rows.
#[unsafe(no_mangle)]
pub extern "C" fn ember_read(message: &[u8], table: &mut [[u64; 50]], answer: &mut [u64]) -> u64
    ensures { read_calls message.now table.old answer.old ≡ call result table.new answer.new }
{
    ember::ember_read(message, table, answer)
}

// Writes the message of the first `count` rows.
#[unsafe(no_mangle)]
pub extern "C" fn ember_write(
    rows: &[[u64; 50]],
    count: usize,
    root: u64,
    message: &[u8],
    out: &mut [u8],
    answer: &mut [u64],
) -> u64
    ensures { write_calls rows.now count root message.now out.old answer.old
        ≡ writing result out.new answer.new }
{
    ember::ember_write(rows, count, root, message, out, answer)
}

// Whether the first `count` rows make a tree that the reader accepts: 1 or 0.
#[unsafe(no_mangle)]
pub extern "C" fn ember_accepts(rows: &[[u64; 50]], count: usize, root: u64, message: &[u8]) -> u64
    ensures { accept_calls rows.now count root message.now ≡ result }
{
    ember::ember_accepts(rows, count, root, message)
}

// How many crosspoints a host lends for a desk with these figures: targets times sources; 0 where the words are no figures, or figures out of range.
#[unsafe(no_mangle)]
pub extern "C" fn ember_desk_size(figures: &[u64]) -> u64
    ensures { sizes figures.now ≡ result }
{
    ember::ember_desk_size(figures)
}

// Opens a desk: 0 and its crosspoints cleared; 45 or 1, and they stay as they were.
#[unsafe(no_mangle)]
pub extern "C" fn ember_desk_open(
    figures: &[u64],
    mode: u64,
    path: &[u64],
    crosspoints: &mut [u8],
) -> u64
    ensures { opens figures.now path.now mode crosspoints.old ≡ answered result crosspoints.new }
{
    ember::ember_desk_open(figures, mode, path, crosspoints)
}

// Whether a desk is legal: 1 or 0.
#[unsafe(no_mangle)]
pub extern "C" fn ember_desk_is_legal(figures: &[u64], path: &[u64], crosspoints: &[u8]) -> u64
    ensures { legals figures.now path.now crosspoints.now ≡ result }
{
    ember::ember_desk_is_legal(figures, path, crosspoints)
}

// One request: 0 and the crosspoints as asked for; 41 to 44 or 1, and they stay as they were.
#[unsafe(no_mangle)]
pub extern "C" fn ember_desk_request(
    figures: &[u64],
    target: u64,
    sources: &[u64],
    operation: u64,
    crosspoints: &mut [u8],
) -> u64
    ensures { requests figures.now target sources.now operation crosspoints.old
        ≡ answered result crosspoints.new }
{
    ember::ember_desk_request(figures, target, sources, operation, crosspoints)
}

// The desk's call on the first `count` rows, with the message beside them.
#[unsafe(no_mangle)]
pub extern "C" fn ember_desk_call(
    figures: &[u64],
    path: &[u64],
    rows: &[[u64; 50]],
    count: usize,
    root: u64,
    message: &[u8],
    crosspoints: &mut [u8],
    answers: &mut [u8; 256],
    answer: &mut [u64],
) -> u64
    ensures { desk_calls figures.now path.now root rows.now count message.now answers.old
        crosspoints.old answer.old
        ≡ desk_call result answers.new crosspoints.new answer.new }
{
    ember::ember_desk_call(
        figures,
        path,
        rows,
        count,
        root,
        message,
        crosspoints,
        answers,
        answer,
    )
}

// A turn: the session's call on a chunk; if it gives 3, the tree reader's call on that message; if that gives 0, the desk's call on those entries.
#[unsafe(no_mangle)]
pub extern "C" fn ember_turn(
    session: &mut [u64],
    store: &mut [u8],
    chunk: &[u8],
    table: &mut [[u64; 50]],
    figures: &[u64],
    path: &[u64],
    crosspoints: &mut [u8],
    answers: &mut [u8; 256],
    answer: &mut [u64],
) -> u64
    ensures { turns session.old store.old chunk.now table.old figures.now
        path.now crosspoints.old answers.old answer.old
        ≡ record {
          number = result;
          session = session.new;
          store = store.new;
          table = table.new;
          crosspoints = crosspoints.new;
          answers = answers.new;
          answer = answer.new;
        } }
{
    ember::ember_turn(
        session,
        store,
        chunk,
        table,
        figures,
        path,
        crosspoints,
        answers,
        answer,
    )
}

// Writes a desk's sheet: 0, and its length in the answer's one word; 46 or 1, and the output as it was.
#[unsafe(no_mangle)]
pub extern "C" fn ember_sheet_write(
    figures: &[u64],
    path: &[u64],
    crosspoints: &[u8],
    out: &mut [u8],
    answer: &mut [u64],
) -> u64
    ensures { sheet_writes figures.now path.now crosspoints.now out.old answer.old
        ≡ sheet_put result out.new answer.new }
{
    ember::ember_sheet_write(figures, path, crosspoints, out, answer)
}

// Reads a sheet: 0 and a desk, its figures, path and crosspoints, with the path's length in the answer's one word; or the first refusal, and they stay as
// they were. The store is what the sheet's bytes leave there (crates/sheet_stream).
#[unsafe(no_mangle)]
pub extern "C" fn ember_sheet_read(
    text: &[u8],
    store: &mut [u8],
    figures: &mut [u64],
    path: &mut [u64],
    crosspoints: &mut [u8],
    answer: &mut [u64],
) -> u64
    ensures { sheet_reads text.now store.old figures.old path.old crosspoints.old
        answer.old
        ≡ sheet_call result store.new figures.new path.new crosspoints.new answer.new }
{
    ember::ember_sheet_read(text, store, figures, path, crosspoints, answer)
}
