// The C library: session, writer of frames, tree reader, tree writer, desk, whole turns, route sheets; numbers and lent slices (include/ember.h).
#![tactic(auto)]

mod sheet;

ghost use Rattle.std.specs.Prelude.{◌≡◌, length};
ghost use Rattle.framing_packets.specs.Written.{frame, request_body, response_body, into, frame_into, message_into};
ghost use Rattle.framing_c.specs.Calls.{starts, calls, puts};
ghost use Rattle.glow_c.specs.Calls.{call, calls as read_calls, writing, write_calls, accept_calls};
ghost use Rattle.desk_crosspoints.specs.Desk.{desk_at, answer as answered};
ghost use Rattle.ember_answers.specs.Answers.{desk_call};
ghost use Rattle.ember.specs.Calls.{sizes, opens, legals, requests, desk_calls, turned, turns};
ghost use Rattle.ember.specs.Calls.{sheet_put, sheet_writes, sheet_call, sheet_reads};

use desk_crosspoints::Figures;

// ---- the session and the writer of frames

// A fresh session.
#[unsafe(no_mangle)]
pub extern "C" fn ember_start(session: &mut [u64]) -> u64
    ensures { starts session.old ≡ record { number = result; session = session.new } }
{
    framing_c::framing_start(session)
}

// Offers a chunk.
#[unsafe(no_mangle)]
pub extern "C" fn ember_feed(
    session: &mut [u64],
    store: &mut [u8],
    chunk: &[u8],
    answer: &mut [u64],
) -> u64
    ensures { calls session.old store.old chunk.now answer.old
        ≡ record { number = result; session = session.new; store = store.new; answer = answer.new } }
{
    framing_c::framing_feed(session, store, chunk, answer)
}

// A frame around content without its CRC.
#[unsafe(no_mangle)]
pub extern "C" fn ember_write_frame(content: &[u8], out: &mut [u8], count: &mut u64) -> u64
    ensures { puts (frame_into content.now out.old) count.old
        ≡ record { number = result; output = out.new; count = count.new } }
{
    framing_c::framing_write_frame(content, out, count)
}

// The keep-alive request.
#[unsafe(no_mangle)]
pub extern "C" fn ember_write_request(out: &mut [u8], count: &mut u64) -> u64
    ensures { puts (into (frame request_body) out.old) count.old
        ≡ record { number = result; output = out.new; count = count.new } }
{
    framing_c::framing_write_request(out, count)
}

// The keep-alive response.
#[unsafe(no_mangle)]
pub extern "C" fn ember_write_response(out: &mut [u8], count: &mut u64) -> u64
    ensures { puts (into (frame response_body) out.old) count.old
        ≡ record { number = result; output = out.new; count = count.new } }
{
    framing_c::framing_write_response(out, count)
}

// A message as packets.
#[unsafe(no_mangle)]
pub extern "C" fn ember_write_message(message: &[u8], out: &mut [u8], count: &mut u64) -> u64
    ensures { puts (message_into message.now out.old) count.old
        ≡ record { number = result; output = out.new; count = count.new } }
{
    framing_c::framing_write_message(message, out, count)
}

// ---- the tree

// Reads a message into the table's rows.
#[unsafe(no_mangle)]
pub extern "C" fn ember_read(message: &[u8], table: &mut [[u64; 50]], answer: &mut [u64]) -> u64
    ensures { read_calls message.now table.old answer.old ≡ call result table.new answer.new }
{
    glow_c::glow_read(message, table, answer)
}

// Writes the message of the first `count` rows.
#[unsafe(no_mangle)]
pub extern "C" fn ember_write(
    rows: &[[u64; 50]],
    count: usize,
    root: u64,
    message: &[u8],
    out: &mut [u8],
    answer: &mut [u64],
) -> u64
    ensures { write_calls rows.now count root message.now out.old answer.old
        ≡ writing result out.new answer.new }
{
    glow_c::glow_write(rows, count, root, message, out, answer)
}

// Whether the first `count` rows make a tree that the reader accepts: 1 or 0.
#[unsafe(no_mangle)]
pub extern "C" fn ember_accepts(rows: &[[u64; 50]], count: usize, root: u64, message: &[u8]) -> u64
    ensures { accept_calls rows.now count root message.now ≡ result }
{
    glow_c::glow_accepts(rows, count, root, message)
}

// ---- the desk

// How many crosspoints a host lends for a desk with these figures: targets times sources; 0 where the words are no figures, or figures out of range.
#[unsafe(no_mangle)]
pub extern "C" fn ember_desk_size(figures: &[u64]) -> u64
    ensures { sizes figures.now ≡ result }
{
    if desk_words::is_figures(figures) {
        return base_casts::word(desk_crosspoints::size(desk_words::figures_at(figures)));
    }
    0
}

// Opens a desk: 0 and its crosspoints cleared; 45 or 1, and they stay as they were.
#[unsafe(no_mangle)]
pub extern "C" fn ember_desk_open(
    figures: &[u64],
    mode: u64,
    path: &[u64],
    crosspoints: &mut [u8],
) -> u64
    ensures { opens figures.now path.now mode crosspoints.old ≡ answered result crosspoints.new }
{
    if desk_words::is_figures(figures) {
        return desk_crosspoints::open(desk_words::figures_at(figures), mode, path, crosspoints);
    }
    1
}

// Whether a desk is legal: 1 or 0.
#[unsafe(no_mangle)]
pub extern "C" fn ember_desk_is_legal(figures: &[u64], path: &[u64], crosspoints: &[u8]) -> u64
    ensures { legals figures.now path.now crosspoints.now ≡ result }
{
    if desk_words::is_figures(figures) {
        if desk_crosspoints::desk_is_legal(desk_words::figures_at(figures), path, crosspoints) {
            return 1;
        }
        return 0;
    }
    0
}

// One request: 0 and the crosspoints as asked for; 41 to 44 or 1, and they stay as they were.
#[unsafe(no_mangle)]
pub extern "C" fn ember_desk_request(
    figures: &[u64],
    target: u64,
    sources: &[u64],
    operation: u64,
    crosspoints: &mut [u8],
) -> u64
    ensures { requests figures.now target sources.now operation crosspoints.old
        ≡ answered result crosspoints.new }
{
    if desk_words::is_figures(figures) {
        return desk_calls::request(
            desk_words::figures_at(figures),
            target,
            sources,
            operation,
            crosspoints,
        );
    }
    1
}

// The desk's call on the first `count` rows, with the message beside them.
#[unsafe(no_mangle)]
pub extern "C" fn ember_desk_call(
    figures: &[u64],
    path: &[u64],
    rows: &[[u64; 50]],
    count: usize,
    root: u64,
    message: &[u8],
    crosspoints: &mut [u8],
    answers: &mut [u8; 256],
    answer: &mut [u64],
) -> u64
    ensures { desk_calls figures.now path.now root rows.now count message.now answers.old
        crosspoints.old answer.old
        ≡ desk_call result answers.new crosspoints.new answer.new }
{
    if answer.len() != 1 {
        return 1;
    }
    if desk_words::is_figures(figures) {
        let called = desk_calls::call(
            desk_words::figures_at(figures),
            path,
            rows,
            count,
            root,
            message,
            crosspoints,
        );
        return ember_answers::put_answers(called, answers, answer);
    }
    1
}

// ---- a whole turn

// The session's call, and what comes after it.
fn go(
    session: &mut [u64],
    store: &mut [u8],
    chunk: &[u8],
    table: &mut [[u64; 50]],
    f: Figures,
    path: &[u64],
    crosspoints: &mut [u8],
    answers: &mut [u8; 256],
    answer: &mut [u64],
) -> u64
    requires { length answer.old ≡ 9 }
    ensures { turned session.old store.old chunk.now (desk_at f path.now crosspoints.old)
        table.old answers.old answer.old
        ≡ record {
          number = result;
          session = session.new;
          store = store.new;
          table = table.new;
          crosspoints = crosspoints.new;
          answers = answers.new;
          answer = answer.new;
        } }
{
    let mut fed = [0u64; 3];
    let number = framing_c::framing_feed(session, store, chunk, &mut fed);
    if number == 1 {
        return 1;
    }
    let x = ember_answers::follow(number, store, fed[2], table, f, path, crosspoints);
    let given = x.answers;
    *answers = given;
    let came = x.after;
    ember_answers::put_answer(answer, fed[0], fed[1], fed[2], came);
    number
}

// A turn: the session's call on a chunk; if it gives 3, the tree reader's call on that message; if that gives 0, the desk's call on those entries.
#[unsafe(no_mangle)]
pub extern "C" fn ember_turn(
    session: &mut [u64],
    store: &mut [u8],
    chunk: &[u8],
    table: &mut [[u64; 50]],
    figures: &[u64],
    path: &[u64],
    crosspoints: &mut [u8],
    answers: &mut [u8; 256],
    answer: &mut [u64],
) -> u64
    ensures { turns session.old store.old chunk.now table.old figures.now
        path.now crosspoints.old answers.old answer.old
        ≡ record {
          number = result;
          session = session.new;
          store = store.new;
          table = table.new;
          crosspoints = crosspoints.new;
          answers = answers.new;
          answer = answer.new;
        } }
{
    if desk_words::is_figures(figures) {
        let f = desk_words::figures_at(figures);
        let size = desk_crosspoints::size(f);
        if ember_answers::lengths_fit(
            table.len(),
            size,
            crosspoints.len(),
            path.len(),
            answer.len(),
        ) {
            return go(
                session,
                store,
                chunk,
                table,
                f,
                path,
                crosspoints,
                answers,
                answer,
            );
        }
        return 1;
    }
    1
}

// ---- route sheets

// Writes a desk's sheet: 0, and its length in the answer's one word; 46 or 1, and the output as it was.
#[unsafe(no_mangle)]
pub extern "C" fn ember_sheet_write(
    figures: &[u64],
    path: &[u64],
    crosspoints: &[u8],
    out: &mut [u8],
    answer: &mut [u64],
) -> u64
    ensures { sheet_writes figures.now path.now crosspoints.now out.old answer.old
        ≡ sheet_put result out.new answer.new }
{
    if answer.len() != 1 {
        return 1;
    }
    if desk_words::is_figures(figures) {
        let a = sheet_writer::write(desk_words::figures_at(figures), path, crosspoints, out);
        return sheet::wrote(a, answer);
    }
    1
}

// Reads a sheet: 0 and a desk, its figures, path and crosspoints, with the path's length in the answer's one word; or the first refusal, and they stay as
// they were. The store is what the sheet's bytes leave there (crates/sheet_stream).
#[unsafe(no_mangle)]
pub extern "C" fn ember_sheet_read(
    text: &[u8],
    store: &mut [u8],
    figures: &mut [u64],
    path: &mut [u64],
    crosspoints: &mut [u8],
    answer: &mut [u64],
) -> u64
    ensures { sheet_reads text.now store.old figures.old path.old crosspoints.old
        answer.old
        ≡ sheet_call result store.new figures.new path.new crosspoints.new answer.new }
{
    if figures.len() != 7 {
        return 1;
    }
    if answer.len() != 1 {
        return 1;
    }
    let x = sheet_reader::read(text, store, path, crosspoints);
    sheet::read(x, figures, answer)
}
