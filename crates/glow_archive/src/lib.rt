// The C library of the tree (crates/glow_c/include/glow.h): the calls of glow_c, for an archive of their own.
#![tactic(auto)]

ghost use Rattle.std.specs.Prelude.{◌≡◌};
ghost use Rattle.glow_c.specs.Calls.{call, calls, writing, write_calls, accept_calls};

// Reads a message into the table's rows. 0, or the number of what is refused; the answer's three words are the place, the count and Root's kind.
#[unsafe(no_mangle)]
pub extern "C" fn glow_read(message: &[u8], table: &mut [[u64; 50]], answer: &mut [u64]) -> u64
    ensures { calls message.now table.old answer.old ≡ call result table.new answer.new }
{
    glow_c::glow_read(message, table, answer)
}

// Writes the message of the first `count` rows, whose texts, octets, paths and sources are parts of `message`, into the output. 0, and its length in the
// answer's one word; or 46, and the output as it was.
#[unsafe(no_mangle)]
pub extern "C" fn glow_write(
    rows: &[[u64; 50]],
    count: usize,
    root: u64,
    message: &[u8],
    out: &mut [u8],
    answer: &mut [u64],
) -> u64
    ensures { write_calls rows.now count root message.now out.old answer.old
        ≡ writing result out.new answer.new }
{
    glow_c::glow_write(rows, count, root, message, out, answer)
}

// Whether the first `count` rows make a tree that the reader accepts: 1 or 0.
#[unsafe(no_mangle)]
pub extern "C" fn glow_accepts(rows: &[[u64; 50]], count: usize, root: u64, message: &[u8]) -> u64
    ensures { accept_calls rows.now count root message.now ≡ result }
{
    glow_c::glow_accepts(rows, count, root, message)
}
