// tree: one request a line on standard input: a Glow message read into entries.
//
//   read HEX         with a table of 256 entries
//   read N HEX       with a table of N, 0 to 300
//   write HEX        read with a table of 256 entries, and what is read written again
//
// HEX is pairs of digits of either case, `-` for no bytes, up to 16,385 bytes. Any other line is answered with `bad line`.
//
// The answer is `1`; the refusal's NUMBER PLACE; `38 COUNT`; or `0 elements COUNT`, `0 streams COUNT` and a line for each
// entry: INDEX PARENT KIND (`-` for no parent) and ` NAME=VALUE` for each member that is present. To `write`, after a message that is read, it is
// `0 HEX`, the message written, or `46`.
//
// Numbers are decimal, flags true or false, paths and a connection's sources numbers with dots (`-` for none). Texts stand
// in double quotes, with `\` and two digits for each byte that is `"`, `\` or none of 20 to 7E. A member of any kind has
// its kind before it: int:, real: (64 bits), text:, bool:, octets: (HEX).
#![tactic(auto)]

mod entry;
mod show;
mod value;

use glow_reader::Answer;
use program_lines::input::{Answers, Refusal};
use program_lines::print::Hex;
use program_lines::{input, text};
use std::io;

// The space for a message read, a table and a message written.
#[derive(Drop)]
struct Tree {
    work: [u8; 16385],
    table: [[u64; 50]; 300],
    out: [u8; 16384],
}

fn read(rt: &impl Print, s: &[u8], table: &mut [[u64; 50]]) -> io::Result<()> {
    let found = glow_reader::read(s, table);
    show::answer(rt, s, table, found)
}

// Reads with the table and writes what was read.
fn write(rt: &impl Print, s: &[u8], table: &mut [[u64; 50]], out: &mut [u8]) -> io::Result<()> {
    let found = glow_reader::read(s, table);
    let Answer::Read { root, count } = found else {
        return show::answer(rt, s, table, found);
    };
    match glow_writer::write::write(table, count, root, s, out) {
        Some(n) => println!(rt; "0 {}", Hex(out.get(..n).unwrap_or_default())),
        None => println!(rt; "46"),
    }
}

// HEX or N HEX: the table's length and the message's digits.
fn asked(words: &[u8]) -> Option<(usize, &[u8])> {
    let mut parts = words.splitn(2, |b| *b == b' ');
    let first = parts.next()?;
    match parts.next() {
        None => Some((256, first)),
        Some(hex) => {
            let n = text::plain_number(first)?;
            Some((usize::try_from(n).ok()?, hex))
        }
    }
}

impl Answers for Tree {
    fn answer(&mut self, rt: &(impl Print + AllocGlobal), line: &[u8]) -> Result<(), Refusal> {
        let table: &mut [[u64; 50]] = &mut self.table;
        if let Some(hex) = line.strip_prefix(b"write ") {
            let s = text::octets(hex, &mut self.work).ok_or(Refusal::BadLine)?;
            let table = table.get_mut(..256).ok_or(Refusal::BadLine)?;
            write(rt, s, table, &mut self.out)?;
            return Ok(());
        }
        let words = line.strip_prefix(b"read ").ok_or(Refusal::BadLine)?;
        let (n, hex) = asked(words).ok_or(Refusal::BadLine)?;
        let s = text::octets(hex, &mut self.work).ok_or(Refusal::BadLine)?;
        let table = table.get_mut(..n).ok_or(Refusal::BadLine)?;
        read(rt, s, table)?;
        Ok(())
    }
}

fn main(rt: HostRuntime) -> io::Result<()> {
    let mut tree = Tree {
        work: [0; 16385],
        table: [[0; 50]; 300],
        out: [0; 16384],
    };
    input::serve(&rt, rt.stdin(), 32790, &mut tree)
}
