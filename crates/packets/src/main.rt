// packets: one request a line on standard input, one answer a line: what the frame writer writes, in upper-case
// hexadecimal, or 46.
//
//   frame HEX        a frame around the content HEX, its CRC added
//   request          the keep-alive request
//   response         the keep-alive response
//   message HEX      the frames of a message, joined
//
// HEX is pairs of digits of either case, `-` for no bytes. Any other line is answered with `bad line`.
//
// The writer is called in one byte less than it takes (which must be 46 and leave the output as it was, else `room` is
// printed), and in exactly as many: that is printed.
#![tactic(auto)]

use program_lines::input::{Answers, Refusal};
use program_lines::{input, room, text};
use std::io;

// What a request asks to be written.
#[derive(Clone, Copy)]
enum Asked<'a> {
    Frame(&'a [u8]),
    Request,
    Response,
    Message(&'a [u8]),
}

impl room::Asked for Asked<'_> {
    fn write(self, out: &mut [u8]) -> Option<usize> {
        match self {
            Asked::Frame(content) => framing_writer::write_frame(content, out),
            Asked::Request => framing_writer::write_request(out),
            Asked::Response => framing_writer::write_response(out),
            Asked::Message(message) => framing_writer::write_message(message, out),
        }
    }
}

// What a line asks. The bytes of a frame or of a message are put into the work space.
fn parse<'a>(line: &[u8], work: &'a mut [u8]) -> Option<Asked<'a>> {
    if line == b"request".as_slice() {
        return Some(Asked::Request);
    }
    if line == b"response".as_slice() {
        return Some(Asked::Response);
    }
    if let Some(hex) = line.strip_prefix(b"frame ") {
        return Some(Asked::Frame(text::octets(hex, work)?));
    }
    let hex = line.strip_prefix(b"message ")?;
    Some(Asked::Message(text::octets(hex, work)?))
}

// The space for a frame's content or a message, and for what is written.
#[derive(Drop)]
struct Packets {
    work: [u8; 32768],
    out: [u8; 34850],
}

impl Answers for Packets {
    fn answer(&mut self, rt: &(impl Print + AllocGlobal), line: &[u8]) -> Result<(), Refusal> {
        let asked = parse(line, &mut self.work).ok_or(Refusal::BadLine)?;
        room::put(rt, asked, &mut self.out, 0)?;
        Ok(())
    }
}

fn main(rt: HostRuntime) -> io::Result<()> {
    // 17 packets of a message, each a frame of at most 2,050 bytes, fit.
    let mut packets = Packets {
        work: [0; 32768],
        out: [0; 34850],
    };
    input::serve(&rt, rt.stdin(), 65536, &mut packets)
}
