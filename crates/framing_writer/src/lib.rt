// The S101 writer: frames, keep-alives and messages as packets, into a lent output.
#![tactic(auto)]

ghost use Rattle.std.specs.Prelude.{◌≡◌, ◌+◌, ◌*◌, ◌/◌, ◌%◌, ◌≤◌, ◌<◌, [], ◌∷◌, ◌++◌, length};
ghost use Rattle.base_choices.specs.Choices.{pick};
ghost use Rattle.framing_content.specs.Numbers.{message_limit};
ghost use Rattle.framing_packets.specs.Written.{escape, escapes, frame, body_limit, request_body, response_body, flags, packet, payload_limit};
ghost use Rattle.framing_packets.specs.Written.{in_packets, outcome, into, frame_into, message_into};
ghost use Rattle.base_output.specs.Output.{wrote};
ghost use Rattle.framing_writer.specs.Steps.{room};

use base_output::put;
pub use framing_packets::{BODY_LIMIT, PAYLOAD_LIMIT};
use framing_session::{BOF, CE, EOF, MESSAGE_LIMIT};

// Over an output of no bytes these functions count (`put`).
fn emit_escaped(out: &mut [u8], at: usize, b: u8) -> usize
    requires { at + 2 ≤ room }
    ensures b_value { wrote out.old at (escape b) ≡ record { next = result; output = out.new } }
    ensures upper_bound { result ≤ at + 2 }
{
    if 0xf8 <= b {
        let next = put(out, at, CE);
        put(out, next, b ^ 0x20)
    } else {
        put(out, at, b)
    }
}

fn emit_slice(out: &mut [u8], at: usize, s: &[u8]) -> usize
    requires { at + 2 * length s.now ≤ room }
    ensures s_value { wrote out.old at (escapes s.now) ≡ record { next = result; output = out.new } }
    ensures upper_bound { result ≤ at + 2 * length s.now }
{
    let mut next = at;
    for b in s {
        next = emit_escaped(out, next, *b);
    }
    next
}

// A frame whose content is in two parts.
fn emit_frame(out: &mut [u8], at: usize, head: &[u8], rest: &[u8]) -> usize
    requires { (at + 2050 ≤ room) × (length head.now + length rest.now ≤ body_limit) }
    ensures rest_value { wrote out.old at (frame (head.now ++ rest.now)) ≡ record { next = result; output = out.new } }
    ensures upper_bound { result ≤ at + 2050 }
{
    let crc = 0xffff - framing_checksum::crc_from(framing_checksum::crc_from(0xffff, head), rest);
    let [low, high] = crc.to_le_bytes();
    let opened = put(out, at, BOF);
    let headed = emit_slice(out, opened, head);
    let filled = emit_slice(out, headed, rest);
    let first = emit_escaped(out, filled, low);
    let second = emit_escaped(out, first, high);
    put(out, second, EOF)
}

fn packet_flags(first: bool, last: bool, length: usize) -> u8
    ensures { result ≡ flags first last length }
{
    0x80 * u8::from(first) + 0x40 * u8::from(last) + 0x20 * u8::from(length == 0)
}

fn emit_packet(out: &mut [u8], at: usize, first: bool, last: bool, payload: &[u8]) -> usize
    requires { (at + 2050 ≤ room) × (length payload.now ≤ payload_limit) }
    ensures payload_value { wrote out.old at (packet first last payload.now) ≡ record { next = result; output = out.new } }
    ensures upper_bound { result ≤ at + 2050 }
{
    let f = packet_flags(first, last, payload.len());
    let header = [0x00, 0x0e, 0x00, 0x01, f, 0x01, 0x02, 0x14, 0x02];
    emit_frame(out, at, &header, payload)
}

fn emit_message(out: &mut [u8], message: &[u8]) -> usize
    requires { length message.now ≤ message_limit }
    ensures { wrote out.old 0 (in_packets message.now) ≡ record { next = result; output = out.new } }
{
    let mut at = 0;
    let mut first = true;
    let mut rest = message;
    while PAYLOAD_LIMIT < rest.len() {
        let (payload, later) = rest.split_at(PAYLOAD_LIMIT);
        at = emit_packet(out, at, first, false, payload);
        first = false;
        rest = later;
    }
    emit_packet(out, at, first, true, rest)
}

// A frame around a body: content without its CRC.
pub fn write_frame(body: &[u8], out: &mut [u8]) -> Option<usize>
    ensures { frame_into body.now out.old ≡ outcome result out.new }
{
    if BODY_LIMIT < body.len() {
        return None;
    }
    let length = emit_frame(&mut out[..0], 0, &body[..0], body);
    if out.len() < length {
        return None;
    }
    emit_frame(out, 0, &body[..0], body);
    Some(length)
}

// The keep-alive request.
pub fn write_request(out: &mut [u8]) -> Option<usize>
    ensures { into (frame request_body) out.old ≡ outcome result out.new }
{
    write_frame(&[0x00, 0x0e, 0x01, 0x01], out)
}

// The keep-alive response.
pub fn write_response(out: &mut [u8]) -> Option<usize>
    ensures { into (frame response_body) out.old ≡ outcome result out.new }
{
    write_frame(&[0x00, 0x0e, 0x02, 0x01], out)
}

// A message as packets.
pub fn write_message(message: &[u8], out: &mut [u8]) -> Option<usize>
    ensures { message_into message.now out.old ≡ outcome result out.new }
{
    if MESSAGE_LIMIT < message.len() {
        return None;
    }
    let total = emit_message(&mut out[..0], message);
    if out.len() < total {
        return None;
    }
    emit_message(out, message);
    Some(total)
}
