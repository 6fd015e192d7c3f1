// What the writer writes: frames, keep-alives and messages as packets (specs/Written.antt), and that the rules read it back (proofs/Back.antt). No function
// stands here.
#![tactic(auto)]

// The content of a frame without its CRC, and the payload of a packet.
pub const BODY_LIMIT: usize = 1022;

pub const PAYLOAD_LIMIT: usize = 1013;
