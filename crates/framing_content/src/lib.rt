// What a frame's content is: its checksum and its header, checked in document 01's order.
#![tactic(auto)]

ghost use Rattle.std.specs.Prelude.{◌≡◌, ◌≤◌, length};
ghost use Rattle.framing_content.specs.Content.{packet_of, command_of, body_of, content_of};

// Why a frame or a run of bytes is refused, each with the number that specs/Numbers.antt gives it.
#[derive(Clone, Copy, PartialEq, Eq, Debug)]
pub enum Fault {
    Stray = 10,
    Cut = 11,
    Byte = 12,
    Long = 13,
    Escape = 14,
    Short = 15,
    Crc = 16,
    Header = 20,
    Flags = 21,
    Dtd = 22,
    Orphan = 23,
    Big = 24,
}

// What the content of a frame that is not refused is.
#[derive(Clone, Copy)]
pub enum Content {
    Request,
    Response,
    Piece { first: bool, last: bool },
}

// A body of command 00.
#[tactic(auto, unfolding(crate::specs::Content::packet_of))]
fn packet(body: &[u8]) -> Result<Content, Fault>
    ensures { result ≡ packet_of body.now }
{
    let n = body.len();
    if n < 9 {
        return Err(Fault::Header);
    }
    let flags = body[4];
    if flags % 32 != 0 || flags / 32 % 2 != u8::from(n == 9) {
        return Err(Fault::Flags);
    }
    if body[5] != 1 || body[6] != 2 || body[8] != 2 {
        return Err(Fault::Dtd);
    }
    Ok(Content::Piece {
        first: flags / 128 == 1,
        last: flags / 64 % 2 == 1,
    })
}

#[tactic(auto, unfolding(crate::specs::Content::command_of))]
fn command(body: &[u8]) -> Result<Content, Fault>
    requires { 4 ≤ length body.now }
    ensures { result ≡ command_of body.now }
{
    match body[2] {
        0 => packet(body),
        1 if body.len() == 4 => Ok(Content::Request),
        2 if body.len() == 4 => Ok(Content::Response),
        _ => Err(Fault::Header),
    }
}

#[tactic(auto, unfolding(crate::specs::Content::body_of))]
fn header(body: &[u8]) -> Result<Content, Fault>
    requires { 4 ≤ length body.now }
    ensures { result ≡ body_of body.now }
{
    if body[0] != 0 || body[1] != 0x0e || body[3] != 1 {
        return Err(Fault::Header);
    }
    command(body)
}

#[tactic(auto, unfolding(crate::specs::Content::content_of))]
pub fn content_of(s: &[u8]) -> Result<Content, Fault>
    ensures { result ≡ content_of s.now }
{
    let n = s.len();
    if n < 6 {
        return Err(Fault::Short);
    }
    let end = n - 2;
    let body = &s[..end];
    let sent = framing_checksum::joined(s[end], s[n - 1]);
    let found = framing_checksum::of(body);
    if sent != found {
        return Err(Fault::Crc);
    }
    header(body)
}
