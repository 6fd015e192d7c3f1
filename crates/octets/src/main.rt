// octets: one request a line on standard input, one answer a line: EmBER octets read and written.
//
//   read int|real|bool|tag|oid HEX      content octets (of `tag`, a tag's and a length's own) as the kind; or 30, 35, range
//   read value AT BOUND HEX             the value whose tag stands at AT of the message HEX, in a container that ends at
//                                       BOUND (`-`: none): KIND CONTENT NEXT, with NEXT the position after it; `other` for
//                                       a tag that is no value's; or the refusal's NUMBER PLACE
//   write int|real|bool|tag|length|oid CONTENT    the octets; or 46
//   write value KIND CONTENT            the value with its tag and length; or 46
//
// KIND is int, real, text, bool or octets. Of int the content is decimal, of real the double's 64 bits in hexadecimal, of
// bool true or false, of text and octets HEX. HEX is pairs of digits of either case, `-` for no octets.
//
// Readers and writers are called at a position other than 0. A writer is called in one octet less than it takes (which
// must be 46 and leave the output as it was, else `room` is printed), and in exactly as many: that is printed.
#![tactic(auto)]

mod read;
mod write;

use program_lines::input;
use program_lines::input::{Answers, Refusal};
use std::io;

// Where in the message content octets and tags are read, and where in the output they are written; what stands around
// them is left from earlier requests.
const AT: usize = 3;

// The space for a request's octets, and for what is written.
#[derive(Drop)]
struct Octets {
    work: [u8; 8192],
    out: [u8; 8200],
}

impl Answers for Octets {
    fn answer(&mut self, rt: &(impl Print + AllocGlobal), line: &[u8]) -> Result<(), Refusal> {
        if let Some(words) = line.strip_prefix(b"read ") {
            return read::answer(rt, words, &mut self.work);
        }
        let words = line.strip_prefix(b"write ").ok_or(Refusal::BadLine)?;
        write::answer(rt, words, &mut self.work, &mut self.out)
    }
}

fn main(rt: HostRuntime) -> io::Result<()> {
    let mut octets = Octets {
        work: [0; 8192],
        out: [0; 8200],
    };
    input::serve(&rt, rt.stdin(), 16384, &mut octets)
}
