// What programs that answer one request a line share: the lines of the input, the parts of a request, the
// answers, and a test of outputs.
#![tactic(auto)]

pub mod input;
pub mod print;
pub mod room;
pub mod text;
