// The kinds of entry: word 0 of a row. Numbers, since rows are the C interface's (crates/glow_c/include/glow.h).
pub const PARAMETER: u64 = 1;

pub const COMMAND: u64 = 2;

pub const NODE: u64 = 3;

pub const MATRIX: u64 = 4;

pub const QUALIFIED_PARAMETER: u64 = 5;

pub const QUALIFIED_NODE: u64 = 6;

pub const QUALIFIED_MATRIX: u64 = 7;

pub const CONNECTION: u64 = 8;

pub const STREAM_ENTRY: u64 = 9;
