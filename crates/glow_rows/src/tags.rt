// What a cell holds: the universal tag number of its value.
pub const ABSENT: u64 = 0;

pub const BOOLEAN: u64 = 1;

pub const INTEGER: u64 = 2;

pub const OCTETS: u64 = 4;

pub const REAL: u64 = 9;

pub const TEXT: u64 = 12;
// A relative identifier: a path, or the sources of a connection.
pub const NUMBERS: u64 = 13;
