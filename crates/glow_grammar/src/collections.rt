// The collections, and Root's kind where its tag names none.
pub const ROOT_ELEMENTS: u64 = 0;

pub const CHILDREN: u64 = 1;

pub const CONNECTIONS: u64 = 2;

pub const STREAMS: u64 = 3;

pub const NO_ROOT: u64 = 4;

// How many containers may be open at once, and how many are left in Root and in its collection.
pub const DEPTH: usize = 64;

pub const IN_ROOT: usize = DEPTH - 1;

pub const IN_COLLECTION: usize = DEPTH - 2;
