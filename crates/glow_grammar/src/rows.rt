// Rows of the grammar besides those of the kinds of entry, which have the kind's number: the contents, all sets. 0 is no row.
pub const NONE: u64 = 0;

pub const PARAMETER_CONTENTS: u64 = 10;

pub const NODE_CONTENTS: u64 = 11;

pub const MATRIX_CONTENTS: u64 = 12;
