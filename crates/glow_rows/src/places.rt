// The cell that keeps each member of an entry.

// Every element: its number or path; of its contents, identifier and description.
pub const KEY: usize = 0;

pub const IDENTIFIER: usize = 1;

pub const DESCRIPTION: usize = 2;

// The contents of a parameter.
pub const VALUE: usize = 3;

pub const MINIMUM: usize = 4;

pub const MAXIMUM: usize = 5;

pub const ACCESS: usize = 6;

pub const FACTOR: usize = 9;

pub const ONLINE: usize = 10;

pub const STEP: usize = 12;

pub const STREAM: usize = 15;

// The contents of a node.
pub const ROOT: usize = 3;

pub const NODE_ONLINE: usize = 4;

// The contents of a matrix.
pub const MATRIX_TYPE: usize = 3;

pub const MODE: usize = 4;

pub const TARGETS: usize = 5;

pub const SOURCES: usize = 6;

pub const TOTAL_LIMIT: usize = 7;

pub const TARGET_LIMIT: usize = 8;

// A command.
pub const COMMAND_NUMBER: usize = 0;

pub const MASK: usize = 1;

// A connection.
pub const TARGET: usize = 0;

pub const CONNECTION_SOURCES: usize = 1;

pub const OPERATION: usize = 2;

// A stream entry.
pub const STREAM_NUMBER: usize = 0;

pub const STREAM_VALUE: usize = 1;
