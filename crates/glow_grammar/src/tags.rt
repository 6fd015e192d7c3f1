// The tags of Glow: classes, and each number once.
pub const UNIVERSAL: u64 = 0;

pub const APPLICATION: u64 = 1;

pub const CONTEXT: u64 = 2;

// Application numbers of Root, of each kind of entry and of the collections.
pub const ROOT: u64 = 0;

pub const PARAMETER: u64 = 1;

pub const COMMAND: u64 = 2;

pub const NODE: u64 = 3;

pub const ELEMENT_COLLECTION: u64 = 4;

pub const STREAM_COLLECTION: u64 = 5;

pub const STREAM_ENTRY: u64 = 6;

pub const QUALIFIED_PARAMETER: u64 = 9;

pub const QUALIFIED_NODE: u64 = 10;

pub const ROOT_ELEMENT_COLLECTION: u64 = 11;

pub const MATRIX: u64 = 13;

pub const CONNECTION: u64 = 16;

pub const QUALIFIED_MATRIX: u64 = 17;

// Universal numbers of connections and of contents.
pub const SEQUENCE: u64 = 16;

pub const SET: u64 = 17;

// Context numbers: of an item, and of the members that hold contents, children and connections.
pub const ITEM: u64 = 0;

pub const CONTENTS_MEMBER: u64 = 1;

pub const KIDS_MEMBER: u64 = 2;

pub const LINKS_MEMBER: u64 = 5;

// Above every tag number.
pub const PAST_ALL: u64 = 268435456;

// The octets of constructed tags, to which a number below 31 is added.
pub const UNIVERSAL_OCTET: u8 = 0x20;

pub const APPLICATION_OCTET: u8 = 0x60;

pub const CONTEXT_OCTET: u8 = 0xa0;

pub const ITEM_OCTET: u8 = CONTEXT_OCTET + (ITEM as u8);

pub const ROOT_OCTET: u8 = APPLICATION_OCTET + (ROOT as u8);

pub const SET_OCTET: u8 = UNIVERSAL_OCTET + (SET as u8);

pub const SEQUENCE_OCTET: u8 = UNIVERSAL_OCTET + (SEQUENCE as u8);

pub const ELEMENT_COLLECTION_OCTET: u8 = APPLICATION_OCTET + (ELEMENT_COLLECTION as u8);

pub const STREAM_COLLECTION_OCTET: u8 = APPLICATION_OCTET + (STREAM_COLLECTION as u8);

pub const ROOT_ELEMENT_COLLECTION_OCTET: u8 = APPLICATION_OCTET + (ROOT_ELEMENT_COLLECTION as u8);

pub const PARAMETER_OCTET: u8 = APPLICATION_OCTET + (PARAMETER as u8);

pub const COMMAND_OCTET: u8 = APPLICATION_OCTET + (COMMAND as u8);

pub const NODE_OCTET: u8 = APPLICATION_OCTET + (NODE as u8);

pub const MATRIX_OCTET: u8 = APPLICATION_OCTET + (MATRIX as u8);

pub const QUALIFIED_PARAMETER_OCTET: u8 = APPLICATION_OCTET + (QUALIFIED_PARAMETER as u8);

pub const QUALIFIED_NODE_OCTET: u8 = APPLICATION_OCTET + (QUALIFIED_NODE as u8);

pub const QUALIFIED_MATRIX_OCTET: u8 = APPLICATION_OCTET + (QUALIFIED_MATRIX as u8);

pub const CONNECTION_OCTET: u8 = APPLICATION_OCTET + (CONNECTION as u8);

pub const STREAM_ENTRY_OCTET: u8 = APPLICATION_OCTET + (STREAM_ENTRY as u8);
