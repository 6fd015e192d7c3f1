// What stands at a member of a row: a rule's number. Members below BODY keep one value in a cell; the others hold contents or a collection.
// Numbers, as the definition `rule_of` has them (crates/glow_grammar/specs/Grammar.antt): glow_sizes keeps sixteen of them in one word.
pub const NONE: u64 = 0;

pub const NAME: u64 = 1;

pub const TEXT: u64 = 2;

pub const FLAG: u64 = 3;

pub const ANY: u64 = 4;

pub const STEP: u64 = 5;

pub const PATH: u64 = 6;

pub const LIST: u64 = 7;

pub const FROM_0: u64 = 8;

pub const INT_32: u64 = 9;

pub const TO_3: u64 = 10;

pub const TO_2: u64 = 11;

pub const TO_1: u64 = 12;

pub const BODY: u64 = 13;

pub const KIDS: u64 = 14;

pub const LINKS: u64 = 15;
