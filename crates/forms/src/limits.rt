// The numbers of document 01, "Lines", and of the cards, in one place.

// A line holds at most 1,024 bytes, each from 32 to 126.
pub const LINE_MAX: usize = 1024;

pub const BYTE_MIN: u8 = 32;

pub const BYTE_MAX: u8 = 126;
// The longest word of a line, `position`, has 8 letters. In a word's number each letter has 256 times the weight of the one before it: this is the eighth's.
pub const LAST_WEIGHT: u64 = 72057594037927936;
// A day is typed as 1 to 3 digits.
pub const DAY_DIGITS: usize = 3;
// A level is held in one byte.
pub const BYTE: usize = 255;
// Each byte of a line needs room for at most 16 bytes of records: a tree's root takes 2 bytes or more of the line, each further node 3, and a record 32.
pub const TREE_BYTES: usize = 16384;
