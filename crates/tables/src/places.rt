// The places and widths of the parts of the tables, in bytes: "in this order", each behind the one before it. No other
// source has these numbers.

const HEADER_BYTES: usize = 4;

// "bitmap, 512 bytes"
pub const BITMAP_AT: usize = HEADER_BYTES;

const BITMAP_BYTES: usize = 512;

// "8 set records, 3 bytes each", by which a set stands in the tree; "Each set record grows at its end by 4 bytes", its term
pub const SETS_AT: usize = BITMAP_AT + BITMAP_BYTES;

pub const TREE_BYTES: usize = 3;

const TERM_BYTES: usize = 4;

pub const SET_BYTES: usize = TREE_BYTES + TERM_BYTES;

// A file record: its head, "then 64 entries" of 16 bits, its map.
pub const HEAD_BYTES: usize = 4;

pub const MAP_BYTES: usize = 64 * 2;

pub const FILE_BYTES: usize = HEAD_BYTES + MAP_BYTES;

// The file records of a set.
pub const SET_FILES_BYTES: usize = 16 * FILE_BYTES;

// "128 file records, 132 bytes each, at set × 16 + file"
pub const FILES_AT: usize = SETS_AT + 8 * SET_BYTES;

// The maps stand as far apart as the records.
pub const MAPS_AT: usize = FILES_AT + HEAD_BYTES;

// "so the tables become 17,468 bytes"
pub const TABLE_BYTES: usize = FILES_AT + 8 * SET_FILES_BYTES;

// Document 01's tables, whose set records have no term: "The tables are 17,436 bytes"
pub const OLD_FILES_AT: usize = SETS_AT + 8 * TREE_BYTES;

pub const OLD_TABLE_BYTES: usize = OLD_FILES_AT + 8 * SET_FILES_BYTES;
