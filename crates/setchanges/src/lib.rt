// The accepted calls that take no block and copy no page, on the tables: creating a file, making and removing a set,
// erasing a file's record and freeing its blocks, format; marking a file.
#![tactic(auto)]

pub mod create;
pub mod format;
pub mod make;
pub mod mark;
pub mod remove;
