// The packed tables: their layout and what each call does to the bytes as definitions, and typed access to header, set
// records, file heads and entries. Contracts speak of what the tables hold (`unpack`), never of offsets.
#![tactic(auto)]

pub mod entries;
pub mod files;
pub mod header;
pub mod places;
pub mod sets;
