// The session's text: lines of calls, and the listing of a store, written into a lent buffer.
#![tactic(auto)]

pub mod extents;
pub mod files;
pub mod lines;
pub mod sets;
pub mod store;
pub mod text;
