// The calls of a session: their 8 bytes decoded, and the calls that they ask for made on a store.
#![tactic(auto)]

pub mod decoding;
pub mod performing;
