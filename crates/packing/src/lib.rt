// Words in both byte orders, and a map of bits, in bytes that the caller lends.
#![tactic(auto)]

pub mod bitmap;
pub mod words;
