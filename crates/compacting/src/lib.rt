// Compaction in place. The entries are gone through in order, by set number, then file, then page. A stored entry that does
// not name the next block yet gets it by an exchange of two blocks, after which the store is in order and reads as before.
#![tactic(auto)]

pub mod compact;
pub mod exchange;
pub mod owners;
pub mod places;
