// The part of the check of well formed tables that concerns the header and the set records. Every function takes any bytes,
// at least as many as header, bitmap and set records have, and its answer equals the Boolean definition that its contract names.
#![tactic(auto)]

pub mod chains;
pub mod header;
pub mod records;
pub mod tree;
