// Steps 2 and 4 of a change: virgin files become own, and the children of a set are given the pages that it will change.
// Each function is its rule (rules/specs/Rules.antt), on what the tables and the pages hold.
#![tactic(auto)]

pub mod giving;
pub mod marking;
pub mod settling;
