// The calls on lent tables and pages. Each tests for itself what it was given: the tables, then the table of numbers.
#![tactic(auto)]

pub mod answer;
pub mod changes;
pub mod checks;
pub mod compact;
pub mod convert;
pub mod format;
pub mod looks;
pub mod records;
pub mod terms;
