// Reading the maps: what a page is, how large a file is, who needs a page, and which files depend on which. Every function
// is right on any bytes of the tables' length: a link that leads to no set leads to one whose files are absent.
#![tactic(auto)]

pub mod marking;
pub mod reading;
pub mod resolving;
