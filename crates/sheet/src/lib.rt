// The blocking sheet of a plan: its blocking table, entry by entry, with the run that shows each.
#![tactic(auto)]

pub mod entries;
pub mod lines;
pub mod pages;
