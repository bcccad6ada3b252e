// Whole runs on new kernels: a list of calls with every answer, and the run that shows an entry of the blocking
// table.
#![tactic(auto)]

pub mod entries;
pub mod lists;
