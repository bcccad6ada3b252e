// Whole runs as text: a kernel served with the records of an input, a line for each.
#![tactic(auto)]

pub mod diagnosis;
pub mod input;
pub mod outputs;
pub mod plans;
pub mod programs;
mod rooms;
pub mod runs;
pub mod service;
