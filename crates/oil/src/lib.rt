// The top layer of the reader of plan texts: what the items of a text mean, and the plan record that they fill.
// `reader::read` is the call to use; a fault tells its layer, its number and its place.
#![tactic(auto)]

mod draft;
pub mod fault;
mod judge;
pub mod position;
pub mod reader;
pub mod table;
