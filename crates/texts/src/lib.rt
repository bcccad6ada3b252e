// The text formats of a run: an input cut into records, the call that a record spells and the record that
// spells a call, and the line that tells of a call. Each is proved to its bytes.
#![tactic(auto)]

mod digits;
mod fronts;
pub mod lines;
pub mod outcomes;
mod pieces;
pub mod records;
pub mod requests;
pub mod sheets;
pub mod spellings;
pub mod tables;
mod verbs;
