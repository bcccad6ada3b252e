// The plan record: which tasks a yard declares, which resources they share and which events they hear.
// Its type carries the rule that only declared tasks are named, so that no reader of a plan tests it again.
#![tactic(auto)]

pub mod entry;
pub mod parts;
pub mod questions;
pub mod record;
