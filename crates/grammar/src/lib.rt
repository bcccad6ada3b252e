// The middle layer of the reader of plan texts: the order of the tokens.
// It is pulled: each call reads on to the next token that the plan has to judge, so that faults come out in the order of the text.
#![tactic(auto)]

pub mod fault;
pub mod item;
pub mod parser;
mod slot;
mod template;
mod word;
