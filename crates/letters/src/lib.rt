// The lowest layer of the reader of plan texts: a text taken apart into tokens.
// A token says what it is and from which byte up to which it stands; where no lawful token begins, a fault says where.
#![tactic(auto)]

mod blanks;
mod bytes;
pub mod fault;
pub mod lexer;
mod limits;
mod names;
mod numbers;
pub mod slices;
mod strings;
pub mod token;
