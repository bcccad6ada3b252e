// The kernel over a waiting set of any make, refined against the machine: after each call its state is the state
// that the machine comes to, and its answer the machine's. It allocates nothing.
#![tactic(auto)]

mod chain;
mod cores;
mod events;
mod held;
pub mod held_lock;
mod install;
pub mod kernel;
mod marks;
mod questions;
mod refuse;
mod requests;
mod resources;
mod signal_release;
pub mod state;
mod tasks;
