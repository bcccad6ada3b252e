// Waiting sets: which of the tasks below a size wait. One trait says what every set does, by a size and a
// membership; the kernel relies on that alone. Three makes: a word, two levels of bytes, and a pair of any two.
#![tactic(auto)]

mod bits;
pub mod lowest;
pub mod pair;
pub mod two_level;
pub mod waiting;
pub mod word;
