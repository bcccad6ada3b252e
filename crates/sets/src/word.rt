// A waiting set in one 64-bit word: task t is the bit of place t.
ghost use Rattle.std.specs.Prelude.{◌≡◌, ℕ, ◌^◌, ◌<◌, ◌≤◌, min};
ghost use Rattle.vectors.specs.Vectors.{in_vector};
ghost use Rattle.vectors.proofs.Vectors.{in_below};

use crate::waiting::WaitingSet;
use vectors::{contains, highest, with, without};

#[derive(Clone, Copy)]
pub struct WordSet {
    word: u64,
    size: u8,
    ghost few: { size ≤ 64 },
    ghost within: { word < 2 ^ size },
}

impl WordSet {
    // An empty set of the wished size, or of 64 where that is more.
    pub fn new(wish: u8) -> WordSet
        ensures size { result.size ≡ min wish 64 }
        ensures empty { result.word ≡ 0 }
    {
        WordSet {
            word: 0,
            size: wish.min(64),
        }
    }
}

impl WaitingSet for WordSet {
    ghost room = { λ s. s.size };

    ghost holds = { λ s. in_vector s.word };

    ghost small = { λ s. s.few };

    ghost inside = { λ s t e. in_below s.word s.size t s.within e };

    fn size(&self) -> u8 {
        self.size
    }

    fn has(&self, t: u8) -> bool {
        contains(self.word, t)
    }

    // `put` and `take` differ in one word; a function over it would be as long as both.
    fn put(&mut self, t: u8) -> bool {
        if t >= self.size {
            return false;
        }
        self.word = with(self.word, t);
        true
    }

    fn take(&mut self, t: u8) -> bool {
        if t >= self.size {
            return false;
        }
        self.word = without(self.word, t);
        true
    }

    // The most significant set bit.
    fn highest(&self) -> Option<u8> {
        highest(self.word)
    }
}
