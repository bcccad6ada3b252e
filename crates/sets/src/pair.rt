// Two waiting sets of any make as one: where their sizes a and b add to at most 64, numbers below a lie in the first
// and a + x lies as x in the second; otherwise the pair is the first set alone.
ghost use Rattle.std.specs.Prelude.{◌≡◌, ℕ, ◌+◌, ◌-◌, Bool, ◌&&◌, cond, Some, None, nat_le};
ghost use Rattle.sets.specs.Pairs.{pair_room, pair_holds};
ghost use Rattle.std.proofs.Common.{rules};

use crate::waiting::WaitingSet;

#[derive(Drop)]
pub struct Pair<A: WaitingSet, B: WaitingSet> {
    first: A,
    second: B,
}

impl<A: WaitingSet, B: WaitingSet> Pair<A, B> {
    // The pair of the two sets, with the members that they have.
    pub fn new(first: A, second: B) -> Pair<A, B>
        ensures first { result.first ≡ first }
        ensures second { result.second ≡ second }
    {
        Pair { first, second }
    }

    // Where the numbers of the second set begin, if the sizes add to at most 64.
    fn offset(&self) -> Option<u8>
        ensures { let a = A.WaitingSet.room self.now.first in let b = B.WaitingSet.room self.now.second in result ≡ cond (nat_le (a + b) 64) (Some a) None }
    {
        let a = self.first.size();
        (a + self.second.size() <= 64).then_some(a)
    }

    // The number of t in the second set, if it lies there; else it lies in the first under its own number.
    fn in_second(&self, t: u8) -> Option<u8>
        ensures { let a = A.WaitingSet.room self.now.first in let b = B.WaitingSet.room self.now.second in result ≡ cond (nat_le (a + b) 64 && nat_le a t) (Some (t - a)) None }
    {
        t.checked_sub(self.offset()?)
    }
}

impl<A: WaitingSet, B: WaitingSet> WaitingSet for Pair<A, B> {
    ghost room = { λ s. pair_room (A.WaitingSet.room s.first) (B.WaitingSet.room s.second) };

    ghost holds = { λ s. pair_holds (A.WaitingSet.room s.first) (B.WaitingSet.room s.second) (A.WaitingSet.holds s.first) (B.WaitingSet.holds s.second) };

    ghost small = { Prim.search rules };

    ghost inside = { Prim.search rules };

    fn size(&self) -> u8 {
        self.offset()
            .map_or(self.first.size(), |a| a + self.second.size())
    }

    // The match stands in each of the three: no closure could lend out both sets to one function for all.
    fn has(&self, t: u8) -> bool {
        match self.in_second(t) {
            Some(x) => self.second.has(x),
            None => self.first.has(t),
        }
    }

    fn put(&mut self, t: u8) -> bool {
        match self.in_second(t) {
            Some(x) => self.second.put(x),
            None => self.first.put(t),
        }
    }

    fn take(&mut self, t: u8) -> bool {
        match self.in_second(t) {
            Some(x) => self.second.take(x),
            None => self.first.take(t),
        }
    }

    fn highest(&self) -> Option<u8> {
        let Some(a) = self.offset() else {
            return self.first.highest();
        };
        // A match, and no `and_then` with `map` and `or_else`: that the sum fits would have to be written as what two
        // closures, one in the other, ask of their callers.
        match self.second.highest() {
            Some(x) => Some(a + x),
            None => self.first.highest(),
        }
    }
}
