// The held list: who holds what, the newest lock, and one lock more or less.
ghost use Rattle.std.specs.Prelude.{◌≡◌, ℕ, ◌<◌, ◌≤◌, Bool, [], ◌∷◌, Some, None};
ghost use Rattle.machine.specs.Schedules.{head, tail, holder as holder_in};
ghost use Rattle.machine.specs.Refusals.{present};
ghost use Rattle.machine.specs.Shapes.{Single, Nested};
ghost use Rattle.kernel.specs.Lists.{entries};

use crate::held_lock::HeldLock;
use crate::state::HeldList;
use arrayvec::ArrayVec;
use vectors::{contains, with, without};

impl HeldList {
    // The list of nothing.
    pub(crate) fn new() -> HeldList
        ensures { result ≡ [] }
    {
        HeldList {
            locks: ArrayVec::new(),
            taken: 0,
        }
    }

    // Whether resource r is held.
    pub(crate) fn has(&self, r: u16) -> bool
        ensures { result ≡ present (holder_in (entries self.now) r) }
    {
        r < 32 && contains(self.taken, r as u8)
    }

    // Who holds resource r.
    pub(crate) fn holder(&self, r: u16) -> Option<u8>
        ensures { result ≡ holder_in (entries self.now) r }
    {
        self.locks
            .as_slice()
            .iter()
            .rev()
            .find(|lock| lock.resource == r)
            .map(|lock| lock.holder)
    }

    // The newest lock, whose holder is below no other.
    pub(crate) fn newest(&self) -> Option<HeldLock>
        ensures value { result ≡ head self.now }
        ensures single { Single (entries self.now) }
        ensures nested { Nested (entries self.now) }
    {
        self.locks.last().copied()
    }

    // Adds a lock.
    pub(crate) fn push(&mut self, lock: HeldLock)
        requires small { lock.resource < 32 }
        requires free { holder_in (entries self.old) lock.resource ≡ None }
        requires above { (r k : ℕ) → holder_in (entries self.old) r ≡ Some k → k ≤ lock.holder }
        ensures { self.new ≡ lock ∷ self.old }
    {
        self.locks.push(lock);
        self.taken = with(self.taken, lock.resource as u8);
    }

    // Undoes the newest lock, if there is one.
    pub(crate) fn pop(&mut self)
        ensures after { self.new ≡ tail self.old }
        ensures single { Single (entries self.old) }
    {
        if let Some(lock) = self.locks.pop() {
            self.taken = without(self.taken, lock.resource as u8);
        }
    }
}
