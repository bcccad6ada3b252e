// The preemption chain: who runs, who has started, and one task more or less.
ghost use Rattle.std.specs.Prelude.{◌≡◌, ◌<◌, Bool, true, false, [], ◌∷◌};
ghost use Rattle.plan.specs.Plans.{reaches};
ghost use Rattle.machine.specs.Schedules.{head, tail, among};
ghost use Rattle.machine.specs.Shapes.{Falling};

use crate::state::Chain;
use arrayvec::ArrayVec;
use vectors::{contains, with, without};

impl Chain {
    // The chain of nobody. A derived `Default` would owe the invariant all the same, here and in the held list.
    pub(crate) fn new() -> Chain
        ensures { result ≡ [] }
    {
        Chain {
            tasks: ArrayVec::new(),
            started: 0,
        }
    }

    // The running task: the newest, which is above all others.
    pub(crate) fn running(&self) -> Option<u8>
        ensures value { result ≡ head self.now }
        ensures falling { Falling self.now }
    {
        self.tasks.last().copied()
    }

    // Whether task t has started and not ended.
    pub(crate) fn has(&self, t: u8) -> bool
        ensures { result ≡ among self.now t }
    {
        contains(self.started, t)
    }

    // Starts task w above the running task.
    pub(crate) fn push(&mut self, w: u8)
        requires small { w < 64 }
        requires above { reaches (head self.old) w ≡ false }
        ensures { self.new ≡ w ∷ self.old }
    {
        self.tasks.push(w);
        self.started = with(self.started, w);
    }

    // Ends the running task, if there is one.
    pub(crate) fn pop(&mut self)
        ensures { self.new ≡ tail self.old }
    {
        if let Some(t) = self.tasks.pop() {
            self.started = without(self.started, t);
        }
    }
}
