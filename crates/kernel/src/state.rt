// What a kernel holds beside its waiting set: the two lists in vectors of a fixed capacity, which never allocate. The
// structs stand alone in this file: the words of specs/ that speak of them import it.
ghost use Rattle.std.specs.Prelude.{◌≡◌, Bool, true, false, [], None};
ghost use Rattle.machine.specs.Refusals.{present};
ghost use Rattle.kernel.specs.Lists.{keeps_levels, Placed};

use crate::held_lock::HeldLock;
use arrayvec::ArrayVec;
use plan::record::Plan;
use std::marker::Model;

// The preemption chain: the tasks started and not ended, in starting order, and the same tasks as a vector, which tells in
// one step whether a task has started. Each task is above the one below it, so that no more than 64 find a place. Contracts
// see the list, the newest first. The held list is made alike, but what each keeps, is asked and owes is another thing.
#[derive(Drop)]
pub struct Chain {
    pub(crate) tasks: ArrayVec<u8, 64>,
    pub(crate) started: u64,
}

impl Model for Chain {
    ghost use Rattle.std.specs.Prelude.{ℕ, List, reverse};
    ghost use Rattle.kernel.specs.Lists.{IsChain};

    ghost Value = { List ℕ };

    ghost view = { λ c. reverse c.tasks.items };

    ghost invariant = { λ c. IsChain c.started (reverse c.tasks.items) };
}

// The held list: the locks not undone, in locking order, and their resources as a vector, which tells in one step whether
// a resource is held. No resource is held twice, so that no more than 32 find a place. Contracts see the list of the locks,
// the newest first.
#[derive(Drop)]
pub struct HeldList {
    pub(crate) locks: ArrayVec<HeldLock, 32>,
    pub(crate) taken: u64,
}

impl Model for HeldList {
    ghost use Rattle.std.specs.Prelude.{ℕ, List, reverse};
    ghost use Rattle.kernel.specs.declared.held_lock.HeldLock.{HeldLock};
    ghost use Rattle.kernel.specs.Lists.{IsHeldList};

    ghost Value = { List HeldLock };

    ghost view = { λ h. reverse h.locks.items };

    ghost invariant = { λ h. IsHeldList h.taken (reverse h.locks.items) };
}

// The installed plan, the chain, the held list, and a vector of marks for each event. Without a plan nothing is
// held; holders have started; and each lock keeps the system ceiling that it led to.
#[derive(Drop)]
pub struct Core {
    pub(crate) plan: Option<Plan>,
    pub(crate) chain: Chain,
    pub(crate) held: HeldList,
    pub(crate) marks: [u64; 32],
    ghost planned: { present plan ≡ false → held ≡ [] },
    ghost placed: { Placed chain held },
    ghost levels: { keeps_levels plan held ≡ true },
}
