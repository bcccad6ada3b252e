// The core: plan, chain and held list together.
ghost use Rattle.std.specs.Prelude.{◌≡◌, ℕ, ◌<◌, ◌≤◌, Bool, true, false, not, ◌||◌, ◌∷◌, Some, None};
ghost use Rattle.vectors.specs.Vectors.{in_vector, strays as strays_from};
ghost use Rattle.plan.specs.Plans.{reaches};
ghost use Rattle.machine.specs.Schedules.{head, tail, newest, add_lock, holder as holder_in, system_ceiling_under};
ghost use Rattle.machine.specs.Refusals.{present, absent, same, tasks_of, resources_of, may_lock as may_lock_in, holds_some};
ghost use Rattle.std.specs.Option.{ok_or};
ghost use Rattle.machine.specs.declared.Refusal.TheVariants.{NoTaskRuns};
ghost use Rattle.machine.specs.History.{ceiling_under};
ghost use Rattle.kernel.specs.Lists.{entries};
ghost use Rattle.kernel.specs.Changes.{may_start as may_start_in, Blank, Fitted, Rechained, Reheld};

use crate::held_lock::HeldLock;
use crate::state::{Chain, Core, HeldList};
use machine::Refusal;
use plan::record::Plan;
use vectors::{contains, strays};

impl Core {
    // No plan, nobody started, nothing held, no mark; written out, since a struct with ghost fields derives no `Default`.
    pub(crate) fn new() -> Core
        ensures { Blank result }
    {
        Core {
            plan: None,
            chain: Chain::new(),
            held: HeldList::new(),
            marks: [0; 32],
        }
    }

    // Whether a plan is installed.
    pub(crate) fn has_plan(&self) -> bool
        ensures { result ≡ present self.now.plan }
    {
        self.plan.is_some()
    }

    // Takes its first plan, and clears every mark.
    pub(crate) fn fit(&mut self, p: &Plan)
        requires { present self.old.plan ≡ false }
        ensures { Fitted self.old self.new p.now }
    {
        self.plan = Some(*p);
        self.marks = [0; 32];
    }

    // The declared tasks.
    pub(crate) fn declared(&self) -> u64
        ensures { in_vector result ≡ tasks_of self.now.plan }
    {
        self.plan.as_ref().map_or(0, |p| p.declared)
    }

    // Whether the vector v holds a task that is not declared.
    pub(crate) fn any_undeclared(&self, v: u64) -> bool
        ensures { result ≡ strays_from v (tasks_of self.now.plan) }
    {
        strays(v, self.declared())
    }

    // How many resources are declared. `events` is as short: one function for both counts would take a closure.
    pub(crate) fn resources(&self) -> u16
        ensures value { result ≡ resources_of self.now.plan }
        ensures bound { result ≤ 32 }
    {
        self.plan.as_ref().map_or(0, |p| u16::from(p.resources))
    }

    // Whether task t is a user of resource r.
    pub(crate) fn may_lock(&self, r: u16, t: u8) -> bool
        ensures { result ≡ may_lock_in self.now.plan r (Some t) }
    {
        self.plan
            .as_ref()
            .is_some_and(|p| contains(p.users_of(r), t))
    }

    // The ceiling of resource r.
    pub(crate) fn ceiling(&self, r: u16) -> Option<u8>
        ensures { result ≡ ceiling_under self.now.plan r }
    {
        self.plan.as_ref().and_then(|p| p.ceiling(r))
    }

    // The system ceiling, which the newest lock keeps.
    pub(crate) fn system_ceiling(&self) -> Option<u8>
        ensures { result ≡ system_ceiling_under self.now.plan (entries self.now.held) }
    {
        self.held.newest().and_then(|lock| lock.level)
    }

    // Whether task w exceeds the running task and the system ceiling, under a plan.
    pub(crate) fn may_start(&self, w: u8) -> bool
        ensures { result ≡ may_start_in self.now.plan self.now.chain (entries self.now.held) w }
    {
        self.has_plan() && self.chain.running() < Some(w) && self.system_ceiling() < Some(w)
    }

    // The running task, which lock, unlock, exit and test need.
    pub(crate) fn running(&self) -> Result<u8, Refusal>
        ensures { result ≡ ok_or (head self.now.chain) NoTaskRuns }
    {
        self.chain.running().ok_or(Refusal::NoTaskRuns)
    }

    // Starts task w above the running task.
    pub(crate) fn start(&mut self, w: u8)
        requires small { w < 64 }
        requires above { reaches (head self.old.chain) w ≡ false }
        ensures { Rechained self.old self.new (w ∷ self.old.chain) }
    {
        self.chain.push(w);
    }

    // Whether the running task holds a resource: holders do not fall, so the newest holder tells.
    pub(crate) fn running_holds(&self) -> bool
        ensures { result ≡ holds_some (entries self.now.held) (head self.now.chain) }
    {
        let running = self.chain.running();
        self.held
            .newest()
            .is_some_and(|lock| Some(lock.holder) == running)
    }

    // Ends the running task, which holds nothing.
    pub(crate) fn end_running(&mut self)
        requires { holds_some (entries self.old.held) (head self.old.chain) ≡ false }
        ensures { Rechained self.old self.new (tail self.old.chain) }
    {
        self.chain.pop();
    }

    // Whether task t holds resource r.
    pub(crate) fn held_by(&self, r: u16, t: u8) -> bool
        ensures { not result ≡ (absent (holder_in (entries self.now.held) r) || not (same (holder_in (entries self.now.held) r) (Some t))) }
    {
        self.held.holder(r) == Some(t)
    }

    // Whether resource r was locked last.
    pub(crate) fn locked_last(&self, r: u16) -> bool
        ensures { result ≡ same (newest (entries self.now.held)) (Some r) }
    {
        self.held.newest().is_some_and(|lock| lock.resource == r)
    }

    // Notes that the running task has locked resource r.
    pub(crate) fn lock(&mut self, r: u16)
        requires small { r < 32 }
        requires free { holder_in (entries self.old.held) r ≡ None }
        requires planned { present self.old.plan ≡ true }
        ensures { Reheld self.old self.new (add_lock r (head self.old.chain) (entries self.old.held)) }
    {
        let level = self.ceiling(r).max(self.system_ceiling());
        if let Some(holder) = self.chain.running() {
            self.held.push(HeldLock {
                resource: r,
                holder,
                level,
            });
        }
    }

    // Undoes the newest lock.
    pub(crate) fn unlock(&mut self)
        ensures { Reheld self.old self.new (tail (entries self.old.held)) }
    {
        self.held.pop();
    }
}
