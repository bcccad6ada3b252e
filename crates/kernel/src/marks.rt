// The marks of a core, and who is registered for an event. An event comes with a task or a vector here as it does in the
// calls that bring them: a struct would only name the pair.
ghost use Rattle.std.specs.Prelude.{◌≡◌, ℕ, ◌<◌, ◌≤◌, Bool, true, false, Some, None};
ghost use Rattle.vectors.specs.Vectors.{in_vector};
ghost use Rattle.machine.specs.Moves.{meant_under};
ghost use Rattle.machine.specs.Refusals.{events_of, registered_of, may_test as may_test_in, stray};
ghost use Rattle.kernel.specs.Parts.{marks_in};
ghost use Rattle.kernel.specs.Changes.{marked_too, unmarked, Remarked};

use crate::state::Core;
use vectors::{contains, strays, without};

impl Core {
    // How many events are declared.
    pub(crate) fn events(&self) -> u16
        ensures value { result ≡ events_of self.now.plan }
        ensures bound { result ≤ 32 }
    {
        self.plan.as_ref().map_or(0, |p| u16::from(p.events))
    }

    // The tasks registered for event e.
    pub(crate) fn registered(&self, e: u16) -> u64
        ensures { in_vector result ≡ registered_of self.now.plan e }
    {
        self.plan.as_ref().map_or(0, |p| p.registered_for(e))
    }

    // Whether task t is registered for event e.
    pub(crate) fn may_test(&self, e: u16, t: u8) -> bool
        ensures { result ≡ may_test_in self.now.plan e (Some t) }
    {
        contains(self.registered(e), t)
    }

    // Whether a vector is given that holds a task not registered for event e.
    pub(crate) fn any_unregistered(&self, e: u16, v: Option<u64>) -> bool
        ensures { result ≡ stray v (registered_of self.now.plan e) }
    {
        let registered = self.registered(e);
        v.is_some_and(|w| strays(w, registered))
    }

    // The tasks that a signal of event e means.
    pub(crate) fn meant(&self, e: u16, v: Option<u64>) -> u64
        ensures { in_vector result ≡ meant_under self.now.plan e v }
    {
        self.plan
            .as_ref()
            .map_or(0, |p| v.unwrap_or(p.registered_for(e)))
    }

    // Whether task t is marked for event e.
    #[tactic(auto, using(crate::proofs::Marking::past_end))]
    pub(crate) fn marked(&self, e: u16, t: u8) -> bool
        ensures { result ≡ marks_in self.now e t }
    {
        self.marks
            .get(usize::from(e))
            .is_some_and(|v| contains(*v, t))
    }

    // Sets the marks of the tasks in v for event e.
    pub(crate) fn set_marks(&mut self, e: u16, v: u64)
        requires { e < 32 }
        ensures { Remarked self.old self.new (marked_too e (in_vector v) (marks_in self.old)) }
    {
        self.marks[usize::from(e)] |= v;
    }

    // Clears the mark of task t for event e.
    pub(crate) fn clear_mark(&mut self, e: u16, t: u8)
        requires { e < 32 }
        ensures { Remarked self.old self.new (unmarked e t (marks_in self.old)) }
    {
        let marks = &mut self.marks[usize::from(e)];
        *marks = without(*marks, t);
    }
}
