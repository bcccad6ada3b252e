// A plan under construction.
ghost use Rattle.std.specs.Prelude.{◌≡◌, ◌+◌, ◌^◌, ◌<◌, cond, nat_lt, Ok, Err, IfOk};
ghost use Rattle.oil.specs.declared.fault.PlanCause.TheVariants as cause;
ghost use Rattle.oil.specs.Faults.{refusal};
ghost use Rattle.oil.specs.Draft.{added, prioritized, activated, grown, next_number as next, finished, empty_draft, used as names_of, with_users, with_registered};

use crate::fault::{PlanCause, PlanFault};
use grammar::item::Kind;
use plan::record::Plan;
use std::marker::Model;
use vectors::contains;

// How many tasks, resources and events a plan has at most.
pub(crate) const TASKS: u8 = 64;

pub(crate) const RESOURCES: u8 = 32;

pub(crate) const EVENTS: u8 = 32;

// The vector of the tasks that are declared so far and how many tasks there are, the counts of resources and events
// with their vectors, and the task at hand as a vector of its own, empty before the first. A plan is `Copy` with rows
// of fixed length, and so is a draft.
#[derive(Clone, Copy)]
pub struct Draft {
    declared: u64,
    tasks: u8,
    resources: u8,
    events: u8,
    users: [u64; 32],
    registered: [u64; 32],
    current: u64,
}

// Contracts see what a draft holds, and every draft keeps what a plan asks of it.
impl Model for Draft {
    ghost use Rattle.oil.specs.Sketch.{Sketch, Kept};

    ghost Value = { Sketch };

    ghost use Rattle.oil.specs.Sketched.{sketch, fields};

    ghost view = { sketch };

    ghost invariant = { λ d. Kept (sketch d) };

    ghost inverse = { fields };
}

// The vector with this task alone, by the power that the draft's definition says.
fn alone(task: u8) -> u64
    requires { task < 64 }
    ensures { result ≡ 2 ^ task }
{
    1 << task
}

// The vectors with the tasks added to the one at the index.
fn add(mut vectors: [u64; 32], index: u8, tasks: u64) -> [u64; 32]
    requires { index < 32 }
    ensures { result ≡ added vectors index tasks }
{
    vectors[usize::from(index)] |= tasks;
    vectors
}

// A count and one more, where there are fewer than the most.
fn one_more(count: u8, most: u8, place: usize) -> Result<u8, PlanFault>
    ensures { result ≡ cond (nat_lt count most) (Ok (count + 1)) (Err (refusal cause.TooMany place)) }
{
    if count < most {
        Ok(count + 1)
    } else {
        Err(PlanFault::new(PlanCause::TooMany, place))
    }
}

impl Draft {
    // A draft of nothing, written out: a derived `Default` would owe the invariant all the same.
    pub(crate) fn empty() -> Draft
        ensures { result ≡ empty_draft }
    {
        Draft {
            declared: 0,
            tasks: 0,
            resources: 0,
            events: 0,
            users: [0; 32],
            registered: [0; 32],
            current: 0,
        }
    }

    // How many names are declared.
    pub(crate) fn used(&self) -> usize
        ensures { result ≡ names_of self.now }
    {
        usize::from(self.tasks) + usize::from(self.resources) + usize::from(self.events)
    }

    // The number of the next object of this kind; a task gets its number from its PRIORITY. It is 0 for a task, and no
    // Option, since it goes into a record of the table, which has a public number whatever it holds.
    pub(crate) fn next_number(&self, kind: Kind) -> u8
        ensures { result ≡ next self.now kind }
    {
        match kind {
            Kind::Resource => self.resources,
            Kind::Event => self.events,
            Kind::Task => 0,
        }
    }

    // The draft with one object more; where there is room for one, fewer than 128 names were declared.
    pub(crate) fn grow(self, kind: Kind, place: usize) -> Result<Draft, PlanFault>
        ensures value { result ≡ grown self kind place }
        ensures room { IfOk result (λ _. names_of self < 128) }
    {
        Ok(match kind {
            Kind::Resource => Draft {
                resources: one_more(self.resources, RESOURCES, place)?,
                ..self
            },
            Kind::Event => Draft {
                events: one_more(self.events, EVENTS, place)?,
                ..self
            },
            Kind::Task => Draft {
                tasks: one_more(self.tasks, TASKS, place)?,
                ..self
            },
        })
    }

    // The draft with a task's number.
    pub(crate) fn prioritize(self, value: u32, place: usize) -> Result<Draft, PlanFault>
        ensures { result ≡ prioritized self value place }
    {
        let task = u8::try_from(value)
            .ok()
            .filter(|task| *task < TASKS && !contains(self.declared, *task))
            .ok_or(PlanFault::new(PlanCause::WrongNumber, place))?;
        let current = alone(task);
        let declared = self.declared | current;
        Ok(Draft {
            declared,
            current,
            ..self
        })
    }

    // The draft as it is, where its task is activated once.
    pub(crate) fn activate(self, value: u32, place: usize) -> Result<Draft, PlanFault>
        ensures { result ≡ activated self value place }
    {
        if value == 1 {
            Ok(self)
        } else {
            Err(PlanFault::new(PlanCause::WrongNumber, place))
        }
    }

    // The draft with the task at hand among the users of a resource. What this and `register` share is `add`: one method
    // for both would have to be told which of the two rows to read and to write.
    pub(crate) fn add_user(self, resource: u8) -> Draft
        requires { resource < self.resources }
        ensures { result ≡ with_users self (added self.users resource self.current) }
    {
        let users = add(self.users, resource, self.current);
        Draft { users, ..self }
    }

    // The draft with the task at hand among those registered for an event.
    pub(crate) fn register(self, event: u8) -> Draft
        requires { event < self.events }
        ensures { result ≡ with_registered self (added self.registered event self.current) }
    {
        let registered = add(self.registered, event, self.current);
        Draft { registered, ..self }
    }

    // The draft of a complete text: it has a task.
    pub(crate) fn finish(self, end: usize) -> Result<Draft, PlanFault>
        ensures { result ≡ finished self end }
    {
        if self.declared == 0 {
            Err(PlanFault::new(PlanCause::NoTask, end))
        } else {
            Ok(self)
        }
    }
}

// The plan of a draft.
impl From<Draft> for Plan {
    ghost use Rattle.oil.specs.Draft.{Shows};

    ghost from_gives = { λ d p. Shows d p.declared p.resources p.events p.users p.registered };

    fn from(draft: Draft) -> Plan {
        let Draft {
            declared,
            resources,
            events,
            users,
            registered,
            ..
        } = draft;
        Plan {
            declared,
            resources,
            events,
            users,
            registered,
        }
    }
}
