// The machine that every kernel stands for: the calls it takes, the answers it gives, and the reasons for which
// it turns a call down, as types. What each call does and answers is defined in specs/: moves on the schedule,
// the refusal table, and the machine; above them the words of a history, and the laws of every run.
#![tactic(auto)]

ghost use Rattle.std.specs.Prelude.{◌≡◌};
ghost use Rattle.machine.specs.Numbers.{refusal_number};

use plan::record::Plan;

// A call to the kernel. Vectors are those of tasks; numbers of resources and events count from 0.
#[derive(Clone, Copy, PartialEq, Debug)]
pub enum Call {
    Install(Plan),
    Release(u64),
    Lock(u16),
    Unlock(u16),
    Exit,
    Signal(u16, Option<u64>),
    SignalRelease(u16, Option<u64>),
    Test(u16),
}

// What came of an accepted call: a task was started; after an exit, the task below went on or none was left; or
// the running task is the same as before.
#[derive(Clone, Copy, PartialEq, Debug)]
pub enum Word {
    Started,
    Resumed,
    Idle,
    Same,
}

// The answer to an accepted call: the running task after it, what came of it, and the mark that a test found.
#[derive(Clone, Copy, PartialEq, Debug)]
pub struct Reply {
    pub running: Option<u8>,
    pub word: Word,
    pub mark: Option<bool>,
}

// Why a call is turned down, each with the number by which lines and records name it. The kernel is then as it was.
#[derive(Clone, Copy, PartialEq, Debug)]
pub enum Refusal {
    // The set's size is not above the plan's highest task.
    SetTooSmall = 10,
    // A task waits in the set before a plan is installed.
    SetNotEmpty = 11,
    // The kernel has a plan.
    AlreadyInstalled = 12,
    // The offered plan declares no task.
    NoTaskDeclared = 13,
    // The vector holds a task that is not declared, or for a signal not registered.
    ForeignTask = 14,
    // No task runs.
    NoTaskRuns = 15,
    // The resource or event number is not declared.
    NotDeclared = 16,
    // The running task is no user of the resource, or not registered for the event.
    NotEntitled = 17,
    // The resource is already held.
    AlreadyHeld = 18,
    // The resource is not held by the running task.
    NotHolder = 19,
    // A later lock is still held.
    LaterLockHeld = 20,
    // The running task holds a resource at its exit.
    StillHolding = 21,
}

impl Refusal {
    // The number of the refusal.
    pub fn number(self) -> u8
        ensures { result ≡ refusal_number self }
    {
        self as u8
    }
}
