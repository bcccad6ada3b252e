// The kernel over a waiting set of any make: what its calls are made of.
ghost use Rattle.std.specs.Prelude.{◌≡◌, Bool};
ghost use Rattle.vectors.specs.Vectors.{in_vector};
ghost use Rattle.machine.specs.Moves.{release as releasing};
ghost use Rattle.machine.specs.Schedules.{due, started, moved};
ghost use Rattle.machine.specs.Machine.{fresh};
ghost use Rattle.machine.specs.Laws.{Set};
ghost use Rattle.kernel.specs.Meaning.{meaning, told, steady as steady_reply};

use crate::state::Core;
use machine::{Reply, Word};
use sets::waiting::WaitingSet;
use vectors::{highest, without};

// A waiting set, which holds the waiting tasks and nothing else does, and the core beside it. Contracts say
// `meaning R.room R.holds self.now` for the machine that it stands for: as a ghost member of a trait that would read
// `⟦<Kernel<R> as Stands>⟧.machine self.now`, which is no plainer.
#[derive(Drop)]
pub struct Kernel<R: WaitingSet> {
    pub(crate) set: R,
    pub(crate) core: Core,
}

impl<R: WaitingSet> Kernel<R> {
    // A kernel over the set, with no plan.
    pub fn new(set: R) -> Kernel<R>
        ensures made { meaning R.room R.holds result ≡ fresh (R.room set) (R.holds set) }
        ensures set { Set (R.room set) (R.holds set) }
    {
        Kernel {
            set,
            core: Core::new(),
        }
    }

    // Starts the highest waiting task where it exceeds the running task and the system ceiling.
    fn dispatch(&mut self) -> Option<u8>
        ensures value { result ≡ due (meaning R.room R.holds self.old).schedule }
        ensures after { (meaning R.room R.holds self.new).schedule ≡ started result (meaning R.room R.holds self.old).schedule }
        ensures marks { (meaning R.room R.holds self.new).marks ≡ (meaning R.room R.holds self.old).marks }
    {
        // Taken apart here: where nobody waits, nothing is due.
        let Some(w) = self.set.highest() else {
            return None;
        };
        if !self.core.may_start(w) {
            return None;
        }
        self.set.take(w);
        self.core.start(w);
        Some(w)
    }

    // Dispatches, and answers that a task was started, or else the word given.
    pub(crate) fn settle(&mut self, otherwise: Word) -> Reply
        ensures value { result ≡ told (due (meaning R.room R.holds self.old).schedule) otherwise (meaning R.room R.holds self.old).schedule }
        ensures after { (meaning R.room R.holds self.new).schedule ≡ started (due (meaning R.room R.holds self.old).schedule) (meaning R.room R.holds self.old).schedule }
        ensures marks { (meaning R.room R.holds self.new).marks ≡ (meaning R.room R.holds self.old).marks }
    {
        let word = self.dispatch().map_or(otherwise, |_| Word::Started);
        Reply {
            word,
            ..self.steady(None)
        }
    }

    // The answer of a call that starts nothing.
    pub(crate) fn steady(&self, mark: Option<bool>) -> Reply
        ensures { result ≡ steady_reply self.now.core.chain mark }
    {
        Reply {
            running: self.core.chain.running(),
            word: Word::Same,
            mark,
        }
    }

    // Puts each task of v that has not started into the waiting set. An iterator over a vector's tasks would be longer
    // than the one loop that it served.
    pub(crate) fn admit(&mut self, v: u64)
        ensures after { (meaning R.room R.holds self.new).schedule ≡ moved (releasing (in_vector v)) (meaning R.room R.holds self.old).schedule }
        ensures marks { (meaning R.room R.holds self.new).marks ≡ (meaning R.room R.holds self.old).marks }
    {
        let mut rest = v;
        while let Some(t) = highest(rest) {
            rest = without(rest, t);
            if !self.core.chain.has(t) {
                self.set.put(t);
            }
        }
    }
}
