// Why a plan text is refused.
ghost use Rattle.std.specs.Prelude.{◌≡◌};
ghost use Rattle.oil.specs.Faults.{raised_plan, refusal, number_of, layer_of, explanation};

use grammar::fault::{GrammarCause, GrammarFault};
use letters::fault::LettersCause;
use std::error::Error;
use std::fmt;

// The layer of the reader that found a fault.
#[derive(Clone, Copy, PartialEq, Debug)]
pub enum Layer {
    Letters,
    Grammar,
    Plan,
}

#[derive(Clone, Copy, PartialEq, Debug)]
pub enum PlanCause {
    Grammar(GrammarCause),
    // A reference to a name that is unknown or of another kind.
    NotKnown,
    // A name that is already declared.
    NameTaken,
    // A PRIORITY over 63 or taken, or an ACTIVATION other than 1.
    WrongNumber,
    // A 65th task, a 33rd resource or a 33rd event.
    TooMany,
    // A complete text without a task.
    NoTask,
    // A name table of fewer than 128 records.
    SmallTable,
}

// The cause of a refusal, and the byte of the text where it was found.
#[derive(Clone, Copy, PartialEq, Debug)]
pub struct PlanFault {
    pub cause: PlanCause,
    pub place: usize,
}

impl From<GrammarFault> for PlanFault {
    ghost from_gives = { λ x y. y ≡ raised_plan x };

    fn from(fault: GrammarFault) -> PlanFault {
        PlanFault {
            cause: PlanCause::Grammar(fault.cause),
            place: fault.place,
        }
    }
}

impl PlanFault {
    // A fault of the plan's own layer.
    pub fn new(cause: PlanCause, place: usize) -> PlanFault
        ensures { result ≡ refusal cause place }
    {
        PlanFault { cause, place }
    }

    // The number of the fault, from 1 to 9, as the programs print it; a cause in a cause has no discriminant of its own.
    pub fn number(&self) -> u8
        ensures { result ≡ number_of self.now.cause }
    {
        match self.cause {
            PlanCause::Grammar(GrammarCause::Letters(LettersCause::TooLong)) => 1,
            PlanCause::Grammar(GrammarCause::Letters(LettersCause::NoToken)) => 2,
            PlanCause::Grammar(GrammarCause::Misplaced) => 3,
            PlanCause::NotKnown => 4,
            PlanCause::NameTaken => 5,
            PlanCause::WrongNumber => 6,
            PlanCause::TooMany => 7,
            PlanCause::NoTask => 8,
            PlanCause::SmallTable => 9,
        }
    }

    // The layer that found the fault.
    pub fn layer(&self) -> Layer
        ensures { result ≡ layer_of self.now.cause }
    {
        match self.cause {
            PlanCause::Grammar(GrammarCause::Letters(_)) => Layer::Letters,
            PlanCause::Grammar(GrammarCause::Misplaced) => Layer::Grammar,
            _ => Layer::Plan,
        }
    }

    // The byte of the text where the fault was found: public, and kept for its callers.
    pub fn place(&self) -> usize
        ensures { result ≡ self.now.place }
    {
        self.place
    }

    // What was wrong, in a few words, as a text that stays. It is public, and `Display` writes it.
    pub fn explain(&self) -> &'static str
        ensures { result.now ≡ explanation self.now.cause }
    {
        match self.cause {
            PlanCause::Grammar(cause) => cause.explain(),
            PlanCause::NotKnown => "no resource or event of this name is declared before",
            PlanCause::NameTaken => "this name is already declared",
            PlanCause::WrongNumber => "PRIORITY is over 63 or taken, or ACTIVATION is not 1",
            PlanCause::TooMany => "there are more than 64 tasks, 32 resources or 32 events",
            PlanCause::NoTask => "the text declares no task",
            PlanCause::SmallTable => "the name table has fewer than 128 records",
        }
    }
}

// The words of the cause; the place is told by the caller, as a line and a column.
impl fmt::Display for PlanFault {
    ghost use Rattle.std.specs.Prelude.{Some};
    ghost use Rattle.oil.specs.Faults.{explanation};

    ghost output = { λ f. Some (explanation f.cause) };

    fn fmt<W: fmt::Write>(&self, f: &mut fmt::Formatter<W>) -> fmt::Result {
        f.write_str(self.explain())
    }
}

impl Error for PlanFault {}
