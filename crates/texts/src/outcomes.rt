// What a line tells of a call.
ghost use Rattle.std.specs.Prelude.{◌≡◌};
ghost use Rattle.texts.specs.Outcomes.{outcome_number};

use machine::Refusal;

// What came of a record: its call was accepted, or was refused, or it spells no call. A line has a field for these
// three, and one for the mark, so a `Result` of the mark would be taken apart for each.
#[derive(Clone, Copy, PartialEq, Debug)]
pub enum Outcome {
    Accepted,
    Refused(Refusal),
    Unreadable,
}

impl Outcome {
    // The number by which a line names the outcome: `u8::from(outcome)` would not say which number.
    pub fn number(self) -> u8
        ensures { result ≡ outcome_number self }
    {
        match self {
            Outcome::Accepted => 0,
            Outcome::Refused(why) => why.number(),
            Outcome::Unreadable => 22,
        }
    }
}

// The outcome of a record, and then the running task, the vector of waiting tasks, the system ceiling, and the
// mark that an accepted test found.
#[derive(Clone, Copy, PartialEq, Debug)]
pub struct Report {
    pub outcome: Outcome,
    pub running: Option<u8>,
    pub waiting: u64,
    pub ceiling: Option<u8>,
    pub mark: Option<bool>,
}
