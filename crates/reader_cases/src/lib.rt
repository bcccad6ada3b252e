// The reader of plan texts on examples: accepted texts with their plans, each fault at its place, and the limits.
#![tactic(auto)]

#[cfg(test)]
mod limits;
#[cfg(test)]
mod places;
#[cfg(test)]
mod texts;
#[cfg(test)]
mod verdicts;
