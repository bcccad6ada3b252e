// Cases of the text formats, run as tests: records, the calls they spell, and lines.
#![tactic(auto)]

#[cfg(test)]
mod lines;
#[cfg(test)]
mod records;
#[cfg(test)]
mod requests;
