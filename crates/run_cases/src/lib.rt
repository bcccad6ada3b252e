// Cases of whole runs, of the two tables and of what the programs share, run as tests. Where a contract leaves want of
// memory open, they show that the call succeeds.
#![tactic(auto)]

#[cfg(test)]
mod headers;
#[cfg(test)]
mod programs;
#[cfg(test)]
mod replies;
#[cfg(test)]
mod shown;
#[cfg(test)]
mod yard;
