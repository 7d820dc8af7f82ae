//! Worked texts of requests and replies, read and written by the public calls of the crates below.
#![tactic(auto)]

#[cfg(test)]
mod cuts;
#[cfg(test)]
mod heads;
#[cfg(test)]
mod limits;
#[cfg(test)]
mod replies;
#[cfg(test)]
mod report;
#[cfg(test)]
mod values;
