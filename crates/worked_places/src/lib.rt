//! Worked URLs, paths, partitions, rosters and protection spaces.
#![tactic(auto)]

#[cfg(test)]
mod rosters;
#[cfg(test)]
mod urls;
