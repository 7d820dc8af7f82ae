//! Worked caches and path indexes of one partition.
#![tactic(auto)]

#[cfg(test)]
mod caches;
#[cfg(test)]
mod paths;
