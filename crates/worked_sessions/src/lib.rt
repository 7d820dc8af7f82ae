//! Worked words and sessions, right and wrong.
#![tactic(auto)]

#[cfg(test)]
mod sessions;
#[cfg(test)]
mod words;
