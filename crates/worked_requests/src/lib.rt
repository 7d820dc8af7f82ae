//! Requests that are served by one caller while their links fail, or their user can't be asked, told
//! by public names alone.
#![tactic(auto)]

#[cfg(test)]
mod calls;
#[cfg(test)]
mod failing;
#[cfg(test)]
mod prompting;
