//! Worked challenges and credentials of the Digest scheme: those of the standards and of servers.
#![tactic(auto)]

#[cfg(test)]
mod challenges;
#[cfg(test)]
mod credentials;
