//! Worked exchanges with simulated servers and a proxy over the links of a dialer into their world.
//! The responses of Digest credentials were computed by RFC 7616, section 3.4.1, with another
//! program's MD5.
#![tactic(auto)]

#[cfg(test)]
mod heads;
#[cfg(test)]
mod servers;
#[cfg(test)]
mod tests;
