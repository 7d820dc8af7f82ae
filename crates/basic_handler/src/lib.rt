//! Credentials of the Basic scheme (RFC 7617), both ways. They are sent as the bytes given,
//! whatever `charset` a challenge names.
#![tactic(auto)]

mod basic;

pub use basic::{BasicFault, credentials, credentials_read_back, read_credentials};
