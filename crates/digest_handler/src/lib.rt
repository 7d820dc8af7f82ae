//! The Digest scheme (RFC 7616, and RFC 2617 where a challenge names no `qop`): the terms of a
//! challenge, the credentials of a request, and the client's nonce.
#![tactic(auto)]

mod challenge_terms;
mod client_nonce;
mod credentials;
mod examples;
mod hash;

pub use challenge_terms::{Passed, TermsRead, terms_of};
pub use client_nonce::cnonce;
pub use credentials::respond;
pub use examples::{
    rfc_2617, rfc_2617_without_qop, rfc_7616_md5, rfc_7616_sha_256, rfc_challenges,
    sha_256_with_userhash, userhash_challenges,
};
pub use hash::{AuthHash, Md5Hash, Sha256Hash};
