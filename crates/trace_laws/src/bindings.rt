//! Where the tokens of a request's contexts go. Each law is the contract of an empty function.

ghost use Rattle.trace_laws.specs.Bindings.{PastsKeepToTheirLink, TokensKeepToTheirLink};

/// All tokens of one context stand in heads on one link: the first is the provider's answer to a
/// start, and each later one its answer to the peer's token in the last reply read there (RFC
/// 4559).
pub fn tokens_keep_to_their_link()
    ensures { TokensKeepToTheirLink }
{}

/// So it is at every moment of a request.
pub fn pasts_keep_to_their_link()
    ensures { PastsKeepToTheirLink }
{}
