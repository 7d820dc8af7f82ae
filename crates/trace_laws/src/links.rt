//! The link of a request that was dialed last. Each law is the contract of an empty function.

ghost use Rattle.trace_laws.specs.LastLinks.{BoundLinksAreLast, HeadsGoOverTheLast};
ghost use Rattle.trace_laws.specs.LastLinks.{LaterLinksAreUnread, RepliesComeOnTheLast};

/// While tokens of a context bind a link (RFC 4559), no other is dialed; so the bound link is the
/// one that was dialed last.
pub fn bound_links_are_last()
    ensures { BoundLinksAreLast }
{}

/// Each head goes over the link that was dialed last.
pub fn heads_go_over_the_last()
    ensures { HeadsGoOverTheLast }
{}

/// Each reply is read on the link that was dialed last.
pub fn replies_come_on_the_last()
    ensures { RepliesComeOnTheLast }
{}

/// Of links that will be dialed later no reply was read.
pub fn later_links_are_unread()
    ensures { LaterLinksAreUnread }
{}
