//! What a dialer into a world keeps of each open link: what came on it that is no whole head yet,
//! and what the world replied on it.

ghost use Rattle.std.specs.Prelude.{◌≡◌, [], ◌<◌, true, false, filter, not, length};
ghost use Rattle.std.specs.Prelude.{IfOk, IfSome};
ghost use Rattle.std.specs.List.{position_from, position_or_len};
ghost use Rattle.link_trait.specs.Links.{has_link, same_link};
ghost use Rattle.origin_sim.specs.Peers.{names_of};

use auth_text::{Bytes, NoMemory};
use link_trait::{LinkName, same_link};
use spaces::{Origin, copy_origin};
use std::alloc::Global;

/// The world's end of an open link.
#[derive(Drop)]
pub(crate) struct Peer {
    pub(crate) name: LinkName,
    pub(crate) to: Origin,
    /// What came behind the last whole head.
    pub(crate) part: Bytes,
    /// All replies to the heads that came.
    pub(crate) replies: Bytes,
    /// Whether the end was read.
    pub(crate) ended: bool,
}

/// The end of a link on which nothing came.
pub(crate) fn new_peer(alloc: Global, name: LinkName, to: &Origin) -> Result<Peer, NoMemory>
    ensures { IfOk result (λ peer. peer
        ≡ record { name = name; to = to.now; part = []; replies = []; ended = false }) }
{
    Ok(Peer {
        name,
        to: copy_origin(to)?,
        part: Bytes::new(alloc),
        replies: Bytes::new(alloc),
        ended: false,
    })
}

// The place of the first end of that name.
fn position(peers: &[Peer], name: LinkName) -> Option<usize>
    ensures value { result ≡ position_from (λ peer. same_link peer.name name) 0 peers.now }
    ensures within { IfSome result (λ place. place < length peers.now) }
{
    peers.iter().position(|peer| same_link(peer.name, name))
}

/// The place of the open link's end.
pub(crate) fn place_of(peers: &[Peer], name: LinkName) -> usize
    requires { has_link name (names_of peers.now) ≡ true }
    ensures within { result < length peers.now }
    ensures first { result ≡ position_or_len (λ peer. same_link peer.name name) peers.now }
{
    match position(peers, name) {
        Some(place) => place,
        None => unreachable!(),
    }
}

/// The link is closed.
pub(crate) fn close_peer(peers: &mut Vec<Peer>, name: LinkName)
    ensures { peers.new.items ≡ filter (λ peer. not (same_link peer.name name)) peers.old.items }
{
    peers.retain(|peer| !same_link(peer.name, name));
}
