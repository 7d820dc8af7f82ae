//! What a world does with the bytes that come on a link: it answers each head that they make whole.

ghost use Rattle.std.specs.Prelude.{◌≡◌, ◌++◌, ◌∷◌, [], ◌<◌, ◌≤◌, List, ℕ, None, length, drop};
ghost use Rattle.std.specs.Prelude.{true, IfOk, OnOk, OnErr, IfSome};
ghost use Rattle.wire_head.specs.Lines as lines;
ghost use Rattle.link_trait.specs.declared.dialer.Traffic.TheVariants.{Sent};
ghost use Rattle.link_trait.specs.Links.{has_link};
ghost use Rattle.link_trait.specs.Recorded.{IsKept};
ghost use Rattle.origin_sim.specs.Worlds.{IsAnswer, IsBehind};
ghost use Rattle.origin_sim.specs.Peers.{IsAnswering, IsServed};

use crate::peers::Peer;
use crate::world::World;
use auth_text::{Bytes, NoMemory, front_of, rest_of};
use link_trait::{LinkLog, LinkName};
use spaces::Origin;
use std::alloc::Global;

/// What a link's end keeps once bytes came: the front of a head, and the replies.
#[derive(Drop)]
pub(crate) struct Kept {
    pub(crate) part: Bytes,
    pub(crate) replies: Bytes,
}

// The length of the LF at the front and of the blank line behind it, where both are there.
fn end_len(text: &[u8]) -> Option<usize>
    ensures value { result ≡ lines.end_len text.now }
    ensures within { IfSome result (λ n. (0 < n) × (n ≤ length text.now)) }
{
    match text {
        [b'\n', b'\n', ..] => Some(2),
        [b'\n', b'\r', b'\n', ..] => Some(3),
        _ => None,
    }
}

// The length of the head at the front, which ends with its first blank line.
fn head_len(text: &[u8]) -> Option<usize>
    ensures value { result ≡ lines.head_len text.now }
    ensures within { IfSome result (λ n. (0 < n) × (n ≤ length text.now)) }
{
    for i in 0..text.len() {
        if let Some(n) = end_len(rest_of(text, i)) {
            return Some(i + n);
        }
    }
    None
}

// Adds the world's reply to a head.
fn answer_one(
    world: &mut World,
    name: LinkName,
    to: &Origin,
    head: &[u8],
    replies: &mut Bytes,
) -> Result<(), NoMemory>
    ensures ok { OnOk result ((reply : List ℕ)
        × IsAnswer world.old name to.now head.now reply world.new
        × (replies.new ≡ replies.old ++ reply)) }
    ensures behind { IsBehind world.old world.new }
{
    let reply = world.answer(name, to, head)?;
    replies.extend_from_slice(reply.as_slice())?;
    Ok(())
}

// Adds the world's replies to the whole heads of a text. The result is where the last one ends.
fn answer_all(
    world: &mut World,
    name: LinkName,
    to: &Origin,
    text: &[u8],
    replies: &mut Bytes,
) -> Result<usize, NoMemory>
    ensures within { IfOk result (λ at. at ≤ length text.now) }
    ensures none { IfOk result (λ at. lines.head_len (drop at text.now) ≡ None) }
    ensures answering { IfOk result (λ at. IsAnswering world.old name to.now text.now
        (drop at text.now) replies.old replies.new world.new) }
    ensures behind { IsBehind world.old world.new }
{
    let mut at = 0;
    'heads: while let Some(n) = head_len(rest_of(text, at)) {
        answer_one(world, name, to, front_of(rest_of(text, at), n), replies)?;
        at += n;
    }
    Ok(at)
}

/// The bytes were written to the peer's link, and the world answers the heads that they make whole.
/// After want of memory the world may have said more, and nothing was written.
pub(crate) fn served(
    alloc: Global,
    world: &mut World,
    log: &mut LinkLog,
    peer: &Peer,
    bytes: &[u8],
) -> Result<Kept, NoMemory>
    requires { has_link peer.now.name log.old.opened ≡ true }
    ensures served { IfOk result (λ it. IsServed world.old peer.now bytes.now it.part it.replies
        world.new) }
    ensures sent { OnOk result (log.new ≡ record {
      dials = log.old.dials;
      traffic = log.old.traffic ++ Sent peer.now.name bytes.now ∷ [];
      opened = log.old.opened;
    }) }
    ensures kept { OnOk result (IsKept log.new) }
    ensures err { OnErr result (log.new ≡ log.old) }
    ensures behind { IsBehind world.old world.new }
{
    let mut text = Bytes::from_slice(alloc, peer.part.as_slice())?;
    text.extend_from_slice(bytes)?;
    let mut replies = Bytes::from_slice(alloc, peer.replies.as_slice())?;
    let at = answer_all(world, peer.name, &peer.to, text.as_slice(), &mut replies)?;
    let part = Bytes::from_slice(alloc, rest_of(text.as_slice(), at))?;
    log.sent(peer.name, bytes)?;
    Ok(Kept { part, replies })
}
