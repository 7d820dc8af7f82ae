//! The reading of one reply: what the window keeps is fed to the reader of replies, and then what
//! each read gives, so that no more is read than what decides. What is behind the reply stays in
//! the window.

ghost use Rattle.std.specs.Prelude.{◌≡◌, ◌≤◌, ◌==◌, ◌&&◌, ◌++◌, [], ℕ, Bool, true, false, length};
ghost use Rattle.std.specs.Prelude.{drop, List, IfSome};
ghost use Rattle.std.specs.declared.option.Option.{Option};
ghost use Rattle.spaces.specs.declared.roster.Method.{Method};
ghost use Rattle.link_trait.specs.declared.links.LinkName.{LinkName};
ghost use Rattle.link_trait.specs.Links.{has_link};
ghost use Rattle.link_trait.specs.declared.dialer.Traffic.{Traffic};
ghost use Rattle.connection_binding.specs.Ends.{IsReadFault, IsNoReadFault};
ghost use Rattle.connection_binding.specs.LinkStates.{LinkState};
ghost use Rattle.wire_head.specs.Feeding.{IsFed};
ghost use Rattle.wire_head.specs.Replies.{reply};
ghost use Rattle.connection_binding.specs.Readings.{IsOver, IsShownAtEnd, IsUndecided, IsPieceOf};
ghost use Rattle.connection_binding.specs.Readings.{IsFedAnswer, piece_of, IsPieceFault};
ghost use Rattle.connection_binding.specs.Readings.{IsNoPieceFault};

use crate::ends::ReadEnd;
use crate::window::Window;
use link_trait::{Dialer, Got, LinkName};
use spaces::Method;
use std::alloc::Global;
use wire_head::{At, Fed, ReplyReader};

/// Each read gives a byte at least, and a reply is decided by its 65,536 bytes of heads, its
/// 1,048,576 bytes of body and the byte behind them at the latest.
const MOST_READS: usize = 1_114_113;

/// What more bytes did to the reading of a reply.
#[derive(Debug, Drop)]
pub(crate) enum Piece {
    /// Nothing is decided yet.
    More,
    /// The link's end was read.
    AtEnd,
    /// The reading is over.
    Over(ReadEnd),
}

/// What the reader answers to one more piece, where that is an end of the reading, and how many
/// bytes of the piece are taken: those of the reply, or all where it shows none.
fn answered(reader: &mut ReplyReader, piece: &[u8]) -> (Option<ReadEnd>, usize)
    ensures answer { (method : Method) (text : List ℕ) → IsFed reader.old method text
        → IsFedAnswer (reply method (text ++ piece.now) false) (text ++ piece.now)
        result.0 (drop result.1 piece.now) }
    ensures fed { (method : Method) (text : List ℕ) → IsFed reader.old method text
        → result.0 ≡ None → IsFed reader.new method (text ++ piece.now) }
    ensures within { result.1 ≤ length piece.now }
    ensures quiet { IfSome result.0 IsNoReadFault }
{
    let Fed { used, at } = reader.feed(piece);
    match at {
        At::More => (None, piece.len()),
        At::Whole(reply) => (Some(ReadEnd::Whole(reply)), used.min(piece.len())),
        At::Fault(fault) => (Some(ReadEnd::Broken(fault)), piece.len()),
        At::NoMemory => (Some(ReadEnd::NoMemory), piece.len()),
    }
}

/// Feeds what the window keeps. What stays in it is behind the reply.
fn fed(reader: &mut ReplyReader, window: &mut Window) -> Option<ReadEnd>
    ensures answer { (method : Method) (text : List ℕ) → IsFed reader.old method text
        → IsFedAnswer (reply method (text ++ window.old) false) (text ++ window.old)
        result window.new }
    ensures fed { (method : Method) (text : List ℕ) → IsFed reader.old method text
        → result ≡ None → IsFed reader.new method (text ++ window.old) }
    ensures few { length window.new ≤ 8192 }
    ensures quiet { IfSome result IsNoReadFault }
{
    let (end, taken) = answered(reader, window.bytes());
    window.take(taken);
    end
}

/// Whether the link is lost, should it end here: it gave a reply before, and no byte since.
fn is_gone(window: &Window, has_replied: bool) -> bool
    ensures { result ≡ (length window.now == 0) && has_replied }
{
    window.bytes().is_empty() && has_replied
}

/// What all bytes show, of which no more follow.
fn shown_at_end(reader: ReplyReader, gone: bool) -> ReadEnd
    ensures shown { (method : Method) (text : List ℕ) → IsFed reader method text
        → IsShownAtEnd gone (reply method text true) result }
    ensures quiet { IsNoReadFault result }
{
    if gone {
        return ReadEnd::Lost;
    }
    match reader.end() {
        Ok(reply) => ReadEnd::Whole(reply),
        Err(fault) => ReadEnd::Broken(fault),
    }
}

/// A piece that was fed, by the end that it showed.
fn piece_of(end: Option<ReadEnd>) -> Piece
    ensures { result ≡ piece_of end }
{
    match end {
        None => Piece::More,
        Some(end) => Piece::Over(end),
    }
}

/// Reads once, and feeds what the read gave.
fn read_piece<D: Dialer>(
    dialer: &mut D,
    link: LinkName,
    window: &mut Window,
    reader: &mut ReplyReader,
) -> Piece
    requires open { has_link link (D.opened dialer.old) ≡ true }
    requires empty { window.old ≡ [] }
    ensures piece { (kept : List ℕ) (has_replied : Bool) (method : Method)
        (told : Option (List Traffic)) (least : ℕ) (gone : Bool)
        → (let state : LinkState = record { name = link; kept = kept; has_replied = has_replied }
        in IsUndecided state method
        (D.streams dialer.old) told (D.traffic dialer.old) least gone reader.old
        → IsPieceOf state method (D.streams dialer.old) told (D.traffic dialer.new)
        least gone reader.new result window.new) }
    ensures dials { D.dials dialer.new ≡ D.dials dialer.old }
    ensures opened { D.opened dialer.new ≡ D.opened dialer.old }
    ensures streams { D.streams dialer.new ≡ D.streams dialer.old }
    ensures later { D.faults dialer.old ≤ D.faults dialer.new }
    ensures fault { IsPieceFault D.sticks (D.faults dialer.old) (D.faults dialer.new) result }
    ensures quiet { D.quiet dialer.old → D.quiet dialer.new × IsNoPieceFault result }
    ensures few { length window.new ≤ 8192 }
{
    match window.fill(dialer, link) {
        Got::Bytes(_) => piece_of(fed(reader, window)),
        Got::End => Piece::AtEnd,
        Got::Failed => Piece::Over(ReadEnd::Failed {
            count: dialer.faults(),
        }),
        Got::NoMemory => Piece::Over(ReadEnd::NoMemory),
    }
}

/// Reads the reply to a request of that method from an open link, of which the window keeps what
/// was read behind its last reply, where it gave one.
pub(crate) fn read_reply<D: Dialer>(
    alloc: Global,
    dialer: &mut D,
    link: LinkName,
    window: &mut Window,
    has_replied: bool,
    method: Method,
) -> ReadEnd
    requires { has_link link (D.opened dialer.old) ≡ true }
    ensures reply { IsOver (record { name = link; kept = window.old; has_replied = has_replied })
        method (D.streams dialer.old) (D.traffic dialer.old) (D.traffic dialer.new)
        result window.new }
    ensures few { length window.new ≤ 8192 }
    ensures dials { D.dials dialer.new ≡ D.dials dialer.old }
    ensures opened { D.opened dialer.new ≡ D.opened dialer.old }
    ensures streams { D.streams dialer.new ≡ D.streams dialer.old }
    ensures later { D.faults dialer.old ≤ D.faults dialer.new }
    ensures fault { IsReadFault D.sticks (D.faults dialer.old) (D.faults dialer.new) result }
    ensures quiet { D.quiet dialer.old → D.quiet dialer.new × IsNoReadFault result }
{
    let mut gone = is_gone(window, has_replied);
    let Ok(mut reader) = ReplyReader::new(alloc, method) else {
        window.clear();
        return ReadEnd::NoMemory;
    };
    match fed(&mut reader, window) {
        Some(end) => return end,
        None => {}
    }
    for read in 0..MOST_READS {
        match read_piece(dialer, link, window, &mut reader) {
            Piece::More => gone = false,
            Piece::AtEnd => return shown_at_end(reader, gone),
            Piece::Over(end) => return end,
        }
    }
    unreachable!()
}
