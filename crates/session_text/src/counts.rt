//! What `check` writes: how much a session asks for.

ghost use Rattle.std.specs.Prelude.{◌≡◌, IfOk, OnOk, ◌++◌, decimal, sum_by, length, codes};
ghost use Rattle.session_text.specs.Counts.{counts_line, links_of};

use crate::session::Session;
use auth_text::{Bytes, NoMemory};
use itoa::Buffer;
use link_trait::Links;
use std::alloc::Global;

/// How many links are recorded. Two lengths of 64 bits bound it, so it is counted in 128.
fn links_of(links: &Links) -> u128
    ensures { result ≡ links_of links.now }
{
    let mut count: u128 = 0;
    for streams in links.as_slice() {
        count += streams.len() as u128;
    }
    count
}

fn push_count(out: &mut Bytes, count: u128, what: &[u8]) -> Result<(), NoMemory>
    ensures { OnOk result (out.new ≡ out.old ++ decimal count ++ what.now) }
{
    let mut digits = Buffer::new();
    out.extend_from_slice(digits.format(count).as_bytes())?;
    out.extend_from_slice(what)
}

/// The line `session R requests, W workers, A answers, L links`, with its line end. L counts the
/// links of all requests.
pub fn counts_of(alloc: Global, session: &Session) -> Result<Bytes, NoMemory>
    ensures { IfOk result (λ line. line ≡ counts_line session.now) }
{
    let mut line = Bytes::from_slice(alloc, b"session ")?;
    push_count(
        &mut line,
        session.roster.requests.len() as u128,
        b" requests, ",
    )?;
    push_count(&mut line, session.workers as u128, b" workers, ")?;
    push_count(&mut line, session.answers.len() as u128, b" answers, ")?;
    push_count(&mut line, links_of(&session.links), b" links\n")?;
    Ok(line)
}
