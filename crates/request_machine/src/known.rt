//! What a machine knows of what it holds, by what the book has told.

ghost use Rattle.std.specs.Prelude.{◌≡◌, option_and_then, None, Some, true, IfSome, OnOk, IfErr};
ghost use Rattle.std.specs.Prelude.{option_map, IfOk};
ghost use Rattle.spaces.specs.declared.space.Scheme.TheVariants.{Negotiate};
ghost use Rattle.request_machine.specs.Heads.{kept_drew, nonce_next};
ghost use Rattle.request_machine.specs.Told.{scheme_told, gift_told, bare, IsReady, LacksOne};
ghost use Rattle.request_machine.specs.Told.{Lacks, nonce_told, with_space, with_identity};
ghost use Rattle.request_machine.specs.Told.{with_named, is_live, ended_told, IsLive, IsTokenOf};
ghost use Rattle.request_machine.specs.Told.{link_told, headed_told, carried_on_told};
ghost use Rattle.request_machine.specs.Contexts.{with_context};

use crate::holding::{Context, Holding, NamedTerms, Token};
use crate::stage::Piece;
use auth_events::Gift;
use auth_text::{Bytes, Identity, NoMemory};
use spaces::{Qop, Scheme, Space, same_scheme};
use std::alloc::Global;

/// The gift that is noted, where the identity is a Basic or Digest one.
pub(crate) fn gift_told(held: &Option<Holding>) -> Option<Gift>
    ensures { result ≡ option_and_then gift_told held.now }
{
    match held {
        None => None,
        Some(held) => match &held.space {
            None => None,
            Some(space) => match space.scheme() {
                Scheme::Basic => Some(held.gift),
                Scheme::Digest => Some(held.gift),
                _ => None,
            },
        },
    }
}

/// What is still held behind a draw of that epoch.
pub(crate) fn kept_drew(epoch: u32, held: Option<Holding>) -> Option<Holding>
    ensures { result ≡ option_and_then (kept_drew epoch) held }
{
    match held {
        None => None,
        Some(held) => {
            if held.preemptive.unwrap_or(epoch) == epoch {
                Some(held)
            } else {
                None
            }
        }
    }
}

pub(crate) fn bare(gift: Gift, terms: u32) -> Holding
    ensures { result ≡ bare gift terms None }
{
    Holding {
        gift,
        terms,
        preemptive: None,
        context: None,
        space: None,
        identity: None,
        named: None,
    }
}

/// What is lacking of what is held, before the next head.
#[derive(Clone, Copy)]
pub(crate) enum Lack {
    /// The book is to tell more of it.
    Piece(Piece),
    /// Its context is to begin.
    Context,
    /// Its context can't go on.
    Ended,
}

/// Whether nothing is lacking of what is held; else what is.
pub(crate) fn readiness(held: &Option<Holding>) -> Result<(), Lack>
    ensures ready { OnOk result (IfSome held.now IsReady) }
    ensures lack { IfErr result (λ lack. Lacks lack held.now) }
{
    match held {
        None => Ok(()),
        Some(held) => readiness_of(held),
    }
}

/// Whether the space is of the scheme.
pub(crate) fn is_of(space: &Space, scheme: Scheme) -> bool
    ensures { result ≡ scheme_told (Some space.now) scheme }
{
    same_scheme(space.scheme(), scheme)
}

pub(crate) fn readiness_of(held: &Holding) -> Result<(), Lack>
    ensures ready { OnOk result (IsReady held.now) }
    ensures lack { IfErr result (λ lack. LacksOne lack held.now) }
{
    let Some(space) = &held.space else {
        return Err(Lack::Piece(Piece::Space));
    };
    if is_of(space, Scheme::Negotiate) {
        return context_readiness(held);
    }
    if held.identity.is_none() {
        return Err(Lack::Piece(Piece::Identity));
    }
    if is_of(space, Scheme::Digest) && held.named.is_none() {
        return Err(Lack::Piece(Piece::Terms));
    }
    Ok(())
}

/// The same of a Negotiate identity. The default one is told by nobody.
#[tactic(auto, using(crate::proofs::Contexts::ready_live))]
fn context_readiness(held: &Holding) -> Result<(), Lack>
    requires { scheme_told held.now.space Negotiate ≡ true }
    ensures ready { OnOk result (IsReady held.now) }
    ensures lack { IfErr result (λ lack. LacksOne lack held.now) }
{
    match &held.context {
        Some(context) => match &context.token {
            Token::Live(_) => Ok(()),
            Token::Spent(_) => Err(Lack::Ended),
        },
        None => {
            if held.identity.is_none() && held.gift.ordinal != 0 {
                Err(Lack::Piece(Piece::Identity))
            } else {
                Err(Lack::Context)
            }
        }
    }
}

/// The link that the context of what is held has bound.
pub(crate) fn link_told(held: &Option<Holding>) -> Option<u32>
    ensures { result ≡ link_told held.now }
{
    match held {
        None => None,
        Some(held) => match &held.context {
            None => None,
            Some(context) => context.link,
        },
    }
}

/// The same as `readiness`, of what no link is bound for. A context that has bound one can't go on
/// yet.
pub(crate) fn unbound_readiness(held: &Option<Holding>) -> Result<(), Lack>
    ensures ready { OnOk result (IfSome held.now IsReady) }
    ensures unbound { OnOk result (link_told held.now ≡ None) }
    ensures lack { IfErr result (λ lack. Lacks lack held.now) }
{
    readiness(held)?;
    match link_told(held) {
        None => Ok(()),
        Some(_) => Err(Lack::Ended),
    }
}

/// A copy of the last token of the context of what is held.
pub(crate) fn last_token(alloc: Global, held: &Holding) -> Result<Bytes, NoMemory>
    requires { is_live held.now.context ≡ true }
    ensures { IfOk result (λ token. IsTokenOf token (Some held.now)) }
{
    match &held.context {
        None => unreachable!(),
        Some(context) => match &context.token {
            Token::Live(live) => Bytes::from_slice(alloc, live.token()),
            Token::Spent(_) => unreachable!(),
        },
    }
}

/// What is held, with its last token, and the context that goes on behind it.
pub(crate) fn ended_on(
    held: Option<Holding>,
    last: Bytes,
) -> (Option<Holding>, negotiate_handler::Context)
    requires live { IsLive held }
    requires last { IsTokenOf last held }
    ensures { result.0 ≡ option_map ended_told held }
{
    let Some(held) = held else {
        unreachable!();
    };
    let Holding {
        gift,
        terms,
        preemptive,
        context,
        space,
        identity,
        named,
    } = held;
    let Some(context) = context else {
        unreachable!();
    };
    let Context {
        token,
        is_sent,
        link,
    } = context;
    let Token::Live(live) = token else {
        unreachable!();
    };
    let token = Token::Spent(last);
    let context = Some(Context {
        token,
        is_sent,
        link,
    });
    let held = Holding {
        gift,
        terms,
        preemptive,
        context,
        space,
        identity,
        named,
    };
    (Some(held), live)
}

/// What is held behind a head over that link.
pub(crate) fn headed_told(link: u32, held: Option<Holding>) -> Option<Holding>
    ensures { result ≡ option_map (headed_told link) held }
{
    match held {
        None => None,
        Some(held) => Some(Holding {
            context: carried_on(link, held.context),
            ..held
        }),
    }
}

/// The same of its context.
fn carried_on(link: u32, context: Option<Context>) -> Option<Context>
    ensures { result ≡ option_map (carried_on_told link) context }
{
    match context {
        None => None,
        Some(context) => Some(Context {
            is_sent: true,
            link: Some(link),
            ..context
        }),
    }
}

/// The nonce of which a count is drawn.
pub(crate) fn nonce_told(held: &Holding) -> Option<u32>
    ensures { result ≡ nonce_told held.now }
{
    match &held.space {
        None => None,
        Some(space) => match space.scheme() {
            Scheme::Digest => match &held.named {
                None => None,
                Some(named) => match named.terms.qop {
                    Qop::Auth => Some(named.nonce),
                    Qop::Missing => None,
                },
            },
            _ => None,
        },
    }
}

/// The nonce of which a count is drawn next.
pub(crate) fn nonce_next(drawn: Option<u32>, held: &Option<Holding>) -> Option<u32>
    ensures { result ≡ nonce_next drawn held.now }
{
    if drawn.is_some() {
        return None;
    }
    match held {
        None => None,
        Some(held) => nonce_told(held),
    }
}

/// What is held, once its space is told.
pub(crate) fn with_space(held: Option<Holding>, space: Space) -> Option<Holding>
    ensures { result ≡ option_map (with_space space) held }
{
    match held {
        None => None,
        Some(held) => Some(Holding {
            space: Some(space),
            ..held
        }),
    }
}

/// What is held, once its identity is told.
pub(crate) fn with_identity(held: Option<Holding>, identity: Identity) -> Option<Holding>
    ensures { result ≡ option_map (with_identity identity) held }
{
    match held {
        None => None,
        Some(held) => Some(Holding {
            identity: Some(identity),
            ..held
        }),
    }
}

/// What is held, once its terms are told.
pub(crate) fn with_named(held: Option<Holding>, named: NamedTerms) -> Option<Holding>
    ensures { result ≡ option_map (with_named named) held }
{
    match held {
        None => None,
        Some(held) => Some(Holding {
            named: Some(named),
            ..held
        }),
    }
}

/// What is held, with a context that goes on behind the token, over the link that it has bound.
pub(crate) fn with_context(
    held: Option<Holding>,
    live: negotiate_handler::Context,
) -> Option<Holding>
    ensures { result ≡ option_map (with_context live) held }
{
    let link = link_told(&held);
    match held {
        None => None,
        Some(held) => Some(Holding {
            context: Some(Context {
                token: Token::Live(live),
                is_sent: false,
                link,
            }),
            ..held
        }),
    }
}
