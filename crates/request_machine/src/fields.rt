//! Credential fields of the next head.

ghost use Rattle.std.specs.Prelude.{◌≡◌, IfOk, IfSome, Some, option_and_then, option_map};
ghost use Rattle.std.specs.Prelude.{unwrap_or, true, false};
ghost use Rattle.std.specs.Option.{option_copied};
ghost use Rattle.spaces.specs.declared.space.Scheme.TheVariants.{Negotiate};
ghost use Rattle.spaces.specs.RequestTargets.{request_target};
ghost use Rattle.digest_handler.specs.Credentials.{digest_credentials};
ghost use Rattle.digest_handler.specs.ClientNonces.{client_nonce};
ghost use Rattle.wire_head.specs.RequestHeads.{head};
ghost use Rattle.negotiate_handler.specs.Tokens.{negotiate_credentials};
ghost use Rattle.request_machine.specs.Told.{IsReady, scheme_told, is_live, unsent_told};
ghost use Rattle.request_machine.specs.Told.{has_unsent};
ghost use Rattle.request_machine.specs.Making.{field_made};

use crate::holding::{Context, Holding, NamedTerms, Token};
use crate::known::is_of;
use auth_text::{Bytes, Identity, NoMemory};
use basic_handler::credentials;
use digest_handler::{cnonce, respond};
use spaces::{Method, Origin, Request, Scheme, Target};
use std::alloc::Global;
use wire_head::{HeadParts, write_head};

/// What a request's credentials are made of, beside the identity.
#[derive(Clone, Copy)]
pub(crate) struct Maker {
    pub number: u32,
    pub seed: [u8; 32],
    pub is_proxied: bool,
    pub head: u32,
}

/// The response to a Digest challenge of these terms.
pub(crate) fn digest_field(
    alloc: Global,
    maker: Maker,
    request: &Request,
    target: Target,
    count: Option<u32>,
    named: &NamedTerms,
    identity: &Identity,
) -> Result<Bytes, NoMemory>
    ensures { IfOk result
        (λ text. text ≡ digest_credentials named.now.terms identity.now request.now.method
        (request_target request.now.place maker.is_proxied) (unwrap_or count 0)
        (client_nonce maker.seed maker.number maker.head target)) }
{
    let uri = request.place.request_target(alloc, maker.is_proxied)?;
    let nonce = cnonce(&maker.seed, maker.number, maker.head, target);
    respond(
        alloc,
        &named.terms,
        identity,
        request.method,
        uri.as_slice(),
        count.unwrap_or(0),
        nonce.as_slice(),
    )
}

/// The credentials of a Basic or Digest identity of which all is told.
fn named_field(
    alloc: Global,
    maker: Maker,
    request: &Request,
    target: Target,
    count: Option<u32>,
    held: &Holding,
) -> Result<Bytes, NoMemory>
    requires ready { IsReady held.now }
    requires named { scheme_told held.now.space Negotiate ≡ false }
    ensures { IfOk result (λ text. field_made maker request.now target count held.now
        ≡ Some text) }
{
    let Some(space) = &held.space else {
        unreachable!();
    };
    let Some(identity) = &held.identity else {
        unreachable!();
    };
    if is_of(space, Scheme::Digest) {
        let Some(named) = &held.named else {
            unreachable!();
        };
        return digest_field(alloc, maker, request, target, count, named, identity);
    }
    credentials(alloc, identity)
}

/// The last token of a context, where no head has carried it.
fn token_field(alloc: Global, context: &Option<Context>) -> Result<Option<Bytes>, NoMemory>
    requires { is_live context.now ≡ true }
    ensures { IfOk result (λ text. text
        ≡ option_map negotiate_credentials (option_and_then unsent_told context.now)) }
{
    let Some(context) = context else {
        return Ok(None);
    };
    if context.is_sent {
        return Ok(None);
    }
    match &context.token {
        Token::Live(live) => {
            let text = live.field(alloc)?;
            Ok(Some(text))
        }
        Token::Spent(_) => unreachable!(),
    }
}

/// The credentials of an identity of which all is told; none where its token was sent.
fn held_field(
    alloc: Global,
    maker: Maker,
    request: &Request,
    target: Target,
    count: Option<u32>,
    held: &Holding,
) -> Result<Option<Bytes>, NoMemory>
    requires { IsReady held.now }
    ensures { IfOk result (λ text. text ≡ field_made maker request.now target count held.now) }
{
    let Some(space) = &held.space else {
        unreachable!();
    };
    if is_of(space, Scheme::Negotiate) {
        return token_field(alloc, &held.context);
    }
    let text = named_field(alloc, maker, request, target, count, held)?;
    Ok(Some(text))
}

/// The credentials of what is held, where something is.
pub(crate) fn field(
    alloc: Global,
    maker: Maker,
    request: &Request,
    target: Target,
    count: Option<u32>,
    held: &Option<Holding>,
) -> Result<Option<Bytes>, NoMemory>
    requires { IfSome held.now IsReady }
    ensures { IfOk result (λ text. text
        ≡ option_and_then (field_made maker request.now target count) held.now) }
{
    match held {
        None => Ok(None),
        Some(held) => held_field(alloc, maker, request, target, count, held),
    }
}

/// Whether the context of what is held has a token that no head has carried.
pub(crate) fn has_unsent(held: &Option<Holding>) -> bool
    ensures { result ≡ has_unsent held.now }
{
    match held {
        None => false,
        Some(held) => match &held.context {
            None => false,
            Some(context) => !context.is_sent,
        },
    }
}

fn head_with<'a>(
    alloc: Global,
    method: Method,
    origin: &'a Origin,
    target: &'a [u8],
    proxy: Option<&'a [u8]>,
    server: Option<&'a [u8]>,
    keep: bool,
) -> Result<Bytes, NoMemory>
    ensures { IfOk result (λ text. text ≡ head method target.now origin.now
        (option_copied proxy.entry) (option_copied server.entry) keep) }
{
    let parts = HeadParts {
        method,
        target,
        origin,
        proxy,
        server,
        keep,
    };
    write_head(alloc, &parts)
}

fn slice_of(text: &Option<Bytes>) -> Option<&[u8]>
    ensures { option_copied result ≡ text.now }
{
    match text {
        None => None,
        Some(text) => Some(text.as_slice()),
    }
}

/// The next head, by the two fields, and whether the link is kept behind it.
pub(crate) fn head(
    alloc: Global,
    is_proxied: bool,
    request: &Request,
    proxy: &Option<Bytes>,
    server: &Option<Bytes>,
    keep: bool,
) -> Result<Bytes, NoMemory>
    ensures { IfOk result (λ text. text
        ≡ head request.now.method (request_target request.now.place is_proxied)
        request.now.place.origin proxy.now server.now keep) }
{
    let target = request.place.request_target(alloc, is_proxied)?;
    let origin = &request.place.origin;
    let text = head_with(
        alloc,
        request.method,
        origin,
        target.as_slice(),
        slice_of(proxy),
        slice_of(server),
        keep,
    )?;
    Ok(text)
}
