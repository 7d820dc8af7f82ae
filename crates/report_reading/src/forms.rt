//! What the words of the lines before the journal are taken for.

ghost use Rattle.std.specs.Prelude.{◌≡◌, IfOk, option_copied};
ghost use Rattle.spaces.specs.Sites.{numbered};
ghost use Rattle.report_reading.specs.Forms as spec;

use crate::choices::{algorithm_of, method_of, qop_of, scheme_of, target_of};
use crate::cut::word_at;
use crate::numbers::small;
use crate::values::{login_of, opaque_of, origin_of, partition_of, place_of, proxy_of};
use auth_events::TermsName;
use auth_text::{Bytes, Identity, NoMemory};
use session_text::read_word;
use spaces::{Origin, Request, Scheme, Site, Space, Terms, same_scheme};
use std::alloc::Global;

pub fn seed_form(words: &[Bytes]) -> Option<[u8; 32]>
    ensures { result ≡ spec.seed_form words.now }
{
    let mut seed = [0; 32];
    match hex::decode_to_slice(word_at(words, 1), &mut seed) {
        Ok(()) => Some(seed),
        Err(_) => None,
    }
}

pub fn default_form(alloc: Global, words: &[Bytes]) -> Result<Option<Origin>, NoMemory>
    ensures { IfOk result (λ origin. origin ≡ spec.default_form words.now) }
{
    origin_of(alloc, word_at(words, 1))
}

pub fn request_form(alloc: Global, words: &[Bytes]) -> Result<Option<Request>, NoMemory>
    ensures { IfOk result (λ request. request ≡ spec.request_form words.now) }
{
    let Some(partition) = partition_of(alloc, word_at(words, 3))? else {
        return Ok(None);
    };
    let Some(place) = place_of(alloc, word_at(words, 4))? else {
        return Ok(None);
    };
    let Some(proxy) = proxy_of(alloc, word_at(words, 5))? else {
        return Ok(None);
    };
    Ok(Some(Request {
        method: method_of(word_at(words, 2)),
        partition,
        place,
        proxy,
    }))
}

fn site_form(
    alloc: Global,
    partition: &[u8],
    target: &[u8],
    origin: &[u8],
) -> Result<Option<Site>, NoMemory>
    ensures { IfOk result (λ site. site ≡ spec.site_form partition.now target.now origin.now) }
{
    let Some(partition) = partition_of(alloc, partition)? else {
        return Ok(None);
    };
    let Some(origin) = origin_of(alloc, origin)? else {
        return Ok(None);
    };
    Ok(Some(Site {
        partition,
        target: target_of(target),
        origin,
    }))
}

fn with_realm(site: Site, scheme: &[u8], realm: Bytes) -> Option<Space>
    ensures { result ≡ spec.with_realm site scheme.now realm }
{
    let scheme = scheme_of(scheme);
    match scheme {
        Scheme::Negotiate => {
            if realm.is_empty() {
                return Some(Space::new(site, scheme, realm));
            }
            None
        }
        Scheme::Basic | Scheme::Digest | Scheme::Password => Some(Space::new(site, scheme, realm)),
    }
}

pub fn space_form(alloc: Global, words: &[Bytes]) -> Result<Option<Space>, NoMemory>
    ensures { IfOk result (λ space. space ≡ spec.space_form words.now) }
{
    let Some(site) = site_form(
        alloc,
        word_at(words, 2),
        word_at(words, 3),
        word_at(words, 4),
    )?
    else {
        return Ok(None);
    };
    let realm = read_word(alloc, word_at(words, 6))?;
    Ok(with_realm(site, word_at(words, 5), realm))
}

fn space_numbered(spaces: &[Space], number: u32) -> Option<&Space>
    ensures { option_copied result ≡ numbered spaces.now number }
{
    if number == 0 {
        return None;
    }
    spaces.get(number as usize - 1)
}

/// The realm of the Digest space of that number.
fn realm_at(alloc: Global, spaces: &[Space], number: u32) -> Result<Option<Bytes>, NoMemory>
    ensures { IfOk result (λ realm. realm ≡ spec.realm_at spaces.now number) }
{
    match space_numbered(spaces, number) {
        None => Ok(None),
        Some(space) => {
            if !same_scheme(space.scheme(), Scheme::Digest) {
                return Ok(None);
            }
            Ok(Some(Bytes::from_slice(alloc, space.realm())?))
        }
    }
}

/// The place of the word behind the opaque.
fn behind_opaque(key: &[u8]) -> usize
    ensures { result ≡ spec.behind_opaque key.now }
{
    if key == b"opaque".as_slice() {
        return 10;
    }
    9
}

fn terms_of(alloc: Global, words: &[Bytes], realm: Bytes) -> Result<Terms, NoMemory>
    ensures { IfOk result (λ terms. terms ≡ spec.terms_of words.now realm) }
{
    let nonce = read_word(alloc, word_at(words, 7))?;
    let opaque = opaque_of(alloc, word_at(words, 8), word_at(words, 9))?;
    Ok(Terms {
        algorithm: algorithm_of(word_at(words, 4)),
        said: word_at(words, 5) == b"said".as_slice(),
        realm,
        nonce,
        opaque,
        qop: qop_of(word_at(words, 6)),
        userhash: word_at(words, behind_opaque(word_at(words, 8))) == b"userhash".as_slice(),
    })
}

pub fn terms_form(
    alloc: Global,
    spaces: &[Space],
    words: &[Bytes],
) -> Result<Option<TermsName>, NoMemory>
    ensures { IfOk result (λ name. name ≡ spec.terms_form spaces.now words.now) }
{
    let space = small(word_at(words, 2));
    let Some(realm) = realm_at(alloc, spaces, space)? else {
        return Ok(None);
    };
    let terms = terms_of(alloc, words, realm)?;
    Ok(Some(TermsName {
        space,
        terms,
        nonce: small(word_at(words, 3)),
    }))
}

pub fn text_form(alloc: Global, words: &[Bytes]) -> Result<Option<Identity>, NoMemory>
    ensures { IfOk result (λ identity. identity ≡ spec.text_form words.now) }
{
    login_of(alloc, word_at(words, 2), word_at(words, 3))
}
