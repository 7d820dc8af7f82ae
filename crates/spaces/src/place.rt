//! Places: the parts of an http URL that authentication looks at, read by the crate `url`, so that
//! no host or path is understood otherwise here than by the browser around it.

ghost use Rattle.std.specs.Prelude.{◌≡◌, Ok, IfOk};
ghost use Rattle.auth_text.specs.Gives.{GivesBy};
ghost use Rattle.percent_encoding.specs.Percent.{percent_decode};
ghost use Rattle.spaces.specs.Places.{place, http_url, parts_place, url_login};
ghost use Rattle.url.specs.Parts.{IsValid};

use auth_text::{Bytes, Identity, IdentityFault};
use percent_encoding::percent_decode;
use std::alloc::Global;
use std::{fmt, str};
use thiserror::Error;
use url::{ParseError, Url};

/// Why bytes are no place.
#[derive(Clone, Copy, Debug, PartialEq, Eq, Error)]
pub enum PlaceFault {
    /// The bytes are not UTF-8, or no URL.
    #[error("no URL")]
    BadUrl,
    /// The scheme is not `http`.
    #[error("the scheme is not http")]
    NotHttp,
    #[error("no memory")]
    NoMemory,
}

/// Where a server or a proxy listens. The scheme is always `http`.
#[derive(Clone, Debug, Drop, PartialEq, Eq)]
pub struct Origin {
    /// As the URL standard writes it, so in lower case and with brackets round an IPv6 address.
    pub host: Bytes,
    /// 80 where the URL has none.
    pub port: u16,
}

/// An http URL, taken apart.
#[derive(Clone, Drop, PartialEq, Eq)]
pub struct Place {
    /// The URL as the URL standard writes it.
    pub text: Bytes,
    pub origin: Origin,
    pub path: Bytes,
    /// What stands behind `?`, without the fragment.
    pub query: Option<Bytes>,
    /// The percent-decoded user and password, where one isn't empty and `Identity` takes them.
    pub identity: Option<Identity>,
}

/// `{:?}` leaves the text out, since it has the password of the URL.
impl fmt::Debug for Place {
    fn fmt<W: fmt::Write>(&self, f: &mut fmt::Formatter<W>) -> fmt::Result {
        f.debug_struct("Place")
            .field("origin", &self.origin)
            .field("path", &self.path)
            .field("query", &self.query)
            .field("identity", &self.identity)
            .finish_non_exhaustive()
    }
}

fn url_of(alloc: Global, text: &[u8]) -> Result<Url, PlaceFault>
    ensures { GivesBy PlaceFault.NoMemory (λ url. url) result (http_url text.now) }
{
    let Ok(text) = str::from_utf8(text) else {
        return Err(PlaceFault::BadUrl);
    };
    match Url::parse(alloc, text) {
        Ok(url) => {
            if url.scheme() == "http" {
                Ok(url)
            } else {
                Err(PlaceFault::NotHttp)
            }
        }
        Err(ParseError::OutOfMemory | ParseError::Overflow) => Err(PlaceFault::NoMemory),
        Err(_) => Err(PlaceFault::BadUrl),
    }
}

fn copy(alloc: Global, text: &str) -> Result<Bytes, PlaceFault>
    ensures { GivesBy PlaceFault.NoMemory (λ bytes. bytes) result (Ok text.now) }
{
    match Bytes::from_slice(alloc, text.as_bytes()) {
        Ok(bytes) => Ok(bytes),
        Err(_) => Err(PlaceFault::NoMemory),
    }
}

fn decoded(alloc: Global, text: &str) -> Result<Vec<u8>, PlaceFault>
    ensures { GivesBy PlaceFault.NoMemory
        (λ bytes. bytes.items) result (Ok (percent_decode text.now)) }
{
    let mut out = Vec::new(alloc);
    match percent_decode(text.as_bytes()).append_to(&mut out) {
        Ok(()) => Ok(out),
        Err(_) => Err(PlaceFault::NoMemory),
    }
}

/// The identity in a URL, where one of its parts isn't empty and an identity takes them.
fn identity_of(alloc: Global, url: &Url) -> Result<Option<Identity>, PlaceFault>
    ensures { GivesBy PlaceFault.NoMemory (λ it. it) result (Ok (url_login url.now)) }
{
    let user = decoded(alloc, url.username())?;
    let password = decoded(alloc, url.password().unwrap_or(""))?;
    if user.is_empty() && password.is_empty() {
        return Ok(None);
    }
    match Identity::new(alloc, user.as_slice(), password.as_slice()) {
        Ok(identity) => Ok(Some(identity)),
        Err(IdentityFault::NoMemory) => Err(PlaceFault::NoMemory),
        Err(_) => Ok(None),
    }
}

fn parts_of(alloc: Global, url: &Url) -> Result<Place, PlaceFault>
    ensures value { GivesBy PlaceFault.NoMemory (λ it. it) result (Ok (parts_place url.now)) }
    ensures valid { IfOk result (λ it. IsValid url.now) }
{
    let identity = identity_of(alloc, url)?;
    let text = copy(alloc, url.as_str())?;
    let host = copy(alloc, url.host_str().unwrap_or(""))?;
    let port = url.port().unwrap_or(80);
    let path = copy(alloc, url.path())?;
    let query = match url.query() {
        Some(query) => Some(copy(alloc, query)?),
        None => None,
    };
    Ok(Place {
        text,
        origin: Origin { host, port },
        path,
        query,
        identity,
    })
}

/// Reads a URL. `BadUrl` comes exactly where the bytes aren't UTF-8 or no URL, then `NotHttp`
/// exactly where the scheme isn't `http`. A URL that is too long for the parser is `NoMemory`.
/// The text of the place, which is the URL as the URL standard writes it, reads as the same place.
#[tactic(auto, using(crate::proofs::PlaceLemmas::reads_again))]
pub fn place_of(alloc: Global, text: &[u8]) -> Result<Place, PlaceFault>
    ensures value { GivesBy PlaceFault.NoMemory (λ it. it) result (place text.now) }
    ensures again { IfOk result (λ it. place it.text ≡ Ok it) }
{
    let url = url_of(alloc, text)?;
    parts_of(alloc, &url)
}
