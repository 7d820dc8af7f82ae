//! The nonce of a site as a key of an ordered map: the site's key, and the nonce's text.

ghost use Rattle.std.specs.Prelude.{◌≡◌, IfOk};
ghost use Rattle.name_index.specs.NonceKeys.{IsKeyOfNonce};

use auth_text::NoMemory;
use space_keys::{SiteKey, key_of_site};
use spaces::Site;
use std::alloc::Global;

/// The parts of a site, and a nonce's text.
#[derive(PartialEq, Eq, PartialOrd, Ord, Drop)]
pub struct NonceKey {
    site: SiteKey,
    text: Vec<u8>,
}

/// The key of a nonce of the site.
pub fn key_of_nonce(alloc: Global, site: &Site, text: &[u8]) -> Result<NonceKey, NoMemory>
    ensures { IfOk result (λ key. IsKeyOfNonce key (site.now, text.now)) }
{
    Ok(NonceKey {
        site: key_of_site(alloc, site)?,
        text: Vec::from_slice(alloc, text)?,
    })
}
