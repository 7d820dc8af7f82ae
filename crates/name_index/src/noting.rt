//! Sites and nonces, noted with what has them: a site with its first space, a nonce with its first
//! terms.

ghost use Rattle.std.specs.Prelude.{◌≡◌, ◌++◌, ◌∷◌, [], IfOk, OnOk, Some};
ghost use Rattle.auth_events.specs.Tables.{nonce_for, with_nonce};
ghost use Rattle.name_index.specs.Found.{KnowsNonces, KnowsSites, first_of_site};

use crate::checked::site_checked;
use crate::nonce_key::{NonceKey, key_of_nonce};
use auth_events::Names;
use auth_text::NoMemory;
use space_keys::{SiteKey, key_of_site};
use spaces::{Space, Terms};
use std::alloc::Global;
use std::collections::BTreeMap;

/// Notes the next number for the space's site, where no space of it is named. It answers the number
/// of the first space of the site. The sites that were known still are, also after an `Err`.
pub(crate) fn note_site(
    alloc: Global,
    sites: &mut BTreeMap<SiteKey, u32>,
    names: &Names,
    space: &Space,
) -> Result<u32, NoMemory>
    requires { KnowsSites sites.old names.now.spaces }
    ensures knows { KnowsSites sites.new names.now.spaces }
    ensures next { OnOk result (KnowsSites sites.new (names.now.spaces ++ space.now ∷ [])) }
    ensures first { IfOk result (λ number.
        first_of_site (names.now.spaces ++ space.now ∷ []) space.now.site ≡ Some number) }
{
    let key = key_of_site(alloc, space.site())?;
    let number = sites.get(&key).copied();
    match site_checked(names, space.site(), number) {
        Some(number) => Ok(number),
        None => {
            let next = names.spaces_len() + 1;
            sites.insert(key, next)?;
            Ok(next)
        }
    }
}

/// Notes the number of the terms' nonce, where it is the next one. The nonces that were known still
/// are, also after an `Err`.
pub(crate) fn note_nonce(
    alloc: Global,
    nonces: &mut BTreeMap<NonceKey, u32>,
    names: &Names,
    space: u32,
    terms: &Terms,
    nonce: u32,
) -> Result<(), NoMemory>
    requires knows { KnowsNonces nonces.old names.now.nonces }
    requires nonce { nonce ≡ nonce_for names.now space terms.now }
    ensures knows { KnowsNonces nonces.new names.now.nonces }
    ensures next { OnOk result (KnowsNonces nonces.new (with_nonce names.now
        (record { space = space; terms = terms.now; nonce = nonce }))) }
{
    if nonce <= names.nonces_len() {
        return Ok(());
    }
    match names.space(space) {
        Some(named) => {
            let key = key_of_nonce(alloc, named.site(), terms.nonce.as_slice())?;
            nonces.insert(key, nonce)?;
            Ok(())
        }
        None => unreachable!(),
    }
}
