//! The maps. What is noted gets its name afterwards, so a map may have a number more than is named.

ghost use Rattle.std.specs.Prelude.{◌≡◌, ℕ, IfOk, OnOk, None, Some};
ghost use Rattle.auth_events.specs.Tables.{no_names, nonce_for, nonce_number, space_number};
ghost use Rattle.auth_events.specs.Tables.{terms_number, with_space, with_terms};
ghost use Rattle.name_index.specs.Found.{KnowsNames, first_of_site};

use crate::checked::{nonce_checked, space_checked, terms_checked};
use crate::nonce_key::{NonceKey, key_of_nonce};
use crate::noting::{note_nonce, note_site};
use crate::terms_key::{TermsKey, key_of_terms};
use auth_events::Names;
use auth_text::NoMemory;
use space_keys::{SiteKey, SpaceKey, key_of_space};
use spaces::{Site, Space, Terms};
use std::alloc::Global;
use std::collections::BTreeMap;

/// The numbers of the names of a book, by the things that they name.
#[derive(Drop)]
pub struct NameIndex {
    alloc: Global,
    sites: BTreeMap<SiteKey, u32>,
    spaces: BTreeMap<SpaceKey, u32>,
    terms: BTreeMap<TermsKey, u32>,
    nonces: BTreeMap<NonceKey, u32>,
}

impl NameIndex {
    /// No names.
    pub fn new(alloc: Global) -> NameIndex
        ensures { KnowsNames result no_names }
    {
        NameIndex {
            alloc,
            sites: BTreeMap::new(alloc),
            spaces: BTreeMap::new(alloc),
            terms: BTreeMap::new(alloc),
            nonces: BTreeMap::new(alloc),
        }
    }

    /// The number of the space, where it has one.
    pub fn space_number(&self, names: &Names, space: &Space) -> Result<Option<u32>, NoMemory>
        requires { KnowsNames self.now names.now }
        ensures { IfOk result (λ number. number ≡ space_number names.now space.now) }
    {
        let key = key_of_space(self.alloc, space)?;
        let number = self.spaces.get(&key).copied();
        Ok(space_checked(names, space, number))
    }

    /// The number of the space's terms, where they have one.
    pub fn terms_number(
        &self,
        names: &Names,
        space: u32,
        terms: &Terms,
    ) -> Result<Option<u32>, NoMemory>
        requires { KnowsNames self.now names.now }
        ensures { IfOk result (λ number. number ≡ terms_number names.now space terms.now) }
    {
        let key = key_of_terms(self.alloc, space, terms)?;
        let number = self.terms.get(&key).copied();
        Ok(terms_checked(names, space, terms, number))
    }

    /// The number of the site's nonce, or the next one.
    fn nonce_number(&self, names: &Names, site: &Site, text: &[u8]) -> Result<u32, NoMemory>
        requires { KnowsNames self.now names.now }
        ensures { IfOk result (λ number. number ≡ nonce_number names.now site.now text.now) }
    {
        let key = key_of_nonce(self.alloc, site, text)?;
        let number = self.nonces.get(&key).copied();
        let number = nonce_checked(names, site, text, number);
        Ok(number.unwrap_or(names.nonces_len() + 1))
    }

    /// The number that the nonce of the terms has, or the next one. It is 0 where the space has no
    /// name.
    pub fn nonce_for(&self, names: &Names, space: u32, terms: &Terms) -> Result<u32, NoMemory>
        requires { KnowsNames self.now names.now }
        ensures { IfOk result (λ nonce. nonce ≡ nonce_for names.now space terms.now) }
    {
        match names.space(space) {
            Some(named) => self.nonce_number(names, named.site(), terms.nonce.as_slice()),
            None => Ok(0),
        }
    }

    /// Notes the next number for the space, which has none. It answers the number that the first
    /// space of its site then has. The names that it knew it still knows, also after an `Err`.
    pub fn note_space(&mut self, names: &Names, space: &Space) -> Result<u32, NoMemory>
        requires knows { KnowsNames self.old names.now }
        requires new { space_number names.now space.now ≡ None }
        ensures knows { KnowsNames self.new names.now }
        ensures next { OnOk result (KnowsNames self.new (with_space names.now space.now)) }
        ensures first { IfOk result (λ number.
            first_of_site (with_space names.now space.now).spaces space.now.site ≡ Some number) }
    {
        let first = note_site(self.alloc, &mut self.sites, names, space)?;
        let key = key_of_space(self.alloc, space)?;
        self.spaces.insert(key, names.spaces_len() + 1)?;
        Ok(first)
    }

    /// Notes the next number for the space's terms, which have none, and the number of their nonce.
    /// The names that it knew it still knows, also after an `Err`.
    pub fn note_terms(
        &mut self,
        names: &Names,
        space: u32,
        terms: &Terms,
        nonce: u32,
    ) -> Result<(), NoMemory>
        requires knows { KnowsNames self.old names.now }
        requires new { terms_number names.now space terms.now ≡ None }
        requires nonce { nonce ≡ nonce_for names.now space terms.now }
        ensures knows { KnowsNames self.new names.now }
        ensures next { OnOk result (KnowsNames self.new (with_terms names.now
            (record { space = space; terms = terms.now; nonce = nonce }))) }
    {
        note_nonce(self.alloc, &mut self.nonces, names, space, terms, nonce)?;
        let key = key_of_terms(self.alloc, space, terms)?;
        self.terms.insert(key, names.terms_len() + 1)?;
        Ok(())
    }
}
