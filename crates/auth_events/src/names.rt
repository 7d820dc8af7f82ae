//! What the numbers in a journal name: spaces, Digest terms, nonces and identities. Two realms of
//! one site share the nonce of one text, since a server counts the uses of a nonce.

ghost use Rattle.std.specs.Prelude.{◌≡◌, ◌≤◌, ◌<◌, ◌+◌, ◌++◌, ◌∷◌, [], length, OnOk, OnErr, IfErr};
ghost use Rattle.std.specs.Prelude.{IfOk, IfSome, IsTrue, option_copied, option_map, suc, None};
ghost use Rattle.std.specs.Prelude.{Some};
ghost use Rattle.std.specs.List.{position_from};
ghost use Rattle.spaces.specs.ProtectionSpaces.{has_realm};
ghost use Rattle.spaces.specs.Sites.{numbered, same_space};
ghost use Rattle.auth_events.specs.Tables.{no_names, is_that_terms, is_that_nonce, space_number};
ghost use Rattle.auth_events.specs.Tables.{terms_number, nonce_number, nonce_for, nonce_named};
ghost use Rattle.auth_events.specs.Tables.{is_home, with_space, with_terms, with_text};

use auth_text::{Bytes, Identity, NoMemory};
use spaces::{Site, Space, Terms, same_site, same_space, same_terms};
use std::alloc::{AllocError, AllocFailed, Global};
use std::marker::Model;

/// The name of a terms number.
#[derive(Debug, Drop)]
pub struct TermsName {
    /// The number of a Digest space with the terms' realm.
    pub space: u32,
    pub terms: Terms,
    /// The number of the nonce.
    pub nonce: u32,
}

/// The name of a nonce number.
#[derive(Debug, Drop)]
pub struct NonceName {
    pub site: Site,
    /// The nonce.
    pub text: Bytes,
}

/// Seen as four lists in order of number. Numbers begin at 1.
#[derive(Debug, Drop)]
pub struct Names {
    spaces: Vec<Space>,
    terms: Vec<TermsName>,
    nonces: Vec<NonceName>,
    texts: Vec<Identity>,
}

impl Model for Names {
    ghost use Rattle.auth_events.specs.Tables.{Tables, AreNames, AreFew};

    ghost Value = { Tables };

    ghost view = { λ n. record {
      spaces = n.spaces.items;
      terms = n.terms.items;
      nonces = n.nonces.items;
      texts = n.texts.items;
    } };

    ghost invariant = { λ n. AreNames (record {
      spaces = n.spaces.items;
      terms = n.terms.items;
      nonces = n.nonces.items;
      texts = n.texts.items;
    })
        × AreFew 2048 (record {
          spaces = n.spaces.items;
          terms = n.terms.items;
          nonces = n.nonces.items;
          texts = n.texts.items;
        }) };
}

fn position_of_space(spaces: &[Space], space: &Space) -> Option<usize>
    ensures place { result ≡ position_from (λ named. same_space named space.now) 0 spaces.now }
    ensures within { IfSome result (λ at. at < length spaces.now) }
{
    spaces.iter().position(|named| same_space(named, space))
}

fn is_that_terms(name: &TermsName, space: u32, terms: &Terms) -> bool
    ensures { result ≡ is_that_terms space terms.now name.now }
{
    name.space == space && same_terms(&name.terms, terms)
}

fn position_of_terms(names: &[TermsName], space: u32, terms: &Terms) -> Option<usize>
    ensures place { result ≡ position_from (is_that_terms space terms.now) 0 names.now }
    ensures within { IfSome result (λ at. at < length names.now) }
{
    names
        .iter()
        .position(|name| is_that_terms(name, space, terms))
}

fn is_that_nonce(name: &NonceName, site: &Site, text: &[u8]) -> bool
    ensures { result ≡ is_that_nonce site.now text.now name.now }
{
    same_site(&name.site, site) && name.text.as_slice() == text
}

fn position_of_nonce(names: &[NonceName], site: &Site, text: &[u8]) -> Option<usize>
    ensures place { result ≡ position_from (is_that_nonce site.now text.now) 0 names.now }
    ensures within { IfSome result (λ at. at < length names.now) }
{
    names
        .iter()
        .position(|name| is_that_nonce(name, site, text))
}

/// The number of a place.
fn number_at(place: Option<usize>) -> Option<u32>
    requires { IfSome place (λ at. at < 131072) }
    ensures { result ≡ option_map suc place }
{
    match place {
        Some(at) => Some(at as u32 + 1),
        None => None,
    }
}

impl Names {
    /// No names.
    pub fn new(alloc: Global) -> Self
        ensures { result ≡ no_names }
    {
        Names {
            spaces: Vec::new(alloc),
            terms: Vec::new(alloc),
            nonces: Vec::new(alloc),
            texts: Vec::new(alloc),
        }
    }

    /// How many spaces are named.
    pub fn spaces_len(&self) -> u32
        ensures len { result ≡ length self.now.spaces }
        ensures few { result ≤ 131072 }
    {
        self.spaces.len() as u32
    }

    /// How many terms are named.
    pub fn terms_len(&self) -> u32
        ensures len { result ≡ length self.now.terms }
        ensures few { result ≤ 131072 }
    {
        self.terms.len() as u32
    }

    /// How many nonces are named.
    pub fn nonces_len(&self) -> u32
        ensures len { result ≡ length self.now.nonces }
        ensures few { result ≤ 32768 }
    {
        self.nonces.len() as u32
    }

    /// How many texts are named.
    pub fn texts_len(&self) -> u32
        ensures len { result ≡ length self.now.texts }
        ensures few { result ≤ 131072 }
    {
        self.texts.len() as u32
    }

    /// The spaces, from number 1.
    pub fn spaces(&self) -> &[Space]
        ensures spaces { result.now ≡ self.now.spaces }
        ensures few { length result.now ≤ 131072 }
    {
        self.spaces.as_slice()
    }

    /// The Digest terms, from number 1.
    pub fn all_terms(&self) -> &[TermsName]
        ensures terms { result.now ≡ self.now.terms }
        ensures few { length result.now ≤ 131072 }
    {
        self.terms.as_slice()
    }

    /// The identities that prompts gave, from number 1.
    pub fn texts(&self) -> &[Identity]
        ensures texts { result.now ≡ self.now.texts }
        ensures few { length result.now ≤ 131072 }
    {
        self.texts.as_slice()
    }

    /// The space of that number.
    pub fn space(&self, number: u32) -> Option<&Space>
        ensures { option_copied result ≡ numbered self.now.spaces number }
    {
        if number == 0 {
            return None;
        }
        self.spaces.get(number as usize - 1)
    }

    /// The terms of that number.
    pub fn terms(&self, number: u32) -> Option<&TermsName>
        ensures { option_copied result ≡ numbered self.now.terms number }
    {
        if number == 0 {
            return None;
        }
        self.terms.get(number as usize - 1)
    }

    /// The nonce of that number.
    pub fn nonce(&self, number: u32) -> Option<&NonceName>
        ensures { option_copied result ≡ numbered self.now.nonces number }
    {
        if number == 0 {
            return None;
        }
        self.nonces.get(number as usize - 1)
    }

    /// The identity of that number.
    pub fn text(&self, number: u32) -> Option<&Identity>
        ensures { option_copied result ≡ numbered self.now.texts number }
    {
        if number == 0 {
            return None;
        }
        self.texts.get(number as usize - 1)
    }

    /// The number of the space, where it has one.
    pub fn space_number(&self, space: &Space) -> Option<u32>
        ensures { result ≡ space_number self.now space.now }
    {
        number_at(position_of_space(self.spaces.as_slice(), space))
    }

    /// The number of the space's terms, where they have one.
    pub fn terms_number(&self, space: u32, terms: &Terms) -> Option<u32>
        ensures { result ≡ terms_number self.now space terms.now }
    {
        number_at(position_of_terms(self.terms.as_slice(), space, terms))
    }

    fn nonce_number(&self, site: &Site, text: &[u8]) -> u32
        ensures { result ≡ nonce_number self.now site.now text.now }
    {
        match number_at(position_of_nonce(self.nonces.as_slice(), site, text)) {
            Some(number) => number,
            None => self.nonces_len() + 1,
        }
    }

    /// The number that the nonce of the terms has, or the next one. It is 0 where the space has no
    /// name.
    pub fn nonce_for(&self, space: u32, terms: &Terms) -> u32
        ensures { result ≡ nonce_for self.now space terms.now }
    {
        match self.space(space) {
            Some(named) => self.nonce_number(named.site(), terms.nonce.as_slice()),
            None => 0,
        }
    }

    /// Names a space. Where there is no memory, it is handed back and nothing changes.
    pub fn push_space(&mut self, space: Space) -> Result<(), AllocFailed<Space>>
        requires few { length self.old.spaces < 131072 }
        requires new { space_number self.old space ≡ None }
        ensures ok { OnOk result (self.new ≡ with_space self.old space) }
        ensures back { IfErr result (λ refused. refused.value ≡ space) }
        ensures err { OnErr result (self.new ≡ self.old) }
        ensures fit { IsTrue (has_realm space.scheme space.realm) }
    {
        // A space tells with its scheme that its realm fits it; the names keep that.
        space.scheme();
        self.spaces.push(space)
    }

    /// The name of the terms' nonce.
    fn nonce_named(&self, name: &TermsName) -> Result<NonceName, AllocError>
        requires { IsTrue (is_home self.now name.now.space name.now.terms) }
        ensures { IfOk result (λ nonce. nonce_named self.now name.now ≡ Some nonce) }
    {
        match self.space(name.space) {
            Some(space) => {
                let site = space.site().clone()?;
                let text = name.terms.nonce.clone()?;
                Ok(NonceName { site, text })
            }
            None => unreachable!(),
        }
    }

    /// Names terms, and their nonce where its number is new. Where there is no memory, they are
    /// handed back and nothing changes.
    pub fn push_terms(&mut self, name: TermsName) -> Result<(), AllocFailed<TermsName>>
        requires few { length self.old.terms < 131072 }
        requires few_nonces { name.nonce ≤ 32768 }
        requires home { IsTrue (is_home self.old name.space name.terms) }
        requires new { terms_number self.old name.space name.terms ≡ None }
        requires nonce { name.nonce ≡ nonce_for self.old name.space name.terms }
        ensures ok { OnOk result (self.new ≡ with_terms self.old name) }
        ensures back { IfErr result (λ refused. refused.value ≡ name) }
        ensures err { OnErr result (self.new ≡ self.old) }
    {
        if name.nonce <= self.nonces_len() {
            return self.terms.push(name);
        }
        let Ok(nonce) = self.nonce_named(&name) else {
            return Err(AllocFailed { value: name });
        };
        let Ok(()) = self.terms.reserve(1) else {
            return Err(AllocFailed { value: name });
        };
        let Ok(()) = self.nonces.push(nonce) else {
            return Err(AllocFailed { value: name });
        };
        self.terms.push_reserved(name);
        Ok(())
    }

    /// Names a text. Where there is no memory, it is handed back and nothing changes.
    pub fn push_text(&mut self, text: Identity) -> Result<(), AllocFailed<Identity>>
        requires { length self.old.texts < 131072 }
        ensures ok { OnOk result (self.new ≡ with_text self.old text) }
        ensures back { IfErr result (λ refused. refused.value ≡ text) }
        ensures err { OnErr result (self.new ≡ self.old) }
    {
        self.texts.push(text)
    }
}
