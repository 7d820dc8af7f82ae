//! A number that a map has is looked at before it is believed: a thing may be noted with the number
//! that it will have, and then get no name for want of memory.

ghost use Rattle.std.specs.Prelude.{◌≡◌};
ghost use Rattle.spaces.specs.Sites.{same_site, same_space};
ghost use Rattle.auth_events.specs.Tables.{is_that_nonce, is_that_terms};
ghost use Rattle.name_index.specs.Found.{checked};

use auth_events::Names;
use spaces::{Site, Space, Terms, same_site, same_space, same_terms};

/// The number, where the space of that number is this one.
pub(crate) fn space_checked(names: &Names, space: &Space, number: Option<u32>) -> Option<u32>
    ensures { result ≡ checked (λ named. same_space named space.now) names.now.spaces number }
{
    let number = number?;
    match names.space(number) {
        Some(named) if same_space(named, space) => Some(number),
        _ => None,
    }
}

/// The number, where the space of that number is of this site.
pub(crate) fn site_checked(names: &Names, site: &Site, number: Option<u32>) -> Option<u32>
    ensures { result ≡ checked (λ named. same_site named.site site.now) names.now.spaces number }
{
    let number = number?;
    match names.space(number) {
        Some(named) if same_site(named.site(), site) => Some(number),
        _ => None,
    }
}

/// The number, where the terms of that number are these of the space.
pub(crate) fn terms_checked(
    names: &Names,
    space: u32,
    terms: &Terms,
    number: Option<u32>,
) -> Option<u32>
    ensures { result ≡ checked (is_that_terms space terms.now) names.now.terms number }
{
    let number = number?;
    match names.terms(number) {
        Some(named) if named.space == space && same_terms(&named.terms, terms) => Some(number),
        _ => None,
    }
}

/// The number, where the nonce of that number is this one of the site.
pub(crate) fn nonce_checked(
    names: &Names,
    site: &Site,
    text: &[u8],
    number: Option<u32>,
) -> Option<u32>
    ensures { result ≡ checked (is_that_nonce site.now text.now) names.now.nonces number }
{
    let number = number?;
    match names.nonce(number) {
        Some(named) if same_site(&named.site, site) && named.text.as_slice() == text => {
            Some(number)
        }
        _ => None,
    }
}
