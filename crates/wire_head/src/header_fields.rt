//! The fields of a reply's head. Those of one name may be several (RFC 7230, section 3.2.2).

ghost use Rattle.std.specs.Prelude.{◌≡◌, IfOk};
ghost use Rattle.std.specs.Str.{str_eq_ignore_ascii_case};
ghost use Rattle.wire_head.specs.HeaderFields as spec;

use crate::response_head::Field;
use auth_text::{Bytes, Items, NoMemory};
use std::alloc::Global;

/// Whether two names are the same but for letter case.
pub(crate) fn is_same_name(a: &[u8], b: &[u8]) -> bool
    ensures { result ≡ str_eq_ignore_ascii_case a.now b.now }
{
    a.eq_ignore_ascii_case(b)
}

/// The values of the fields of this name, in order.
pub(crate) fn values_of(
    alloc: Global,
    name: &[u8],
    fields: &[Field],
) -> Result<Items<Bytes>, NoMemory>
    ensures { IfOk result (λ them. them ≡ spec.values_of name.now fields.now) }
{
    let mut them = Items::new(alloc);
    for field in fields {
        if is_same_name(field.name.as_slice(), name) {
            them.push(Bytes::from_slice(alloc, field.value.as_slice())?)?;
        }
    }
    Ok(them)
}
