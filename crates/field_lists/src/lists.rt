//! The elements of lists, as copies of their bytes.

ghost use Rattle.std.specs.Prelude.{◌≡◌, ◌∷◌, ◌++◌, [], IfOk, OnOk};
ghost use Rattle.field_lists.specs.Elements as spec;

use crate::blanks::{trim_end, trim_start};
use auth_text::{Bytes, Items, NoMemory};
use std::alloc::Global;

/// Appends what a piece between commas holds, where it isn't empty.
fn push_piece(alloc: Global, them: &mut Items<Bytes>, piece: &[u8]) -> Result<(), NoMemory>
    ensures { OnOk result (them.new ≡ them.old ++ spec.of_pieces (piece.now ∷ [])) }
{
    let element = trim_end(trim_start(piece));
    if element.len() > 0 {
        them.push(Bytes::from_slice(alloc, element)?)?;
    }
    Ok(())
}

/// Appends the elements of a value.
fn push_value(alloc: Global, them: &mut Items<Bytes>, value: &[u8]) -> Result<(), NoMemory>
    ensures { OnOk result (them.new ≡ them.old ++ spec.elements_of value.now) }
{
    for piece in value.split(|b| *b == b',') {
        push_piece(alloc, them, piece)?;
    }
    Ok(())
}

/// The elements of one value, in order.
pub fn elements_of(alloc: Global, value: &[u8]) -> Result<Items<Bytes>, NoMemory>
    ensures { IfOk result (λ them. them ≡ spec.elements_of value.now) }
{
    let mut them = Items::new(alloc);
    push_value(alloc, &mut them, value)?;
    Ok(them)
}

/// The elements of the values of all fields of one name, in order.
pub fn elements(alloc: Global, values: &[Bytes]) -> Result<Items<Bytes>, NoMemory>
    ensures { IfOk result (λ them. them ≡ spec.elements values.now) }
{
    let mut them = Items::new(alloc);
    for value in values {
        push_value(alloc, &mut them, value.as_slice())?;
    }
    Ok(them)
}
