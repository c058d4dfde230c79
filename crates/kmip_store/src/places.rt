//! Places of objects in a store, and their identifiers.

ghost use Rattle.std.specs.Prelude.{ℕ, ◌≡◌, ◌+◌, ◌^◌, ◌<◌};
ghost use Rattle.std.specs.Prelude.{bytes_eq, decimal, slice_get};
ghost use Rattle.std.specs.Prelude.{Some, None, IfOk, OnErr, IfErr};
ghost use Rattle.kmip_store.specs.Objects.{find_in, identifier as identifier_of};

use crate::error::StoreError;
use crate::object::Object;
use itoa::Buffer;
use kmip_wire::Text;
use std::alloc::Global;

/// Whether the text is the identifier of the object with this number, counted from 1.
fn is_identifier(number: usize, id: &str) -> bool
    ensures { result ≡ bytes_eq (decimal number) id.now }
{
    let mut buffer = Buffer::new();
    buffer.format(number) == id
}

/// The identifier of the object at a place.
pub fn identifier(alloc: Global, place: usize) -> Result<Text, StoreError>
    requires { place + 1 < 2 ^ 64 }
    ensures text { IfOk result (λ made. made ≡ identifier_of place) }
    ensures memory { IfErr result (λ e. e ≡ StoreError.OutOfMemory) }
{
    let mut buffer = Buffer::new();
    Ok(Text::of(alloc, buffer.format(place + 1))?)
}

/// The place of the object that has the identifier.
pub fn place_of(objects: &[Object], id: &str) -> Result<usize, StoreError>
    ensures here { IfOk result (λ place. (object : Object)
        × (slice_get objects.now place ≡ Some object)
        × (find_in objects.now id.now ≡ Some (place, object))) }
    ensures cause { IfErr result (λ e. e ≡ StoreError.ItemNotFound) }
    ensures nowhere { OnErr result (find_in objects.now id.now ≡ None) }
{
    let count = objects.len();
    let Ok(number) = id.parse::<usize>() else {
        return Err(StoreError::ItemNotFound);
    };
    if number == 0 || number > count || !is_identifier(number, id) {
        return Err(StoreError::ItemNotFound);
    }
    Ok(number - 1)
}

/// The object that has the identifier.
pub fn find_object<'a>(objects: &'a [Object], id: &str) -> Result<&'a Object, StoreError>
    ensures here { IfOk result (λ object.
        (place : ℕ) × (find_in objects.now id.now ≡ Some (place, object.now))) }
    ensures cause { IfErr result (λ e. e ≡ StoreError.ItemNotFound) }
    ensures nowhere { OnErr result (find_in objects.now id.now ≡ None) }
{
    let place = place_of(objects, id)?;
    Ok(&objects[place])
}
