//! Reading attribute values: by the attribute's name, and under any other name by the item's type.

ghost use Rattle.std.specs.Prelude.{◌≡◌, IfOk, Some, None, Err};
ghost use Rattle.std.specs.Option.{option_and_then, option_map};
ghost use Rattle.kmip_wire.specs.Parts.{children_in};
ghost use Rattle.kmip_wire.specs.Items.{item_tree};
ghost use Rattle.kmip_shape.specs.Val.{Case, vals_of};
ghost use Rattle.kmip_shape.specs.Shape.{type_key};
ghost use Rattle.kmip_shape.specs.Reads.{each, read_case, read_of, read_plain};
ghost use Rattle.kmip_shape.specs.Resume.{outer_of};
ghost use Rattle.kmip_types.specs.AttributeValues.{attribute_values, attribute_value_val, name};
ghost use Rattle.kmip_types.specs.AttributeValues.{link, application_specific_information};

use crate::attribute_value::{AttributeValue, InformationRows, LinkRows, NameRows, Values};
use crate::cryptographic_parameters::CryptographicParameters;
use kmip_codes::CryptographicAlgorithm;
use kmip_enums::{ObjectType, State};
use kmip_shape::{BigInteger, Outer, ReadError, ReadItem, fields, read_record};
use kmip_wire::{Blob, ItemRef, Kind, Text};
use std::alloc::Global;

/// A child of a custom structure, read by its type alone. `Unread` comes only where it is a
/// structure itself.
fn read_child(alloc: Global, child: ItemRef<'_>) -> Result<AttributeValue, ReadError>
    ensures ok { IfOk result (λ x. read_plain attribute_values (item_tree child.entry) ≡
        Some (attribute_value_val x)) }
    ensures unread { result ≡ Err ReadError.Unread →
        read_plain attribute_values (item_tree child.entry) ≡ None }
{
    let outer = Outer::none();
    match child.kind() {
        Kind::Structure => Err(ReadError::Unread),
        Kind::Integer => Ok(AttributeValue::Integer(i32::read(alloc, outer, child)?)),
        Kind::LongInteger => Ok(AttributeValue::LongInteger(i64::read(alloc, outer, child)?)),
        Kind::BigInteger => {
            let BigInteger(bytes) = BigInteger::read(alloc, outer, child)?;
            Ok(AttributeValue::BigInteger(bytes))
        }
        Kind::Enumeration => match child.enumeration() {
            None => Err(ReadError::Unread),
            Some(number) => Ok(AttributeValue::Enumeration(number)),
        },
        Kind::Boolean => Ok(AttributeValue::Boolean(bool::read(alloc, outer, child)?)),
        Kind::TextString => Ok(AttributeValue::TextString(Text::read(alloc, outer, child)?)),
        Kind::ByteString => Ok(AttributeValue::ByteString(Blob::read(alloc, outer, child)?)),
        Kind::DateTime => Ok(AttributeValue::DateTime(u64::read(alloc, outer, child)?)),
        Kind::Interval => Ok(AttributeValue::Interval(u32::read(alloc, outer, child)?)),
    }
}

/// The members of a custom structure. `Unread` comes only where the item is no Structure, or a
/// member is one.
#[tactic(auto, using(kmip_shape::proofs::Gathered::gathering))]
fn read_values(alloc: Global, item: ItemRef<'_>) -> Result<Values, ReadError>
    ensures ok { IfOk result (λ made. option_and_then (each (read_plain attribute_values))
        (children_in (item_tree item.entry)) ≡
        Some (vals_of made)) }
    ensures unread { result ≡ Err ReadError.Unread →
        option_and_then (each (read_plain attribute_values)) (children_in (item_tree item.entry)) ≡
        None }
{
    let children = item.children().ok_or(ReadError::Unread)?;
    let mut items = Vec::new(alloc);
    for child in children {
        items.push(read_child(alloc, child)?)?;
    }
    Ok(Values::of_vec(items))
}

/// The value under a name that is not in the table, read by its item's type.
fn read_by_type(
    alloc: Global,
    outer: Outer<'_>,
    item: ItemRef<'_>,
) -> Result<AttributeValue, ReadError>
    ensures ok { IfOk result (λ x.
        read_case attribute_values attribute_values (type_key (item_tree item.entry))
        (outer_of outer.entry) (item_tree item.entry) ≡
        Some (attribute_value_val x)) }
    ensures unread { result ≡ Err ReadError.Unread →
        read_case attribute_values attribute_values (type_key (item_tree item.entry))
        (outer_of outer.entry) (item_tree item.entry) ≡
        None }
{
    match item.kind() {
        Kind::Structure => Ok(AttributeValue::Structure(read_values(alloc, item)?)),
        _ => Ok(read_child(alloc, item)?),
    }
}

/// The value under `Name`.
fn read_name(
    alloc: Global,
    outer: Outer<'_>,
    item: ItemRef<'_>,
) -> Result<AttributeValue, ReadError>
    ensures ok { IfOk result (λ x.
        option_map (Case 1) (read_of name (outer_of outer.entry) (item_tree item.entry)) ≡
        Some (attribute_value_val x)) }
    ensures unread { result ≡ Err ReadError.Unread →
        read_of name (outer_of outer.entry) (item_tree item.entry) ≡ None }
{
    let fields![value, kind] = read_record::<NameRows>(alloc, outer, item)?;
    Ok(AttributeValue::Name(value, kind))
}

/// The value under `Link`.
fn read_link(
    alloc: Global,
    outer: Outer<'_>,
    item: ItemRef<'_>,
) -> Result<AttributeValue, ReadError>
    ensures ok { IfOk result (λ x.
        option_map (Case 7) (read_of link (outer_of outer.entry) (item_tree item.entry)) ≡
        Some (attribute_value_val x)) }
    ensures unread { result ≡ Err ReadError.Unread →
        read_of link (outer_of outer.entry) (item_tree item.entry) ≡ None }
{
    let fields![kind, identifier] = read_record::<LinkRows>(alloc, outer, item)?;
    Ok(AttributeValue::Link(kind, identifier))
}

/// The value under `Application Specific Information`.
fn read_information(
    alloc: Global,
    outer: Outer<'_>,
    item: ItemRef<'_>,
) -> Result<AttributeValue, ReadError>
    ensures ok { IfOk result (λ x.
        option_map (Case 8) (read_of application_specific_information (outer_of outer.entry)
        (item_tree item.entry)) ≡
        Some (attribute_value_val x)) }
    ensures unread { result ≡ Err ReadError.Unread →
        read_of application_specific_information (outer_of outer.entry) (item_tree item.entry) ≡
        None }
{
    let fields![namespace, data] = read_record::<InformationRows>(alloc, outer, item)?;
    Ok(AttributeValue::ApplicationSpecificInformation(namespace, data))
}

impl ReadItem for AttributeValue {
    fn read(alloc: Global, outer: Outer<'_>, item: ItemRef<'_>) -> Result<Self, ReadError> {
        match outer.name {
            None => read_by_type(alloc, outer, item),
            Some("Name") => Ok(read_name(alloc, outer, item)?),
            Some("Object Type") => Ok(AttributeValue::ObjectType(ObjectType::read(
                alloc, outer, item,
            )?)),
            Some("Cryptographic Algorithm") => Ok(AttributeValue::CryptographicAlgorithm(
                CryptographicAlgorithm::read(alloc, outer, item)?,
            )),
            Some("Cryptographic Parameters") => Ok(AttributeValue::CryptographicParameters(
                CryptographicParameters::read(alloc, outer, item)?,
            )),
            Some("State") => Ok(AttributeValue::State(State::read(alloc, outer, item)?)),
            Some("Object Group") => Ok(AttributeValue::ObjectGroup(Text::read(
                alloc, outer, item,
            )?)),
            Some("Link") => Ok(read_link(alloc, outer, item)?),
            Some("Linked Object Identifier") => Ok(read_link(alloc, outer, item)?),
            Some("Application Specific Information") => Ok(read_information(alloc, outer, item)?),
            Some("Contact Information") => Ok(AttributeValue::ContactInformation(Text::read(
                alloc, outer, item,
            )?)),
            Some(_) => Ok(read_by_type(alloc, outer, item)?),
        }
    }
}
