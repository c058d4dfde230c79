//! Payloads with attributes.

ghost use Rattle.std.specs.Prelude.{◌≡◌};
ghost use Rattle.kmip_tags.specs.Tags as tags;
ghost use Rattle.kmip_response.specs.Tables.{get_attributes_payload, get_attribute_list_payload};
ghost use Rattle.kmip_response.specs.Tables.{attribute_edit_payload};
ghost use Rattle.kmip_response.specs.Values.{get_attributes_payload_val};
ghost use Rattle.kmip_response.specs.Values.{get_attribute_list_payload_val};
ghost use Rattle.kmip_response.specs.Values.{attribute_edit_payload_val};
ghost use Rattle.kmip_response.specs.Same.{get_attributes_payload_same};
ghost use Rattle.kmip_response.specs.Same.{get_attribute_list_payload_same};
ghost use Rattle.kmip_response.specs.Same.{attribute_edit_payload_same};

use kmip_response_objects::Attribute;
use kmip_shape::record::{End, Row};
use kmip_shape::row_readers::{NonEmpty, One, OptMany};
use kmip_shape::{
    Item, Outer, ReadError, ReadItem, ReadRoot, ShowItem, TextWriter, WriteItem, fields,
    fits_record, read_record, record_len, show_record, write_record,
};
use kmip_tags::tags::{ATTRIBUTE, ATTRIBUTE_NAME, RESPONSE_PAYLOAD, UNIQUE_IDENTIFIER};
use kmip_types::{AttributeName, UniqueIdentifier};
use kmip_wire::{Boxed, Buffer, ItemRef, List, OutOfMemory, Tag, TryClone, clone_optional};
use std::alloc::Global;

/// The response payload of Get Attributes: KMIP 1.0, 4.11.
#[derive(PartialEq, Eq, Drop)]
pub struct GetAttributesResponsePayload {
    /// The identifier of the object.
    pub unique_identifier: UniqueIdentifier,
    /// Those of the attributes asked for that the object has.
    pub attributes: Option<List<Attribute>>,
}

type GetAttributesResponsePayloadRows = Row<
    One<UniqueIdentifier, UNIQUE_IDENTIFIER>,
    Row<OptMany<Attribute, ATTRIBUTE>, End>,
>;

impl TryClone for GetAttributesResponsePayload {
    fn try_clone(&self, alloc: Global) -> Result<GetAttributesResponsePayload, OutOfMemory> {
        Ok(GetAttributesResponsePayload {
            unique_identifier: self.unique_identifier.try_clone(alloc)?,
            attributes: clone_optional(&self.attributes, alloc)?,
        })
    }
}

impl Item for GetAttributesResponsePayload {
    ghost shape = { get_attributes_payload };

    ghost val = { get_attributes_payload_val };

    fn fits(&self) {
        fits_record::<GetAttributesResponsePayloadRows>(fields![
            &self.unique_identifier,
            &self.attributes
        ]);
    }

    ghost faithful = { get_attributes_payload_same };
}

impl WriteItem for GetAttributesResponsePayload {
    fn wire_len(&self, _tag: Tag) -> Option<u64> {
        record_len::<GetAttributesResponsePayloadRows>(fields![
            &self.unique_identifier,
            &self.attributes
        ])
    }

    fn write_into(&self, tag: Tag, out: &mut Buffer) {
        write_record::<GetAttributesResponsePayloadRows>(
            fields![&self.unique_identifier, &self.attributes],
            tag,
            out,
        );
    }
}

impl ReadItem for GetAttributesResponsePayload {
    fn read(alloc: Global, outer: Outer<'_>, item: ItemRef<'_>) -> Result<Self, ReadError> {
        let fields![unique_identifier, attributes] = read_record::<
            GetAttributesResponsePayloadRows,
        >(alloc, outer, item)?;
        Ok(GetAttributesResponsePayload {
            unique_identifier,
            attributes,
        })
    }
}

impl ReadRoot for GetAttributesResponsePayload {
    ghost root_tag = { tags.RESPONSE_PAYLOAD };

    fn root_tag() -> Tag {
        Tag::of(RESPONSE_PAYLOAD)
    }
}

impl ShowItem for GetAttributesResponsePayload {
    fn show_into(&self, out: &mut TextWriter) {
        show_record::<GetAttributesResponsePayloadRows>(
            fields![&self.unique_identifier, &self.attributes],
            fields!["unique_identifier", "attributes"],
            out,
        );
    }
}

/// The response payload of Get Attribute List: KMIP 1.0, 4.12.
#[derive(PartialEq, Eq, Drop)]
pub struct GetAttributeListResponsePayload {
    /// The identifier of the object.
    pub unique_identifier: UniqueIdentifier,
    /// The names of the attributes that the object has, at least one.
    pub attributes: List<AttributeName>,
}

type GetAttributeListResponsePayloadRows = Row<
    One<UniqueIdentifier, UNIQUE_IDENTIFIER>,
    Row<NonEmpty<AttributeName, ATTRIBUTE_NAME>, End>,
>;

impl TryClone for GetAttributeListResponsePayload {
    fn try_clone(&self, alloc: Global) -> Result<GetAttributeListResponsePayload, OutOfMemory> {
        Ok(GetAttributeListResponsePayload {
            unique_identifier: self.unique_identifier.try_clone(alloc)?,
            attributes: self.attributes.try_clone(alloc)?,
        })
    }
}

impl Item for GetAttributeListResponsePayload {
    ghost shape = { get_attribute_list_payload };

    ghost val = { get_attribute_list_payload_val };

    fn fits(&self) {
        fits_record::<GetAttributeListResponsePayloadRows>(fields![
            &self.unique_identifier,
            &self.attributes
        ]);
    }

    ghost faithful = { get_attribute_list_payload_same };
}

impl WriteItem for GetAttributeListResponsePayload {
    fn wire_len(&self, _tag: Tag) -> Option<u64> {
        record_len::<GetAttributeListResponsePayloadRows>(fields![
            &self.unique_identifier,
            &self.attributes
        ])
    }

    fn write_into(&self, tag: Tag, out: &mut Buffer) {
        write_record::<GetAttributeListResponsePayloadRows>(
            fields![&self.unique_identifier, &self.attributes],
            tag,
            out,
        );
    }
}

impl ReadItem for GetAttributeListResponsePayload {
    fn read(alloc: Global, outer: Outer<'_>, item: ItemRef<'_>) -> Result<Self, ReadError> {
        let fields![unique_identifier, attributes] = read_record::<
            GetAttributeListResponsePayloadRows,
        >(alloc, outer, item)?;
        Ok(GetAttributeListResponsePayload {
            unique_identifier,
            attributes,
        })
    }
}

impl ReadRoot for GetAttributeListResponsePayload {
    ghost root_tag = { tags.RESPONSE_PAYLOAD };

    fn root_tag() -> Tag {
        Tag::of(RESPONSE_PAYLOAD)
    }
}

impl ShowItem for GetAttributeListResponsePayload {
    fn show_into(&self, out: &mut TextWriter) {
        show_record::<GetAttributeListResponsePayloadRows>(
            fields![&self.unique_identifier, &self.attributes],
            fields!["unique_identifier", "attributes"],
            out,
        );
    }
}

/// The response payload of Add Attribute, Modify Attribute and Delete Attribute:
/// KMIP 1.0, 4.13 to 4.15.
#[derive(PartialEq, Eq, Drop)]
pub struct AttributeEditResponsePayload {
    /// The identifier of the object.
    pub unique_identifier: UniqueIdentifier,
    /// The attribute that was added, modified or deleted.
    pub attribute: Boxed<Attribute>,
}

type AttributeEditResponsePayloadRows = Row<
    One<UniqueIdentifier, UNIQUE_IDENTIFIER>,
    Row<One<Boxed<Attribute>, ATTRIBUTE>, End>,
>;

impl TryClone for AttributeEditResponsePayload {
    fn try_clone(&self, alloc: Global) -> Result<AttributeEditResponsePayload, OutOfMemory> {
        Ok(AttributeEditResponsePayload {
            unique_identifier: self.unique_identifier.try_clone(alloc)?,
            attribute: self.attribute.try_clone(alloc)?,
        })
    }
}

impl Item for AttributeEditResponsePayload {
    ghost shape = { attribute_edit_payload };

    ghost val = { attribute_edit_payload_val };

    fn fits(&self) {
        fits_record::<AttributeEditResponsePayloadRows>(fields![
            &self.unique_identifier,
            &self.attribute
        ]);
    }

    ghost faithful = { attribute_edit_payload_same };
}

impl WriteItem for AttributeEditResponsePayload {
    fn wire_len(&self, _tag: Tag) -> Option<u64> {
        record_len::<AttributeEditResponsePayloadRows>(fields![
            &self.unique_identifier,
            &self.attribute
        ])
    }

    fn write_into(&self, tag: Tag, out: &mut Buffer) {
        write_record::<AttributeEditResponsePayloadRows>(
            fields![&self.unique_identifier, &self.attribute],
            tag,
            out,
        );
    }
}

impl ReadItem for AttributeEditResponsePayload {
    fn read(alloc: Global, outer: Outer<'_>, item: ItemRef<'_>) -> Result<Self, ReadError> {
        let fields![unique_identifier, attribute] = read_record::<AttributeEditResponsePayloadRows>(
            alloc, outer, item,
        )?;
        Ok(AttributeEditResponsePayload {
            unique_identifier,
            attribute,
        })
    }
}

impl ReadRoot for AttributeEditResponsePayload {
    ghost root_tag = { tags.RESPONSE_PAYLOAD };

    fn root_tag() -> Tag {
        Tag::of(RESPONSE_PAYLOAD)
    }
}

impl ShowItem for AttributeEditResponsePayload {
    fn show_into(&self, out: &mut TextWriter) {
        show_record::<AttributeEditResponsePayloadRows>(
            fields![&self.unique_identifier, &self.attribute],
            fields!["unique_identifier", "attribute"],
            out,
        );
    }
}

/// The response payload of Add Attribute: KMIP 1.0, 4.13.
pub type AddAttributeResponsePayload = AttributeEditResponsePayload;

/// The response payload of Modify Attribute: KMIP 1.0, 4.14.
pub type ModifyAttributeResponsePayload = AttributeEditResponsePayload;

/// The response payload of Delete Attribute: KMIP 1.0, 4.15.
pub type DeleteAttributeResponsePayload = AttributeEditResponsePayload;
