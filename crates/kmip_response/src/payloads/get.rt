//! The payload that holds an object.

ghost use Rattle.std.specs.Prelude.{◌≡◌};
ghost use Rattle.kmip_tags.specs.Tags as tags;
ghost use Rattle.kmip_response.specs.Tables.{get_payload};
ghost use Rattle.kmip_response.specs.Values.{get_payload_val};
ghost use Rattle.kmip_response.specs.Same.{get_payload_same};

use kmip_enums::ObjectType;
use kmip_response_objects::{ManagedObject, ManagedObjects};
use kmip_shape::record::{Choosing, End, Row};
use kmip_shape::row_readers::One;
use kmip_shape::{
    Item, Outer, ReadError, ReadItem, ReadRoot, ShowItem, TextWriter, WriteItem, fields,
    fits_record, read_record, record_len, show_record, write_record,
};
use kmip_tags::tags::{OBJECT_TYPE, RESPONSE_PAYLOAD, UNIQUE_IDENTIFIER};
use kmip_types::UniqueIdentifier;
use kmip_wire::{Buffer, ItemRef, OutOfMemory, Tag, TryClone};
use std::alloc::Global;

/// The response payload of Get: KMIP 1.0, 4.10.
#[derive(PartialEq, Eq, Drop)]
pub struct GetResponsePayload {
    /// The type of the object.
    pub object_type: ObjectType,
    /// The identifier of the object.
    pub unique_identifier: UniqueIdentifier,
    /// The object, of the type `object_type`: KMIP 1.0, 2.2.
    pub cryptographic_object: ManagedObject,
}

type GetResponsePayloadRows<'a> = Choosing<
    One<ObjectType, OBJECT_TYPE>,
    Row<One<UniqueIdentifier, UNIQUE_IDENTIFIER>, Row<ManagedObjects<'a>, End>>,
>;

impl TryClone for GetResponsePayload {
    fn try_clone(&self, alloc: Global) -> Result<GetResponsePayload, OutOfMemory> {
        Ok(GetResponsePayload {
            object_type: self.object_type,
            unique_identifier: self.unique_identifier.try_clone(alloc)?,
            cryptographic_object: self.cryptographic_object.try_clone(alloc)?,
        })
    }
}

impl Item for GetResponsePayload {
    ghost shape = { get_payload };

    ghost val = { get_payload_val };

    fn fits(&self) {
        fits_record::<GetResponsePayloadRows<'_>>(fields![
            &self.object_type,
            &self.unique_identifier,
            &self.cryptographic_object
        ]);
    }

    ghost faithful = { get_payload_same };
}

impl WriteItem for GetResponsePayload {
    fn wire_len(&self, _tag: Tag) -> Option<u64> {
        record_len::<GetResponsePayloadRows<'_>>(fields![
            &self.object_type,
            &self.unique_identifier,
            &self.cryptographic_object
        ])
    }

    fn write_into(&self, tag: Tag, out: &mut Buffer) {
        write_record::<GetResponsePayloadRows<'_>>(
            fields![
                &self.object_type,
                &self.unique_identifier,
                &self.cryptographic_object
            ],
            tag,
            out,
        );
    }
}

impl ReadItem for GetResponsePayload {
    fn read(alloc: Global, outer: Outer<'_>, item: ItemRef<'_>) -> Result<Self, ReadError> {
        let fields![object_type, unique_identifier, cryptographic_object] = read_record::<
            GetResponsePayloadRows<'_>,
        >(alloc, outer, item)?;
        Ok(GetResponsePayload {
            object_type,
            unique_identifier,
            cryptographic_object,
        })
    }
}

impl ReadRoot for GetResponsePayload {
    ghost root_tag = { tags.RESPONSE_PAYLOAD };

    fn root_tag() -> Tag {
        Tag::of(RESPONSE_PAYLOAD)
    }
}

impl ShowItem for GetResponsePayload {
    fn show_into(&self, out: &mut TextWriter) {
        show_record::<GetResponsePayloadRows<'_>>(
            fields![
                &self.object_type,
                &self.unique_identifier,
                &self.cryptographic_object
            ],
            fields!["object_type", "unique_identifier", "cryptographic_object"],
            out,
        );
    }
}
