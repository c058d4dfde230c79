//! Payloads with the identifiers of objects.

ghost use Rattle.std.specs.Prelude.{◌≡◌};
ghost use Rattle.kmip_tags.specs.Tags as tags;
ghost use Rattle.kmip_response.specs.Tables.{create_payload, create_key_pair_payload};
ghost use Rattle.kmip_response.specs.Tables.{register_payload, locate_payload};
ghost use Rattle.kmip_response.specs.Tables.{unique_identifier_payload};
ghost use Rattle.kmip_response.specs.Values.{create_payload_val, create_key_pair_payload_val};
ghost use Rattle.kmip_response.specs.Values.{register_payload_val, locate_payload_val};
ghost use Rattle.kmip_response.specs.Values.{unique_identifier_payload_val};
ghost use Rattle.kmip_response.specs.Same.{create_payload_same, create_key_pair_payload_same};
ghost use Rattle.kmip_response.specs.Same.{register_payload_same, locate_payload_same};
ghost use Rattle.kmip_response.specs.Same.{unique_identifier_payload_same};

use kmip_enums::ObjectType;
use kmip_response_objects::{Attribute, TemplateAttribute};
use kmip_shape::record::{End, Row};
use kmip_shape::row_readers::{Many, One, OptMany};
use kmip_shape::{
    Item, Outer, ReadError, ReadItem, ReadRoot, ShowItem, TextWriter, WriteItem, fields,
    fits_record, read_record, record_len, show_record, write_record,
};
use kmip_tags::tags::{
    ATTRIBUTE, OBJECT_TYPE, PRIVATE_KEY_UNIQUE_IDENTIFIER, PUBLIC_KEY_UNIQUE_IDENTIFIER,
    RESPONSE_PAYLOAD, TEMPLATE_ATTRIBUTE, UNIQUE_IDENTIFIER,
};
use kmip_types::UniqueIdentifier;
use kmip_wire::{Buffer, ItemRef, List, OutOfMemory, Tag, TryClone, clone_optional};
use std::alloc::Global;

/// The response payload of Create: KMIP 1.0, 4.1.
#[derive(PartialEq, Eq, Drop)]
pub struct CreateResponsePayload {
    /// The type of the object.
    pub object_type: ObjectType,
    /// The identifier of the object.
    pub unique_identifier: UniqueIdentifier,
    /// Attributes that the server set.
    pub object_attributes: Option<List<Attribute>>,
}

type CreateResponsePayloadRows = Row<
    One<ObjectType, OBJECT_TYPE>,
    Row<One<UniqueIdentifier, UNIQUE_IDENTIFIER>, Row<OptMany<Attribute, ATTRIBUTE>, End>>,
>;

impl TryClone for CreateResponsePayload {
    fn try_clone(&self, alloc: Global) -> Result<CreateResponsePayload, OutOfMemory> {
        Ok(CreateResponsePayload {
            object_type: self.object_type,
            unique_identifier: self.unique_identifier.try_clone(alloc)?,
            object_attributes: clone_optional(&self.object_attributes, alloc)?,
        })
    }
}

impl Item for CreateResponsePayload {
    ghost shape = { create_payload };

    ghost val = { create_payload_val };

    fn fits(&self) {
        fits_record::<CreateResponsePayloadRows>(fields![
            &self.object_type,
            &self.unique_identifier,
            &self.object_attributes
        ]);
    }

    ghost faithful = { create_payload_same };
}

impl WriteItem for CreateResponsePayload {
    fn wire_len(&self, _tag: Tag) -> Option<u64> {
        record_len::<CreateResponsePayloadRows>(fields![
            &self.object_type,
            &self.unique_identifier,
            &self.object_attributes
        ])
    }

    fn write_into(&self, tag: Tag, out: &mut Buffer) {
        write_record::<CreateResponsePayloadRows>(
            fields![
                &self.object_type,
                &self.unique_identifier,
                &self.object_attributes
            ],
            tag,
            out,
        );
    }
}

impl ReadItem for CreateResponsePayload {
    fn read(alloc: Global, outer: Outer<'_>, item: ItemRef<'_>) -> Result<Self, ReadError> {
        let fields![object_type, unique_identifier, object_attributes] = read_record::<
            CreateResponsePayloadRows,
        >(alloc, outer, item)?;
        Ok(CreateResponsePayload {
            object_type,
            unique_identifier,
            object_attributes,
        })
    }
}

impl ReadRoot for CreateResponsePayload {
    ghost root_tag = { tags.RESPONSE_PAYLOAD };

    fn root_tag() -> Tag {
        Tag::of(RESPONSE_PAYLOAD)
    }
}

impl ShowItem for CreateResponsePayload {
    fn show_into(&self, out: &mut TextWriter) {
        show_record::<CreateResponsePayloadRows>(
            fields![
                &self.object_type,
                &self.unique_identifier,
                &self.object_attributes
            ],
            fields!["object_type", "unique_identifier", "object_attributes"],
            out,
        );
    }
}

/// The response payload of Create Key Pair: KMIP 1.0, 4.2.
#[derive(PartialEq, Eq, Drop)]
pub struct CreateKeyPairResponsePayload {
    /// The identifier of the private key.
    pub private_key_unique_identifier: UniqueIdentifier,
    /// The identifier of the public key.
    pub public_key_unique_identifier: UniqueIdentifier,
}

type CreateKeyPairResponsePayloadRows = Row<
    One<UniqueIdentifier, PRIVATE_KEY_UNIQUE_IDENTIFIER>,
    Row<One<UniqueIdentifier, PUBLIC_KEY_UNIQUE_IDENTIFIER>, End>,
>;

impl TryClone for CreateKeyPairResponsePayload {
    fn try_clone(&self, alloc: Global) -> Result<CreateKeyPairResponsePayload, OutOfMemory> {
        Ok(CreateKeyPairResponsePayload {
            private_key_unique_identifier: self.private_key_unique_identifier.try_clone(alloc)?,
            public_key_unique_identifier: self.public_key_unique_identifier.try_clone(alloc)?,
        })
    }
}

impl Item for CreateKeyPairResponsePayload {
    ghost shape = { create_key_pair_payload };

    ghost val = { create_key_pair_payload_val };

    fn fits(&self) {
        fits_record::<CreateKeyPairResponsePayloadRows>(fields![
            &self.private_key_unique_identifier,
            &self.public_key_unique_identifier
        ]);
    }

    ghost faithful = { create_key_pair_payload_same };
}

impl WriteItem for CreateKeyPairResponsePayload {
    fn wire_len(&self, _tag: Tag) -> Option<u64> {
        record_len::<CreateKeyPairResponsePayloadRows>(fields![
            &self.private_key_unique_identifier,
            &self.public_key_unique_identifier
        ])
    }

    fn write_into(&self, tag: Tag, out: &mut Buffer) {
        write_record::<CreateKeyPairResponsePayloadRows>(
            fields![
                &self.private_key_unique_identifier,
                &self.public_key_unique_identifier
            ],
            tag,
            out,
        );
    }
}

impl ReadItem for CreateKeyPairResponsePayload {
    fn read(alloc: Global, outer: Outer<'_>, item: ItemRef<'_>) -> Result<Self, ReadError> {
        let fields![private_key_unique_identifier, public_key_unique_identifier] = read_record::<
            CreateKeyPairResponsePayloadRows,
        >(alloc, outer, item)?;
        Ok(CreateKeyPairResponsePayload {
            private_key_unique_identifier,
            public_key_unique_identifier,
        })
    }
}

impl ReadRoot for CreateKeyPairResponsePayload {
    ghost root_tag = { tags.RESPONSE_PAYLOAD };

    fn root_tag() -> Tag {
        Tag::of(RESPONSE_PAYLOAD)
    }
}

impl ShowItem for CreateKeyPairResponsePayload {
    fn show_into(&self, out: &mut TextWriter) {
        show_record::<CreateKeyPairResponsePayloadRows>(
            fields![
                &self.private_key_unique_identifier,
                &self.public_key_unique_identifier
            ],
            fields![
                "private_key_unique_identifier",
                "public_key_unique_identifier"
            ],
            out,
        );
    }
}

/// The response payload of Register: KMIP 1.0, 4.3.
#[derive(PartialEq, Eq, Drop)]
pub struct RegisterResponsePayload {
    /// The identifier of the object.
    pub unique_identifier: UniqueIdentifier,
    /// Attributes that the server set.
    pub template_attributes: Option<List<TemplateAttribute>>,
}

type RegisterResponsePayloadRows = Row<
    One<UniqueIdentifier, UNIQUE_IDENTIFIER>,
    Row<OptMany<TemplateAttribute, TEMPLATE_ATTRIBUTE>, End>,
>;

impl TryClone for RegisterResponsePayload {
    fn try_clone(&self, alloc: Global) -> Result<RegisterResponsePayload, OutOfMemory> {
        Ok(RegisterResponsePayload {
            unique_identifier: self.unique_identifier.try_clone(alloc)?,
            template_attributes: clone_optional(&self.template_attributes, alloc)?,
        })
    }
}

impl Item for RegisterResponsePayload {
    ghost shape = { register_payload };

    ghost val = { register_payload_val };

    fn fits(&self) {
        fits_record::<RegisterResponsePayloadRows>(fields![
            &self.unique_identifier,
            &self.template_attributes
        ]);
    }

    ghost faithful = { register_payload_same };
}

impl WriteItem for RegisterResponsePayload {
    fn wire_len(&self, _tag: Tag) -> Option<u64> {
        record_len::<RegisterResponsePayloadRows>(fields![
            &self.unique_identifier,
            &self.template_attributes
        ])
    }

    fn write_into(&self, tag: Tag, out: &mut Buffer) {
        write_record::<RegisterResponsePayloadRows>(
            fields![&self.unique_identifier, &self.template_attributes],
            tag,
            out,
        );
    }
}

impl ReadItem for RegisterResponsePayload {
    fn read(alloc: Global, outer: Outer<'_>, item: ItemRef<'_>) -> Result<Self, ReadError> {
        let fields![unique_identifier, template_attributes] = read_record::<
            RegisterResponsePayloadRows,
        >(alloc, outer, item)?;
        Ok(RegisterResponsePayload {
            unique_identifier,
            template_attributes,
        })
    }
}

impl ReadRoot for RegisterResponsePayload {
    ghost root_tag = { tags.RESPONSE_PAYLOAD };

    fn root_tag() -> Tag {
        Tag::of(RESPONSE_PAYLOAD)
    }
}

impl ShowItem for RegisterResponsePayload {
    fn show_into(&self, out: &mut TextWriter) {
        show_record::<RegisterResponsePayloadRows>(
            fields![&self.unique_identifier, &self.template_attributes],
            fields!["unique_identifier", "template_attributes"],
            out,
        );
    }
}

/// The response payload of Locate: KMIP 1.0, 4.8.
#[derive(PartialEq, Eq, Drop)]
pub struct LocateResponsePayload {
    /// The identifiers of the objects that have all the attributes asked for; empty where none has.
    pub unique_identifiers: List<UniqueIdentifier>,
}

type LocateResponsePayloadRows = Row<Many<UniqueIdentifier, UNIQUE_IDENTIFIER>, End>;

impl TryClone for LocateResponsePayload {
    fn try_clone(&self, alloc: Global) -> Result<LocateResponsePayload, OutOfMemory> {
        Ok(LocateResponsePayload {
            unique_identifiers: self.unique_identifiers.try_clone(alloc)?,
        })
    }
}

impl Item for LocateResponsePayload {
    ghost shape = { locate_payload };

    ghost val = { locate_payload_val };

    fn fits(&self) {
        fits_record::<LocateResponsePayloadRows>(fields![&self.unique_identifiers]);
    }

    ghost faithful = { locate_payload_same };
}

impl WriteItem for LocateResponsePayload {
    fn wire_len(&self, _tag: Tag) -> Option<u64> {
        record_len::<LocateResponsePayloadRows>(fields![&self.unique_identifiers])
    }

    fn write_into(&self, tag: Tag, out: &mut Buffer) {
        write_record::<LocateResponsePayloadRows>(fields![&self.unique_identifiers], tag, out);
    }
}

impl ReadItem for LocateResponsePayload {
    fn read(alloc: Global, outer: Outer<'_>, item: ItemRef<'_>) -> Result<Self, ReadError> {
        let fields![unique_identifiers] = read_record::<LocateResponsePayloadRows>(
            alloc, outer, item,
        )?;
        Ok(LocateResponsePayload { unique_identifiers })
    }
}

impl ReadRoot for LocateResponsePayload {
    ghost root_tag = { tags.RESPONSE_PAYLOAD };

    fn root_tag() -> Tag {
        Tag::of(RESPONSE_PAYLOAD)
    }
}

impl ShowItem for LocateResponsePayload {
    fn show_into(&self, out: &mut TextWriter) {
        show_record::<LocateResponsePayloadRows>(
            fields![&self.unique_identifiers],
            fields!["unique_identifiers"],
            out,
        );
    }
}

/// The response payload of Activate, Revoke and Destroy: KMIP 1.0, 4.18 to 4.20.
#[derive(PartialEq, Eq, Drop)]
pub struct UniqueIdentifierResponsePayload {
    /// The identifier of the object.
    pub unique_identifier: UniqueIdentifier,
}

type UniqueIdentifierResponsePayloadRows = Row<One<UniqueIdentifier, UNIQUE_IDENTIFIER>, End>;

impl TryClone for UniqueIdentifierResponsePayload {
    fn try_clone(&self, alloc: Global) -> Result<UniqueIdentifierResponsePayload, OutOfMemory> {
        Ok(UniqueIdentifierResponsePayload {
            unique_identifier: self.unique_identifier.try_clone(alloc)?,
        })
    }
}

impl Item for UniqueIdentifierResponsePayload {
    ghost shape = { unique_identifier_payload };

    ghost val = { unique_identifier_payload_val };

    fn fits(&self) {
        fits_record::<UniqueIdentifierResponsePayloadRows>(fields![&self.unique_identifier]);
    }

    ghost faithful = { unique_identifier_payload_same };
}

impl WriteItem for UniqueIdentifierResponsePayload {
    fn wire_len(&self, _tag: Tag) -> Option<u64> {
        record_len::<UniqueIdentifierResponsePayloadRows>(fields![&self.unique_identifier])
    }

    fn write_into(&self, tag: Tag, out: &mut Buffer) {
        write_record::<UniqueIdentifierResponsePayloadRows>(
            fields![&self.unique_identifier],
            tag,
            out,
        );
    }
}

impl ReadItem for UniqueIdentifierResponsePayload {
    fn read(alloc: Global, outer: Outer<'_>, item: ItemRef<'_>) -> Result<Self, ReadError> {
        let fields![unique_identifier] = read_record::<UniqueIdentifierResponsePayloadRows>(
            alloc, outer, item,
        )?;
        Ok(UniqueIdentifierResponsePayload { unique_identifier })
    }
}

impl ReadRoot for UniqueIdentifierResponsePayload {
    ghost root_tag = { tags.RESPONSE_PAYLOAD };

    fn root_tag() -> Tag {
        Tag::of(RESPONSE_PAYLOAD)
    }
}

impl ShowItem for UniqueIdentifierResponsePayload {
    fn show_into(&self, out: &mut TextWriter) {
        show_record::<UniqueIdentifierResponsePayloadRows>(
            fields![&self.unique_identifier],
            fields!["unique_identifier"],
            out,
        );
    }
}

/// The response payload of Activate: KMIP 1.0, 4.18.
pub type ActivateResponsePayload = UniqueIdentifierResponsePayload;

/// The response payload of Revoke: KMIP 1.0, 4.19.
pub type RevokeResponsePayload = UniqueIdentifierResponsePayload;

/// The response payload of Destroy: KMIP 1.0, 4.20.
pub type DestroyResponsePayload = UniqueIdentifierResponsePayload;
