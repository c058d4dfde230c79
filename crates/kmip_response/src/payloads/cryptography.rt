//! Payloads of cryptographic operations.

ghost use Rattle.std.specs.Prelude.{◌≡◌};
ghost use Rattle.kmip_tags.specs.Tags as tags;
ghost use Rattle.kmip_response.specs.Tables.{sign_payload, rng_retrieve_payload};
ghost use Rattle.kmip_response.specs.Values.{sign_payload_val, rng_retrieve_payload_val};
ghost use Rattle.kmip_response.specs.Same.{sign_payload_same, rng_retrieve_payload_same};

use kmip_shape::record::{End, Row};
use kmip_shape::row_readers::One;
use kmip_shape::{
    Item, Outer, ReadError, ReadItem, ReadRoot, ShowItem, TextWriter, WriteItem, fields,
    fits_record, read_record, record_len, show_record, write_record,
};
use kmip_tags::tags::{DATA, RESPONSE_PAYLOAD, SIGNATURE_DATA, UNIQUE_IDENTIFIER};
use kmip_types::UniqueIdentifier;
use kmip_wire::{Blob, Buffer, ItemRef, OutOfMemory, Tag, TryClone};
use std::alloc::Global;

/// The response payload of Sign: KMIP 1.2, 4.31.
#[derive(PartialEq, Eq, Drop)]
pub struct SignResponsePayload {
    /// The identifier of the key that signed.
    pub unique_identifier: UniqueIdentifier,
    /// The bytes of the signature.
    pub signature_data: Blob,
}

type SignResponsePayloadRows = Row<
    One<UniqueIdentifier, UNIQUE_IDENTIFIER>,
    Row<One<Blob, SIGNATURE_DATA>, End>,
>;

impl TryClone for SignResponsePayload {
    fn try_clone(&self, alloc: Global) -> Result<SignResponsePayload, OutOfMemory> {
        Ok(SignResponsePayload {
            unique_identifier: self.unique_identifier.try_clone(alloc)?,
            signature_data: self.signature_data.try_clone(alloc)?,
        })
    }
}

impl Item for SignResponsePayload {
    ghost shape = { sign_payload };

    ghost val = { sign_payload_val };

    fn fits(&self) {
        fits_record::<SignResponsePayloadRows>(fields![
            &self.unique_identifier,
            &self.signature_data
        ]);
    }

    ghost faithful = { sign_payload_same };
}

impl WriteItem for SignResponsePayload {
    fn wire_len(&self, _tag: Tag) -> Option<u64> {
        record_len::<SignResponsePayloadRows>(fields![
            &self.unique_identifier,
            &self.signature_data
        ])
    }

    fn write_into(&self, tag: Tag, out: &mut Buffer) {
        write_record::<SignResponsePayloadRows>(
            fields![&self.unique_identifier, &self.signature_data],
            tag,
            out,
        );
    }
}

impl ReadItem for SignResponsePayload {
    fn read(alloc: Global, outer: Outer<'_>, item: ItemRef<'_>) -> Result<Self, ReadError> {
        let fields![unique_identifier, signature_data] = read_record::<SignResponsePayloadRows>(
            alloc, outer, item,
        )?;
        Ok(SignResponsePayload {
            unique_identifier,
            signature_data,
        })
    }
}

impl ReadRoot for SignResponsePayload {
    ghost root_tag = { tags.RESPONSE_PAYLOAD };

    fn root_tag() -> Tag {
        Tag::of(RESPONSE_PAYLOAD)
    }
}

impl ShowItem for SignResponsePayload {
    fn show_into(&self, out: &mut TextWriter) {
        show_record::<SignResponsePayloadRows>(
            fields![&self.unique_identifier, &self.signature_data],
            fields!["unique_identifier", "signature_data"],
            out,
        );
    }
}

/// The response payload of RNG Retrieve: KMIP 1.2, 4.35.
#[derive(PartialEq, Eq, Drop)]
pub struct RNGRetrieveResponsePayload {
    /// The random bytes; a server may return more or fewer than were asked for.
    pub random_bytes: Blob,
}

type RNGRetrieveResponsePayloadRows = Row<One<Blob, DATA>, End>;

impl TryClone for RNGRetrieveResponsePayload {
    fn try_clone(&self, alloc: Global) -> Result<RNGRetrieveResponsePayload, OutOfMemory> {
        Ok(RNGRetrieveResponsePayload {
            random_bytes: self.random_bytes.try_clone(alloc)?,
        })
    }
}

impl Item for RNGRetrieveResponsePayload {
    ghost shape = { rng_retrieve_payload };

    ghost val = { rng_retrieve_payload_val };

    fn fits(&self) {
        fits_record::<RNGRetrieveResponsePayloadRows>(fields![&self.random_bytes]);
    }

    ghost faithful = { rng_retrieve_payload_same };
}

impl WriteItem for RNGRetrieveResponsePayload {
    fn wire_len(&self, _tag: Tag) -> Option<u64> {
        record_len::<RNGRetrieveResponsePayloadRows>(fields![&self.random_bytes])
    }

    fn write_into(&self, tag: Tag, out: &mut Buffer) {
        write_record::<RNGRetrieveResponsePayloadRows>(fields![&self.random_bytes], tag, out);
    }
}

impl ReadItem for RNGRetrieveResponsePayload {
    fn read(alloc: Global, outer: Outer<'_>, item: ItemRef<'_>) -> Result<Self, ReadError> {
        let fields![random_bytes] = read_record::<RNGRetrieveResponsePayloadRows>(
            alloc, outer, item,
        )?;
        Ok(RNGRetrieveResponsePayload { random_bytes })
    }
}

impl ReadRoot for RNGRetrieveResponsePayload {
    ghost root_tag = { tags.RESPONSE_PAYLOAD };

    fn root_tag() -> Tag {
        Tag::of(RESPONSE_PAYLOAD)
    }
}

impl ShowItem for RNGRetrieveResponsePayload {
    fn show_into(&self, out: &mut TextWriter) {
        show_record::<RNGRetrieveResponsePayloadRows>(
            fields![&self.random_bytes],
            fields!["random_bytes"],
            out,
        );
    }
}
