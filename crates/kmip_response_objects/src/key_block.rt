//! Keys with their format, algorithm and length.

ghost use Rattle.std.specs.Prelude.{◌≡◌};
ghost use Rattle.kmip_tags.specs.Tags as tags;
ghost use Rattle.kmip_response_objects.specs.Tables.{key_wrapping_data, key_value, key_block};
ghost use Rattle.kmip_response_objects.specs.Values.{key_value_val, key_block_val};
ghost use Rattle.kmip_response_objects.specs.Same.{key_value_same, key_block_same};

use crate::attribute::Attribute;
use crate::key_wrapping::KeyWrappingData;
use kmip_shape::record::{Choosing, End, Row};
use kmip_shape::row_readers::{ChosenOne, One, Opt, OptMany};
use kmip_shape::{
    Item, Outer, ReadError, ReadItem, ReadRoot, ShowItem, TextWriter, WriteItem, fields,
    fits_record, read_record, record_len, show_record, write_record,
};
use kmip_tags::tags::{
    ATTRIBUTE, CRYPTOGRAPHIC_ALGORITHM, CRYPTOGRAPHIC_LENGTH, KEY_BLOCK, KEY_COMPRESSION_TYPE,
    KEY_FORMAT_TYPE, KEY_MATERIAL, KEY_VALUE, KEY_WRAPPING_DATA,
};
use kmip_types::{CryptographicAlgorithm, KeyCompressionType, KeyFormatType, KeyMaterial};
use kmip_wire::{Blob, Buffer, ItemRef, List, OutOfMemory, Tag, TryClone, clone_optional};
use std::alloc::Global;

/// Key material, and attributes of the key: KMIP 1.0, 2.1.4.
#[derive(PartialEq, Eq, Drop)]
pub struct KeyValue {
    /// `Wrapped` where the key value is one Byte String, and else in the key block's format:
    /// KMIP 1.0, 2.1.7.
    pub key_material: KeyMaterial,
    /// Attributes of the key, which are wrapped together with the key material.
    pub attributes: Option<List<Attribute>>,
}

type KeyValueRows = Row<One<KeyMaterial, KEY_MATERIAL>, Row<OptMany<Attribute, ATTRIBUTE>, End>>;

impl TryClone for KeyValue {
    fn try_clone(&self, alloc: Global) -> Result<KeyValue, OutOfMemory> {
        let attributes = clone_optional(&self.attributes, alloc)?;
        Ok(KeyValue {
            key_material: self.key_material.try_clone(alloc)?,
            attributes,
        })
    }
}

impl Item for KeyValue {
    ghost shape = { key_value };

    ghost val = { key_value_val };

    fn fits(&self) {
        fits_record::<KeyValueRows>(fields![&self.key_material, &self.attributes]);
    }

    ghost faithful = { key_value_same };
}

impl WriteItem for KeyValue {
    fn wire_len(&self, tag: Tag) -> Option<u64> {
        if let (KeyMaterial::Wrapped(bytes), None) = (&self.key_material, &self.attributes) {
            return bytes.wire_len(tag);
        }
        record_len::<KeyValueRows>(fields![&self.key_material, &self.attributes])
    }

    fn write_into(&self, tag: Tag, out: &mut Buffer) {
        if let (KeyMaterial::Wrapped(bytes), None) = (&self.key_material, &self.attributes) {
            bytes.write_into(tag, out);
            return;
        }
        write_record::<KeyValueRows>(fields![&self.key_material, &self.attributes], tag, out);
    }
}

impl ReadItem for KeyValue {
    fn read(alloc: Global, outer: Outer<'_>, item: ItemRef<'_>) -> Result<Self, ReadError> {
        if let Some(bytes) = item.bytes() {
            return Ok(KeyValue {
                key_material: KeyMaterial::Wrapped(Blob::of(alloc, bytes)?),
                attributes: None,
            });
        }
        let fields![key_material, attributes] = read_record::<KeyValueRows>(alloc, outer, item)?;
        Ok(KeyValue {
            key_material,
            attributes,
        })
    }
}

impl ShowItem for KeyValue {
    fn show_into(&self, out: &mut TextWriter) {
        show_record::<KeyValueRows>(
            fields![&self.key_material, &self.attributes],
            fields!["key_material", "attributes"],
            out,
        );
    }
}

/// A key with its format, algorithm and length: KMIP 1.0, 2.1.3.
#[derive(PartialEq, Eq, Drop)]
pub struct KeyBlock {
    /// The format of the key material: KMIP 1.0, 9.1.3.2.3.
    pub key_format_type: KeyFormatType,
    /// How the point of an elliptic curve public key is compressed: KMIP 1.0, 9.1.3.2.2.
    pub key_compression_type: Option<KeyCompressionType>,
    /// The key material, in the format `key_format_type`, or wrapped: KMIP 1.0, 2.1.4.
    pub key_value: KeyValue,
    /// The algorithm that the key is for: KMIP 1.0, 3.4.
    pub cryptographic_algorithm: Option<CryptographicAlgorithm>,
    /// The length of the key in bits: KMIP 1.0, 3.5.
    pub cryptographic_length: Option<i32>,
    /// How the key value is wrapped, if it is: KMIP 1.0, 2.1.5.
    pub key_wrapping_data: Option<KeyWrappingData>,
}

type KeyBlockRows<'a> = Choosing<
    One<KeyFormatType, KEY_FORMAT_TYPE>,
    Row<
        Opt<KeyCompressionType, KEY_COMPRESSION_TYPE>,
        Row<
            ChosenOne<'a, KeyValue, KEY_VALUE>,
            Row<
                Opt<CryptographicAlgorithm, CRYPTOGRAPHIC_ALGORITHM>,
                Row<
                    Opt<i32, CRYPTOGRAPHIC_LENGTH>,
                    Row<Opt<KeyWrappingData, KEY_WRAPPING_DATA>, End>,
                >,
            >,
        >,
    >,
>;

impl TryClone for KeyBlock {
    fn try_clone(&self, alloc: Global) -> Result<KeyBlock, OutOfMemory> {
        Ok(KeyBlock {
            key_format_type: self.key_format_type,
            key_compression_type: self.key_compression_type,
            key_value: self.key_value.try_clone(alloc)?,
            cryptographic_algorithm: self.cryptographic_algorithm,
            cryptographic_length: self.cryptographic_length,
            key_wrapping_data: clone_optional(&self.key_wrapping_data, alloc)?,
        })
    }
}

impl Item for KeyBlock {
    ghost shape = { key_block };

    ghost val = { key_block_val };

    fn fits(&self) {
        fits_record::<KeyBlockRows<'_>>(fields![
            &self.key_format_type,
            &self.key_compression_type,
            &self.key_value,
            &self.cryptographic_algorithm,
            &self.cryptographic_length,
            &self.key_wrapping_data
        ]);
    }

    ghost faithful = { key_block_same };
}

impl WriteItem for KeyBlock {
    fn wire_len(&self, _tag: Tag) -> Option<u64> {
        record_len::<KeyBlockRows<'_>>(fields![
            &self.key_format_type,
            &self.key_compression_type,
            &self.key_value,
            &self.cryptographic_algorithm,
            &self.cryptographic_length,
            &self.key_wrapping_data
        ])
    }

    fn write_into(&self, tag: Tag, out: &mut Buffer) {
        write_record::<KeyBlockRows<'_>>(
            fields![
                &self.key_format_type,
                &self.key_compression_type,
                &self.key_value,
                &self.cryptographic_algorithm,
                &self.cryptographic_length,
                &self.key_wrapping_data
            ],
            tag,
            out,
        );
    }
}

impl ReadItem for KeyBlock {
    fn read(alloc: Global, outer: Outer<'_>, item: ItemRef<'_>) -> Result<Self, ReadError> {
        let fields![
            key_format_type,
            key_compression_type,
            key_value,
            cryptographic_algorithm,
            cryptographic_length,
            key_wrapping_data
        ] = read_record::<KeyBlockRows<'_>>(alloc, outer, item)?;
        Ok(KeyBlock {
            key_format_type,
            key_compression_type,
            key_value,
            cryptographic_algorithm,
            cryptographic_length,
            key_wrapping_data,
        })
    }
}

impl ReadRoot for KeyBlock {
    ghost root_tag = { tags.KEY_BLOCK };

    fn root_tag() -> Tag {
        Tag::of(KEY_BLOCK)
    }
}

impl ShowItem for KeyBlock {
    fn show_into(&self, out: &mut TextWriter) {
        show_record::<KeyBlockRows<'_>>(
            fields![
                &self.key_format_type,
                &self.key_compression_type,
                &self.key_value,
                &self.cryptographic_algorithm,
                &self.cryptographic_length,
                &self.key_wrapping_data
            ],
            fields![
                "key_format_type",
                "key_compression_type",
                "key_value",
                "cryptographic_algorithm",
                "cryptographic_length",
                "key_wrapping_data"
            ],
            out,
        );
    }
}
