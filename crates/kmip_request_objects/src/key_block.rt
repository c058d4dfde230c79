//! Key blocks: keys with their format, algorithm and length.

ghost use Rattle.std.specs.Prelude.{◌≡◌};
ghost use Rattle.kmip_request_objects.specs.Tables.{key_value, key_block};
ghost use Rattle.kmip_request_objects.specs.Values.{key_value_val, key_block_val};
ghost use Rattle.kmip_request_objects.specs.Same.{key_value_same, key_block_same};

use crate::attribute::Attribute;
use crate::key_wrapping::KeyWrappingData;
use kmip_shape::record::{Choosing, End, Row};
use kmip_shape::row_readers::{ChosenOpt, One, Opt, OptMany};
use kmip_shape::{
    Item, Outer, ReadError, ReadItem, WriteItem, fields, fits_record, read_record, record_len,
    write_record,
};
use kmip_tags::tags::{
    ATTRIBUTE, CRYPTOGRAPHIC_ALGORITHM, CRYPTOGRAPHIC_LENGTH, KEY_COMPRESSION_TYPE,
    KEY_FORMAT_TYPE, KEY_MATERIAL, KEY_VALUE, KEY_WRAPPING_DATA,
};
use kmip_types::{
    CryptographicAlgorithm, CryptographicLength, KeyCompressionType, KeyFormatType, KeyMaterial,
};
use kmip_wire::{Buffer, ItemRef, List, OutOfMemory, Tag, TryClone, clone_optional};
use std::alloc::Global;

/// Key material, and attributes of the key: KMIP 1.0, 2.1.4.
#[derive(PartialEq, Eq, Drop)]
pub struct KeyValue(pub KeyMaterial, pub Option<List<Attribute>>);

type KeyValueRows = Row<One<KeyMaterial, KEY_MATERIAL>, Row<OptMany<Attribute, ATTRIBUTE>, End>>;

impl TryClone for KeyValue {
    fn try_clone(&self, alloc: Global) -> Result<KeyValue, OutOfMemory> {
        let attributes = clone_optional(&self.1, alloc)?;
        Ok(KeyValue(self.0.try_clone(alloc)?, attributes))
    }
}

#[tactic(auto, unfolding(crate::specs::Tables::key_value))]
impl Item for KeyValue {
    ghost shape = { key_value };

    ghost val = { key_value_val };

    fn fits(&self) {
        fits_record::<KeyValueRows>(fields![&self.0, &self.1]);
    }

    ghost faithful = { key_value_same };
}

#[tactic(auto, unfolding(crate::specs::Tables::key_value))]
impl WriteItem for KeyValue {
    fn wire_len(&self, _tag: Tag) -> Option<u64> {
        record_len::<KeyValueRows>(fields![&self.0, &self.1])
    }

    fn write_into(&self, tag: Tag, out: &mut Buffer) {
        write_record::<KeyValueRows>(fields![&self.0, &self.1], tag, out);
    }
}

#[tactic(auto, unfolding(crate::specs::Tables::key_value))]
impl ReadItem for KeyValue {
    fn read(alloc: Global, outer: Outer<'_>, item: ItemRef<'_>) -> Result<Self, ReadError> {
        let fields![material, attributes] = read_record::<KeyValueRows>(alloc, outer, item)?;
        Ok(KeyValue(material, attributes))
    }
}

/// A key with its format, algorithm and length in bits: KMIP 1.0, 2.1.3. The format is that of the
/// key material.
#[derive(PartialEq, Eq, Drop)]
pub struct KeyBlock(
    pub KeyFormatType,
    pub Option<KeyCompressionType>,
    pub Option<KeyValue>,
    pub Option<CryptographicAlgorithm>,
    pub Option<CryptographicLength>,
    pub Option<KeyWrappingData>,
);

type KeyBlockRows<'a> = Choosing<
    One<KeyFormatType, KEY_FORMAT_TYPE>,
    Row<
        Opt<KeyCompressionType, KEY_COMPRESSION_TYPE>,
        Row<
            ChosenOpt<'a, KeyValue, KEY_VALUE>,
            Row<
                Opt<CryptographicAlgorithm, CRYPTOGRAPHIC_ALGORITHM>,
                Row<
                    Opt<CryptographicLength, CRYPTOGRAPHIC_LENGTH>,
                    Row<Opt<KeyWrappingData, KEY_WRAPPING_DATA>, End>,
                >,
            >,
        >,
    >,
>;

impl TryClone for KeyBlock {
    fn try_clone(&self, alloc: Global) -> Result<KeyBlock, OutOfMemory> {
        Ok(KeyBlock(
            self.0,
            self.1,
            clone_optional(&self.2, alloc)?,
            self.3,
            self.4,
            clone_optional(&self.5, alloc)?,
        ))
    }
}

#[tactic(auto, unfolding(crate::specs::Tables::key_block))]
impl Item for KeyBlock {
    ghost shape = { key_block };

    ghost val = { key_block_val };

    fn fits(&self) {
        fits_record::<KeyBlockRows<'_>>(fields![
            &self.0, &self.1, &self.2, &self.3, &self.4, &self.5
        ]);
    }

    ghost faithful = { key_block_same };
}

#[tactic(auto, unfolding(crate::specs::Tables::key_block))]
impl WriteItem for KeyBlock {
    fn wire_len(&self, _tag: Tag) -> Option<u64> {
        record_len::<KeyBlockRows<'_>>(fields![
            &self.0, &self.1, &self.2, &self.3, &self.4, &self.5
        ])
    }

    fn write_into(&self, tag: Tag, out: &mut Buffer) {
        write_record::<KeyBlockRows<'_>>(
            fields![&self.0, &self.1, &self.2, &self.3, &self.4, &self.5],
            tag,
            out,
        );
    }
}

#[tactic(auto, unfolding(crate::specs::Tables::key_block))]
impl ReadItem for KeyBlock {
    fn read(alloc: Global, outer: Outer<'_>, item: ItemRef<'_>) -> Result<Self, ReadError> {
        let fields![format, compression, value, algorithm, length, wrapping] = read_record::<
            KeyBlockRows<'_>,
        >(alloc, outer, item)?;
        Ok(KeyBlock(format, compression, value, algorithm, length, wrapping))
    }
}
