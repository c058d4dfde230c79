//! Attributes.

ghost use Rattle.std.specs.Prelude.{◌≡◌};
ghost use Rattle.kmip_request_objects.specs.Tables.{attribute, name};
ghost use Rattle.kmip_request_objects.specs.Values.{attribute_val};
ghost use Rattle.kmip_request_objects.specs.Same.{attribute_same};

use kmip_shape::record::{Choosing, End, Row};
use kmip_shape::row_readers::{ChosenOne, One, Opt};
use kmip_shape::{
    Item, Outer, ReadError, ReadItem, WriteItem, fields, fits_record, read_record, record_len,
    write_record,
};
use kmip_tags::tags::{ATTRIBUTE_INDEX, ATTRIBUTE_NAME, ATTRIBUTE_VALUE};
use kmip_types::{AttributeIndex, AttributeName, AttributeValue};
use kmip_wire::{Buffer, ItemRef, OutOfMemory, Tag, TryClone};
use std::alloc::Global;

/// An attribute of an object: its name, its index among the attributes of that name, and its value
/// (KMIP 1.0, 2.1.1).
#[derive(PartialEq, Eq, Drop)]
pub struct Attribute(
    pub AttributeName,
    pub Option<AttributeIndex>,
    pub AttributeValue,
);

type AttributeRows<'a> = Choosing<
    One<AttributeName, ATTRIBUTE_NAME>,
    Row<
        Opt<AttributeIndex, ATTRIBUTE_INDEX>,
        Row<ChosenOne<'a, AttributeValue, ATTRIBUTE_VALUE>, End>,
    >,
>;

impl TryClone for Attribute {
    fn try_clone(&self, alloc: Global) -> Result<Attribute, OutOfMemory> {
        Ok(Attribute(self.0.try_clone(alloc)?, self.1, self.2.try_clone(alloc)?))
    }
}

#[tactic(auto, unfolding(crate::specs::Tables::attribute))]
impl Item for Attribute {
    ghost shape = { attribute };

    ghost val = { attribute_val };

    fn fits(&self) {
        fits_record::<AttributeRows<'_>>(fields![&self.0, &self.1, &self.2]);
    }

    ghost faithful = { attribute_same };
}

#[tactic(auto, unfolding(crate::specs::Tables::attribute))]
impl WriteItem for Attribute {
    fn wire_len(&self, _tag: Tag) -> Option<u64> {
        record_len::<AttributeRows<'_>>(fields![&self.0, &self.1, &self.2])
    }

    fn write_into(&self, tag: Tag, out: &mut Buffer) {
        write_record::<AttributeRows<'_>>(fields![&self.0, &self.1, &self.2], tag, out);
    }
}

#[tactic(auto, unfolding(crate::specs::Tables::attribute))]
impl ReadItem for Attribute {
    fn read(alloc: Global, outer: Outer<'_>, item: ItemRef<'_>) -> Result<Self, ReadError> {
        let fields![name, index, value] = read_record::<AttributeRows<'_>>(alloc, outer, item)?;
        Ok(Attribute(name, index, value))
    }
}
