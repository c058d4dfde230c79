//! Attributes of objects.

ghost use Rattle.std.specs.Prelude.{◌≡◌};
ghost use Rattle.kmip_tags.specs.Tags as tags;
ghost use Rattle.kmip_response_objects.specs.Tables.{attribute, name};
ghost use Rattle.kmip_response_objects.specs.Values.{attribute_val};
ghost use Rattle.kmip_response_objects.specs.Same.{attribute_same};

use kmip_shape::record::{Choosing, End, Row};
use kmip_shape::row_readers::{ChosenOne, One, Opt};
use kmip_shape::{
    Item, Outer, ReadError, ReadItem, ReadRoot, ShowItem, TextWriter, WriteItem, fields,
    fits_record, read_record, record_len, show_record, write_record,
};
use kmip_tags::tags::{ATTRIBUTE, ATTRIBUTE_INDEX, ATTRIBUTE_NAME, ATTRIBUTE_VALUE};
use kmip_types::{AttributeIndex, AttributeName, AttributeValue};
use kmip_wire::{Buffer, ItemRef, OutOfMemory, Tag, TryClone};
use std::alloc::Global;

/// An attribute of an object: KMIP 1.0, 2.1.1.
#[derive(PartialEq, Eq, Drop)]
pub struct Attribute {
    /// Its name, by which the type of its value is chosen.
    pub name: AttributeName,
    /// Which of the attributes of this name it is, counted from 0: KMIP 1.0, 2.1.1.
    pub index: Option<AttributeIndex>,
    /// Its value, of the variant that `name` selects; where `name` selects none, of the variant of
    /// its item's type.
    pub value: AttributeValue,
}

type AttributeRows<'a> = Choosing<
    One<AttributeName, ATTRIBUTE_NAME>,
    Row<
        Opt<AttributeIndex, ATTRIBUTE_INDEX>,
        Row<ChosenOne<'a, AttributeValue, ATTRIBUTE_VALUE>, End>,
    >,
>;

impl TryClone for Attribute {
    fn try_clone(&self, alloc: Global) -> Result<Attribute, OutOfMemory> {
        Ok(Attribute {
            name: self.name.try_clone(alloc)?,
            index: self.index,
            value: self.value.try_clone(alloc)?,
        })
    }
}

impl Item for Attribute {
    ghost shape = { attribute };

    ghost val = { attribute_val };

    fn fits(&self) {
        fits_record::<AttributeRows<'_>>(fields![&self.name, &self.index, &self.value]);
    }

    ghost faithful = { attribute_same };
}

impl WriteItem for Attribute {
    fn wire_len(&self, _tag: Tag) -> Option<u64> {
        record_len::<AttributeRows<'_>>(fields![&self.name, &self.index, &self.value])
    }

    fn write_into(&self, tag: Tag, out: &mut Buffer) {
        write_record::<AttributeRows<'_>>(fields![&self.name, &self.index, &self.value], tag, out);
    }
}

impl ReadItem for Attribute {
    fn read(alloc: Global, outer: Outer<'_>, item: ItemRef<'_>) -> Result<Self, ReadError> {
        let fields![name, index, value] = read_record::<AttributeRows<'_>>(alloc, outer, item)?;
        Ok(Attribute { name, index, value })
    }
}

impl ReadRoot for Attribute {
    ghost root_tag = { tags.ATTRIBUTE };

    fn root_tag() -> Tag {
        Tag::of(ATTRIBUTE)
    }
}

impl ShowItem for Attribute {
    fn show_into(&self, out: &mut TextWriter) {
        show_record::<AttributeRows<'_>>(
            fields![&self.name, &self.index, &self.value],
            fields!["name", "index", "value"],
            out,
        );
    }
}
