//! Names of objects.

ghost use Rattle.std.specs.Prelude.{◌≡◌};
ghost use Rattle.kmip_tags.specs.Tags as tags;
ghost use Rattle.kmip_response_objects.specs.Tables.{name};
ghost use Rattle.kmip_response_objects.specs.Values.{name_val};
ghost use Rattle.kmip_response_objects.specs.Same.{name_same};

use kmip_enums::NameType;
use kmip_shape::record::{End, Row};
use kmip_shape::row_readers::One;
use kmip_shape::{
    Item, Outer, ReadError, ReadItem, ReadRoot, ShowItem, TextWriter, WriteItem, fields,
    fits_record, read_record, record_len, show_record, write_record,
};
use kmip_tags::tags::{NAME, NAME_TYPE, NAME_VALUE};
use kmip_types::NameValue;
use kmip_wire::{Buffer, ItemRef, OutOfMemory, Tag, TryClone};
use std::alloc::Global;

/// The name of an object: KMIP 1.0, 3.2.
#[derive(PartialEq, Eq, Drop)]
pub struct Name {
    /// The name itself.
    pub name: NameValue,
    /// How the name is to be read: KMIP 1.0, 9.1.3.2.10.
    pub name_type: NameType,
}

type NameRows = Row<One<NameValue, NAME_VALUE>, Row<One<NameType, NAME_TYPE>, End>>;

impl TryClone for Name {
    fn try_clone(&self, alloc: Global) -> Result<Name, OutOfMemory> {
        Ok(Name {
            name: self.name.try_clone(alloc)?,
            name_type: self.name_type,
        })
    }
}

impl Item for Name {
    ghost shape = { name };

    ghost val = { name_val };

    fn fits(&self) {
        fits_record::<NameRows>(fields![&self.name, &self.name_type]);
    }

    ghost faithful = { name_same };
}

impl WriteItem for Name {
    fn wire_len(&self, _tag: Tag) -> Option<u64> {
        record_len::<NameRows>(fields![&self.name, &self.name_type])
    }

    fn write_into(&self, tag: Tag, out: &mut Buffer) {
        write_record::<NameRows>(fields![&self.name, &self.name_type], tag, out);
    }
}

impl ReadItem for Name {
    fn read(alloc: Global, outer: Outer<'_>, item: ItemRef<'_>) -> Result<Self, ReadError> {
        let fields![name, name_type] = read_record::<NameRows>(alloc, outer, item)?;
        Ok(Name { name, name_type })
    }
}

impl ReadRoot for Name {
    ghost root_tag = { tags.NAME };

    fn root_tag() -> Tag {
        Tag::of(NAME)
    }
}

impl ShowItem for Name {
    fn show_into(&self, out: &mut TextWriter) {
        show_record::<NameRows>(
            fields![&self.name, &self.name_type],
            fields!["name", "name_type"],
            out,
        );
    }
}
