//! Names of objects.

ghost use Rattle.std.specs.Prelude.{◌≡◌};
ghost use Rattle.std.specs.Prelude.{Some};
ghost use Rattle.kmip_request_objects.specs.Tables.{name};
ghost use Rattle.kmip_request_objects.specs.Values.{name_val};
ghost use Rattle.kmip_request_objects.specs.Same.{name_same};

use kmip_enums::NameType;
use kmip_shape::record::{End, Row};
use kmip_shape::row_readers::One;
use kmip_shape::{
    Item, Outer, ReadError, ReadItem, WriteItem, fields, fits_record, read_record, record_len,
    write_record,
};
use kmip_tags::tags::{NAME_TYPE, NAME_VALUE};
use kmip_types::NameValue;
use kmip_wire::{Buffer, ItemRef, OutOfMemory, Tag, TryClone};
use std::alloc::Global;
use std::fmt::{self, Display, Formatter, Write};

/// The name of an object, and the type of the name: KMIP 1.0, 3.2.
#[derive(PartialEq, Eq, Drop)]
pub struct Name(pub NameValue, pub NameType);

impl Display for Name {
    ghost output = { λ x. Some (x.0).0 };

    fn fmt<W: Write>(&self, f: &mut Formatter<W>) -> fmt::Result {
        f.write_str((self.0).0.as_str())
    }
}

type NameRows = Row<One<NameValue, NAME_VALUE>, Row<One<NameType, NAME_TYPE>, End>>;

impl TryClone for Name {
    fn try_clone(&self, alloc: Global) -> Result<Name, OutOfMemory> {
        Ok(Name(self.0.try_clone(alloc)?, self.1))
    }
}

#[tactic(auto, unfolding(crate::specs::Tables::name))]
impl Item for Name {
    ghost shape = { name };

    ghost val = { name_val };

    fn fits(&self) {
        fits_record::<NameRows>(fields![&self.0, &self.1]);
    }

    ghost faithful = { name_same };
}

#[tactic(auto, unfolding(crate::specs::Tables::name))]
impl WriteItem for Name {
    fn wire_len(&self, _tag: Tag) -> Option<u64> {
        record_len::<NameRows>(fields![&self.0, &self.1])
    }

    fn write_into(&self, tag: Tag, out: &mut Buffer) {
        write_record::<NameRows>(fields![&self.0, &self.1], tag, out);
    }
}

#[tactic(auto, unfolding(crate::specs::Tables::name))]
impl ReadItem for Name {
    fn read(alloc: Global, outer: Outer<'_>, item: ItemRef<'_>) -> Result<Self, ReadError> {
        let fields![value, name_type] = read_record::<NameRows>(alloc, outer, item)?;
        Ok(Name(value, name_type))
    }
}
