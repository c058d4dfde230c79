//! The names of attributes.

ghost use Rattle.std.specs.Prelude.{◌≡◌};
ghost use Rattle.std.specs.Bool.{Decides};
ghost use Rattle.kmip_wire.specs.declared.kind.Kind.TheVariants.{TextString};
ghost use Rattle.kmip_shape.specs.Shape.{Scalar};
ghost use Rattle.kmip_names.specs.AttributeNames.{attribute_name_val, attribute_name_same};

use kmip_shape::read::{Outer, ReadError, ReadItem};
use kmip_shape::row_readers::Chooses;
use kmip_shape::{Item, ShowItem, TextWriter, WriteItem};
use kmip_wire::{Buffer, ItemRef, OutOfMemory, Tag, Text, TryClone};
use std::alloc::Global;

/// The name of an attribute: KMIP 1.0, 2.1.1.
#[derive(PartialEq, Eq, Drop)]
pub struct AttributeName(pub Text);

impl AttributeName {
    /// Whether the name is `other`.
    pub fn is(&self, other: &str) -> bool
        ensures { Decides result (self.now.0 ≡ other.now) }
    {
        self.0.as_str() == other
    }
}

impl TryClone for AttributeName {
    fn try_clone(&self, alloc: Global) -> Result<AttributeName, OutOfMemory> {
        Ok(AttributeName(self.0.try_clone(alloc)?))
    }
}

impl Item for AttributeName {
    ghost shape = { Scalar TextString };

    ghost val = { attribute_name_val };

    fn fits(&self) {
        self.0.fits();
    }

    ghost faithful = { attribute_name_same };
}

impl WriteItem for AttributeName {
    fn wire_len(&self, tag: Tag) -> Option<u64> {
        self.0.wire_len(tag)
    }

    fn write_into(&self, tag: Tag, out: &mut Buffer) {
        self.0.write_into(tag, out);
    }
}

impl ReadItem for AttributeName {
    fn read(alloc: Global, outer: Outer<'_>, item: ItemRef<'_>) -> Result<Self, ReadError> {
        Ok(AttributeName(Text::read(alloc, outer, item)?))
    }
}

impl ShowItem for AttributeName {
    fn show_into(&self, out: &mut TextWriter) {
        self.0.show_into(out);
    }
}

impl Chooses for AttributeName {
    fn outer(&self) -> Outer<'_> {
        Outer {
            number: None,
            name: Some(self.0.as_str()),
        }
    }
}
