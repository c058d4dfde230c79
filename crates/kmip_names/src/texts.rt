//! Values that are a text.

ghost use Rattle.std.specs.Prelude.{◌≡◌, Some};
ghost use Rattle.std.specs.Bool.{Decides};
ghost use Rattle.kmip_wire.specs.declared.kind.Kind.TheVariants.{TextString};
ghost use Rattle.kmip_shape.specs.Shape.{Scalar};
ghost use Rattle.kmip_names.specs.Texts.{unique_identifier_val, unique_identifier_same};
ghost use Rattle.kmip_names.specs.Texts.{name_value_val, name_value_same, revocation_message_val};
ghost use Rattle.kmip_names.specs.Texts.{revocation_message_same, linked_object_identifier_val};
ghost use Rattle.kmip_names.specs.Texts.{linked_object_identifier_same};
ghost use Rattle.kmip_names.specs.Texts.{application_namespace_val, application_namespace_same};
ghost use Rattle.kmip_names.specs.Texts.{application_data_val, application_data_same};

use kmip_shape::read::{Outer, ReadError, ReadItem};
use kmip_shape::{Item, ShowItem, TextWriter, WriteItem};
use kmip_wire::{Buffer, ItemRef, OutOfMemory, Tag, Text, TryClone};
use std::alloc::Global;
use std::fmt::{self, Display, Formatter, Write};

/// The identifier of a managed object: KMIP 1.0, 3.1.
#[derive(PartialEq, Eq, Drop)]
pub struct UniqueIdentifier(pub Text);

impl UniqueIdentifier {
    /// The text of the identifier.
    pub fn as_str(&self) -> &str
        ensures { result.now ≡ self.now.0 }
    {
        self.0.as_str()
    }

    /// Whether the identifier is `other`.
    pub fn is(&self, other: &str) -> bool
        ensures { Decides result (self.now.0 ≡ other.now) }
    {
        self.0.as_str() == other
    }
}

impl TryClone for UniqueIdentifier {
    fn try_clone(&self, alloc: Global) -> Result<UniqueIdentifier, OutOfMemory> {
        Ok(UniqueIdentifier(self.0.try_clone(alloc)?))
    }
}

impl Item for UniqueIdentifier {
    ghost shape = { Scalar TextString };

    ghost val = { unique_identifier_val };

    fn fits(&self) {
        self.0.fits();
    }

    ghost faithful = { unique_identifier_same };
}

impl WriteItem for UniqueIdentifier {
    fn wire_len(&self, tag: Tag) -> Option<u64> {
        self.0.wire_len(tag)
    }

    fn write_into(&self, tag: Tag, out: &mut Buffer) {
        self.0.write_into(tag, out);
    }
}

impl ReadItem for UniqueIdentifier {
    fn read(alloc: Global, outer: Outer<'_>, item: ItemRef<'_>) -> Result<Self, ReadError> {
        Ok(UniqueIdentifier(Text::read(alloc, outer, item)?))
    }
}

impl ShowItem for UniqueIdentifier {
    fn show_into(&self, out: &mut TextWriter) {
        self.0.show_into(out);
    }
}

/// The text of a name of an object: KMIP 1.0, 3.2.
#[derive(PartialEq, Eq, Drop)]
pub struct NameValue(pub Text);

impl Display for NameValue {
    ghost output = { λ x. Some x.0 };

    fn fmt<W: Write>(&self, f: &mut Formatter<W>) -> fmt::Result {
        f.write_str(self.0.as_str())
    }
}

impl TryClone for NameValue {
    fn try_clone(&self, alloc: Global) -> Result<NameValue, OutOfMemory> {
        Ok(NameValue(self.0.try_clone(alloc)?))
    }
}

impl Item for NameValue {
    ghost shape = { Scalar TextString };

    ghost val = { name_value_val };

    fn fits(&self) {
        self.0.fits();
    }

    ghost faithful = { name_value_same };
}

impl WriteItem for NameValue {
    fn wire_len(&self, tag: Tag) -> Option<u64> {
        self.0.wire_len(tag)
    }

    fn write_into(&self, tag: Tag, out: &mut Buffer) {
        self.0.write_into(tag, out);
    }
}

impl ReadItem for NameValue {
    fn read(alloc: Global, outer: Outer<'_>, item: ItemRef<'_>) -> Result<Self, ReadError> {
        Ok(NameValue(Text::read(alloc, outer, item)?))
    }
}

impl ShowItem for NameValue {
    fn show_into(&self, out: &mut TextWriter) {
        self.0.show_into(out);
    }
}

/// The message that goes with the reason for a revocation: KMIP 1.0, 3.26.
#[derive(PartialEq, Eq, Drop)]
pub struct RevocationMessage(pub Text);

impl TryClone for RevocationMessage {
    fn try_clone(&self, alloc: Global) -> Result<RevocationMessage, OutOfMemory> {
        Ok(RevocationMessage(self.0.try_clone(alloc)?))
    }
}

impl Item for RevocationMessage {
    ghost shape = { Scalar TextString };

    ghost val = { revocation_message_val };

    fn fits(&self) {
        self.0.fits();
    }

    ghost faithful = { revocation_message_same };
}

impl WriteItem for RevocationMessage {
    fn wire_len(&self, tag: Tag) -> Option<u64> {
        self.0.wire_len(tag)
    }

    fn write_into(&self, tag: Tag, out: &mut Buffer) {
        self.0.write_into(tag, out);
    }
}

impl ReadItem for RevocationMessage {
    fn read(alloc: Global, outer: Outer<'_>, item: ItemRef<'_>) -> Result<Self, ReadError> {
        Ok(RevocationMessage(Text::read(alloc, outer, item)?))
    }
}

impl ShowItem for RevocationMessage {
    fn show_into(&self, out: &mut TextWriter) {
        self.0.show_into(out);
    }
}

/// The identifier of the object that a link leads to: KMIP 1.0, 3.29.
#[derive(PartialEq, Eq, Drop)]
pub struct LinkedObjectIdentifier(pub Text);

impl TryClone for LinkedObjectIdentifier {
    fn try_clone(&self, alloc: Global) -> Result<LinkedObjectIdentifier, OutOfMemory> {
        Ok(LinkedObjectIdentifier(self.0.try_clone(alloc)?))
    }
}

impl Item for LinkedObjectIdentifier {
    ghost shape = { Scalar TextString };

    ghost val = { linked_object_identifier_val };

    fn fits(&self) {
        self.0.fits();
    }

    ghost faithful = { linked_object_identifier_same };
}

impl WriteItem for LinkedObjectIdentifier {
    fn wire_len(&self, tag: Tag) -> Option<u64> {
        self.0.wire_len(tag)
    }

    fn write_into(&self, tag: Tag, out: &mut Buffer) {
        self.0.write_into(tag, out);
    }
}

impl ReadItem for LinkedObjectIdentifier {
    fn read(alloc: Global, outer: Outer<'_>, item: ItemRef<'_>) -> Result<Self, ReadError> {
        Ok(LinkedObjectIdentifier(Text::read(alloc, outer, item)?))
    }
}

impl ShowItem for LinkedObjectIdentifier {
    fn show_into(&self, out: &mut TextWriter) {
        self.0.show_into(out);
    }
}

/// The namespace of the application that keeps data with an object: KMIP 1.0, 3.30.
#[derive(PartialEq, Eq, Drop)]
pub struct ApplicationNamespace(pub Text);

impl TryClone for ApplicationNamespace {
    fn try_clone(&self, alloc: Global) -> Result<ApplicationNamespace, OutOfMemory> {
        Ok(ApplicationNamespace(self.0.try_clone(alloc)?))
    }
}

impl Item for ApplicationNamespace {
    ghost shape = { Scalar TextString };

    ghost val = { application_namespace_val };

    fn fits(&self) {
        self.0.fits();
    }

    ghost faithful = { application_namespace_same };
}

impl WriteItem for ApplicationNamespace {
    fn wire_len(&self, tag: Tag) -> Option<u64> {
        self.0.wire_len(tag)
    }

    fn write_into(&self, tag: Tag, out: &mut Buffer) {
        self.0.write_into(tag, out);
    }
}

impl ReadItem for ApplicationNamespace {
    fn read(alloc: Global, outer: Outer<'_>, item: ItemRef<'_>) -> Result<Self, ReadError> {
        Ok(ApplicationNamespace(Text::read(alloc, outer, item)?))
    }
}

impl ShowItem for ApplicationNamespace {
    fn show_into(&self, out: &mut TextWriter) {
        self.0.show_into(out);
    }
}

/// The data that an application keeps with an object: KMIP 1.0, 3.30.
#[derive(PartialEq, Eq, Drop)]
pub struct ApplicationData(pub Text);

impl TryClone for ApplicationData {
    fn try_clone(&self, alloc: Global) -> Result<ApplicationData, OutOfMemory> {
        Ok(ApplicationData(self.0.try_clone(alloc)?))
    }
}

impl Item for ApplicationData {
    ghost shape = { Scalar TextString };

    ghost val = { application_data_val };

    fn fits(&self) {
        self.0.fits();
    }

    ghost faithful = { application_data_same };
}

impl WriteItem for ApplicationData {
    fn wire_len(&self, tag: Tag) -> Option<u64> {
        self.0.wire_len(tag)
    }

    fn write_into(&self, tag: Tag, out: &mut Buffer) {
        self.0.write_into(tag, out);
    }
}

impl ReadItem for ApplicationData {
    fn read(alloc: Global, outer: Outer<'_>, item: ItemRef<'_>) -> Result<Self, ReadError> {
        Ok(ApplicationData(Text::read(alloc, outer, item)?))
    }
}

impl ShowItem for ApplicationData {
    fn show_into(&self, out: &mut TextWriter) {
        self.0.show_into(out);
    }
}
