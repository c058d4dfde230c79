//! What a vendor adds to a message.

ghost use Rattle.std.specs.Prelude.{◌≡◌};
ghost use Rattle.kmip_tags.specs.Tags as tags;
ghost use Rattle.kmip_response.specs.Tables.{message_extension};
ghost use Rattle.kmip_response.specs.Values.{message_extension_val};
ghost use Rattle.kmip_response.specs.Same.{message_extension_same};

use kmip_shape::record::{End, Row};
use kmip_shape::row_readers::One;
use kmip_shape::{
    Item, Outer, ReadError, ReadItem, ReadRoot, WriteItem, fields, fits_record, read_record,
    record_len, write_record,
};
use kmip_tags::tags::{CRITICALITY_INDICATOR, MESSAGE_EXTENSION, VENDOR_IDENTIFICATION};
use kmip_wire::{Buffer, ItemRef, OutOfMemory, Tag, Text, TryClone};
use std::alloc::Global;

/// The contents of a vendor's extension, which are skipped in reading and not written.
#[derive(Clone, Copy, PartialEq, Eq, Default, Drop)]
pub struct VendorExtension;

/// An extension of a message: KMIP 1.0, 6.16.
#[derive(PartialEq, Eq, Drop)]
pub struct MessageExtension {
    /// A text that identifies the vendor.
    pub vendor_identification: Text,
    /// Whether a receiver that does not know the extension is to refuse the message.
    pub criticality_indicator: bool,
    /// The vendor's own items: KMIP 1.0, 6.16.
    pub vendor_extension: VendorExtension,
}

impl TryClone for MessageExtension {
    fn try_clone(&self, alloc: Global) -> Result<MessageExtension, OutOfMemory> {
        Ok(MessageExtension {
            vendor_identification: self.vendor_identification.try_clone(alloc)?,
            criticality_indicator: self.criticality_indicator,
            vendor_extension: VendorExtension,
        })
    }
}

impl Item for MessageExtension {
    ghost shape = { message_extension };

    ghost val = { message_extension_val };

    fn fits(&self) {
        fits_record::<MessageExtensionRows>(fields![
            &self.vendor_identification,
            &self.criticality_indicator,
        ]);
    }

    ghost faithful = { message_extension_same };
}

impl WriteItem for MessageExtension {
    fn wire_len(&self, _tag: Tag) -> Option<u64> {
        record_len::<MessageExtensionRows>(fields![
            &self.vendor_identification,
            &self.criticality_indicator
        ])
    }

    fn write_into(&self, tag: Tag, out: &mut Buffer) {
        write_record::<MessageExtensionRows>(
            fields![&self.vendor_identification, &self.criticality_indicator],
            tag,
            out,
        );
    }
}

type MessageExtensionRows = Row<
    One<Text, VENDOR_IDENTIFICATION>,
    Row<One<bool, CRITICALITY_INDICATOR>, End>,
>;

impl ReadItem for MessageExtension {
    fn read(alloc: Global, outer: Outer<'_>, item: ItemRef<'_>) -> Result<Self, ReadError> {
        let fields![vendor_identification, criticality_indicator] = read_record::<
            MessageExtensionRows,
        >(alloc, outer, item)?;
        Ok(MessageExtension {
            vendor_identification,
            criticality_indicator,
            vendor_extension: VendorExtension,
        })
    }
}

impl ReadRoot for MessageExtension {
    ghost root_tag = { tags.MESSAGE_EXTENSION };

    fn root_tag() -> Tag {
        Tag::of(MESSAGE_EXTENSION)
    }
}
