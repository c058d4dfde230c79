//! A whole response.

ghost use Rattle.std.specs.Prelude.{◌≡◌};
ghost use Rattle.kmip_tags.specs.Tags as tags;
ghost use Rattle.kmip_response.specs.Tables.{response_message};
ghost use Rattle.kmip_response.specs.Values.{response_message_val};
ghost use Rattle.kmip_response.specs.Same.{response_message_same};

use crate::batch_item::BatchItem;
use crate::header::ResponseHeader;
use kmip_shape::record::{End, Row};
use kmip_shape::row_readers::{NonEmpty, One};
use kmip_shape::{
    Item, Outer, ReadError, ReadItem, ReadRoot, WriteItem, fields, fits_record, read_record,
    record_len, write_record,
};
use kmip_tags::tags::{BATCH_ITEM, RESPONSE_HEADER, RESPONSE_MESSAGE};
use kmip_wire::{Buffer, ItemRef, List, OutOfMemory, Tag, TryClone};
use std::alloc::Global;

/// A response: KMIP 1.0, 7.1.
#[derive(PartialEq, Eq, Drop)]
pub struct ResponseMessage {
    /// Version, time stamp and number of batch items: KMIP 1.0, 7.2.
    pub header: ResponseHeader,
    /// The batch items, at least one: KMIP 1.0, 6.15.
    pub batch_items: List<BatchItem>,
}

impl TryClone for ResponseMessage {
    fn try_clone(&self, alloc: Global) -> Result<ResponseMessage, OutOfMemory> {
        Ok(ResponseMessage {
            header: self.header,
            batch_items: self.batch_items.try_clone(alloc)?,
        })
    }
}

impl Item for ResponseMessage {
    ghost shape = { response_message };

    ghost val = { response_message_val };

    fn fits(&self) {
        fits_record::<ResponseMessageRows>(fields![&self.header, &self.batch_items]);
    }

    ghost faithful = { response_message_same };
}

impl WriteItem for ResponseMessage {
    fn wire_len(&self, _tag: Tag) -> Option<u64> {
        record_len::<ResponseMessageRows>(fields![&self.header, &self.batch_items])
    }

    fn write_into(&self, tag: Tag, out: &mut Buffer) {
        write_record::<ResponseMessageRows>(fields![&self.header, &self.batch_items], tag, out);
    }
}

type ResponseMessageRows = Row<
    One<ResponseHeader, RESPONSE_HEADER>,
    Row<NonEmpty<BatchItem, BATCH_ITEM>, End>,
>;

impl ReadItem for ResponseMessage {
    fn read(alloc: Global, outer: Outer<'_>, item: ItemRef<'_>) -> Result<Self, ReadError> {
        let fields![header, batch_items] = read_record::<ResponseMessageRows>(alloc, outer, item)?;
        Ok(ResponseMessage {
            header,
            batch_items,
        })
    }
}

impl ReadRoot for ResponseMessage {
    ghost root_tag = { tags.RESPONSE_MESSAGE };

    fn root_tag() -> Tag {
        Tag::of(RESPONSE_MESSAGE)
    }
}
