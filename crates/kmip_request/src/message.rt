//! The message of a request, and its batch items.

ghost use Rattle.std.specs.Prelude.{◌≡◌};
ghost use Rattle.kmip_tags.specs.Tags as tags;
ghost use Rattle.kmip_request.specs.Tables.{batch_item, request_message};
ghost use Rattle.kmip_request.specs.Values.{batch_item_val, request_message_val};
ghost use Rattle.kmip_request.specs.Same.{batch_item_same, request_message_same};

use crate::header::RequestHeader;
use crate::payload::RequestPayload;
use kmip_enums::Operation;
use kmip_shape::record::{Choosing, End, Row};
use kmip_shape::row_readers::{ChosenOne, Many, One, Opt};
use kmip_shape::{
    Item, Outer, ReadError, ReadItem, ReadRoot, WriteItem, fields, fits_record, read_record,
    record_len, write_record,
};
use kmip_tags::tags::{
    BATCH_ITEM, OPERATION, REQUEST_HEADER, REQUEST_MESSAGE, REQUEST_PAYLOAD, UNIQUE_BATCH_ITEM_ID,
};
use kmip_types::UniqueBatchItemID;
use kmip_wire::{Buffer, ItemRef, List, OutOfMemory, Tag, TryClone, clone_optional};
use std::alloc::Global;

/// A batch item of a request: one operation with its payload: KMIP 1.0, 7.2.
#[derive(PartialEq, Eq, Drop)]
pub struct BatchItem(
    pub Operation,
    pub Option<UniqueBatchItemID>,
    pub RequestPayload,
);

pub(crate) type BatchItemRows<'a, P> = Choosing<
    One<Operation, OPERATION>,
    Row<Opt<UniqueBatchItemID, UNIQUE_BATCH_ITEM_ID>, Row<ChosenOne<'a, P, REQUEST_PAYLOAD>, End>>,
>;

impl TryClone for BatchItem {
    fn try_clone(&self, alloc: Global) -> Result<BatchItem, OutOfMemory> {
        Ok(BatchItem(
            self.0,
            clone_optional(&self.1, alloc)?,
            self.2.try_clone(alloc)?,
        ))
    }
}

impl Item for BatchItem {
    ghost shape = { batch_item };

    ghost val = { batch_item_val };

    fn fits(&self) {
        fits_record::<BatchItemRows<'_, RequestPayload>>(fields![&self.0, &self.1, &self.2]);
    }

    ghost faithful = { batch_item_same };
}

impl WriteItem for BatchItem {
    fn wire_len(&self, _tag: Tag) -> Option<u64> {
        record_len::<BatchItemRows<'_, RequestPayload>>(fields![&self.0, &self.1, &self.2])
    }

    fn write_into(&self, tag: Tag, out: &mut Buffer) {
        write_record::<BatchItemRows<'_, RequestPayload>>(
            fields![&self.0, &self.1, &self.2],
            tag,
            out,
        );
    }
}

impl ReadItem for BatchItem {
    fn read(alloc: Global, outer: Outer<'_>, item: ItemRef<'_>) -> Result<Self, ReadError> {
        let fields![operation, identifier, payload] = read_record::<
            BatchItemRows<'_, RequestPayload>,
        >(alloc, outer, item)?;
        Ok(BatchItem(operation, identifier, payload))
    }
}

/// The message of a request: its header and its batch items: KMIP 1.0, 7.1.
#[derive(PartialEq, Eq, Drop)]
pub struct RequestMessage(pub RequestHeader, pub List<BatchItem>);

type RequestMessageRows = Row<
    One<RequestHeader, REQUEST_HEADER>,
    Row<Many<BatchItem, BATCH_ITEM>, End>,
>;

impl TryClone for RequestMessage {
    fn try_clone(&self, alloc: Global) -> Result<RequestMessage, OutOfMemory> {
        Ok(RequestMessage(self.0.try_clone(alloc)?, self.1.try_clone(alloc)?))
    }
}

impl Item for RequestMessage {
    ghost shape = { request_message };

    ghost val = { request_message_val };

    fn fits(&self) {
        fits_record::<RequestMessageRows>(fields![&self.0, &self.1]);
    }

    ghost faithful = { request_message_same };
}

impl WriteItem for RequestMessage {
    fn wire_len(&self, _tag: Tag) -> Option<u64> {
        record_len::<RequestMessageRows>(fields![&self.0, &self.1])
    }

    fn write_into(&self, tag: Tag, out: &mut Buffer) {
        write_record::<RequestMessageRows>(fields![&self.0, &self.1], tag, out);
    }
}

impl ReadItem for RequestMessage {
    fn read(alloc: Global, outer: Outer<'_>, item: ItemRef<'_>) -> Result<Self, ReadError> {
        let fields![header, items] = read_record::<RequestMessageRows>(alloc, outer, item)?;
        Ok(RequestMessage(header, items))
    }
}

impl ReadRoot for RequestMessage {
    ghost root_tag = { tags.REQUEST_MESSAGE };

    fn root_tag() -> Tag {
        Tag::of(REQUEST_MESSAGE)
    }
}
