//! The batch item of a response: the result of one operation.

ghost use Rattle.std.specs.Prelude.{◌≡◌};
ghost use Rattle.kmip_tags.specs.Tags as tags;
ghost use Rattle.kmip_response.specs.Tables.{batch_item};
ghost use Rattle.kmip_response.specs.Values.{batch_item_val};
ghost use Rattle.kmip_response.specs.Same.{batch_item_same};

use crate::extension::MessageExtension;
use crate::payload::ResponsePayload;
use kmip_enums::{Operation, ResultReason, ResultStatus};
use kmip_shape::record::{Choosing, End, Row};
use kmip_shape::row_readers::{ChosenOpt, One, Opt};
use kmip_shape::{
    Item, Outer, ReadError, ReadItem, ReadRoot, WriteItem, fields, fits_record, read_record,
    record_len, write_record,
};
use kmip_tags::tags::{
    BATCH_ITEM, MESSAGE_EXTENSION, OPERATION, RESPONSE_PAYLOAD, RESULT_MESSAGE, RESULT_REASON,
    RESULT_STATUS, UNIQUE_BATCH_ITEM_ID,
};
use kmip_types::UniqueBatchItemID;
use kmip_wire::{Buffer, ItemRef, OutOfMemory, Tag, Text, TryClone, clone_optional};
use std::alloc::Global;

/// The result of one operation: KMIP 1.0, 7.2.
#[derive(PartialEq, Eq, Drop)]
pub struct BatchItem {
    /// The operation whose result it is; absent where the server could not read it: KMIP 1.0, 6.2.
    pub operation: Option<Operation>,
    /// The identifier of the request's batch item, where that had one: KMIP 1.0, 6.4.
    pub unique_batch_item_id: Option<UniqueBatchItemID>,
    /// Whether the operation succeeded: KMIP 1.0, 6.9.
    pub result_status: ResultStatus,
    /// Why it failed: KMIP 1.0, 6.10.
    pub result_reason: Option<ResultReason>,
    /// The server's text about the result: KMIP 1.0, 6.11.
    pub result_message: Option<Text>,
    /// What the operation returned: KMIP 1.0, 4 and 7.2. `operation` selects its variant. A payload
    /// with no `operation` beside it, or without the fields of that operation, makes the whole
    /// message `Unread`.
    pub payload: Option<ResponsePayload>,
    /// A vendor's extension: KMIP 1.0, 6.16.
    pub message_extension: Option<MessageExtension>,
}

impl TryClone for BatchItem {
    fn try_clone(&self, alloc: Global) -> Result<BatchItem, OutOfMemory> {
        let unique_batch_item_id = clone_optional(&self.unique_batch_item_id, alloc)?;
        let result_message = clone_optional(&self.result_message, alloc)?;
        let message_extension = clone_optional(&self.message_extension, alloc)?;
        // last, so that no copy can fail once there is a copied payload to drop
        let payload = clone_optional(&self.payload, alloc)?;
        Ok(BatchItem {
            operation: self.operation,
            unique_batch_item_id,
            result_status: self.result_status,
            result_reason: self.result_reason,
            result_message,
            payload,
            message_extension,
        })
    }
}

impl Item for BatchItem {
    ghost shape = { batch_item };

    ghost val = { batch_item_val };

    fn fits(&self) {
        fits_record::<BatchItemRows<'_>>(fields![
            &self.operation,
            &self.unique_batch_item_id,
            &self.result_status,
            &self.result_reason,
            &self.result_message,
            &self.payload,
            &self.message_extension,
        ]);
    }

    ghost faithful = { batch_item_same };
}

impl WriteItem for BatchItem {
    fn wire_len(&self, _tag: Tag) -> Option<u64> {
        record_len::<BatchItemRows<'_>>(fields![
            &self.operation,
            &self.unique_batch_item_id,
            &self.result_status,
            &self.result_reason,
            &self.result_message,
            &self.payload,
            &self.message_extension
        ])
    }

    fn write_into(&self, tag: Tag, out: &mut Buffer) {
        write_record::<BatchItemRows<'_>>(
            fields![
                &self.operation,
                &self.unique_batch_item_id,
                &self.result_status,
                &self.result_reason,
                &self.result_message,
                &self.payload,
                &self.message_extension
            ],
            tag,
            out,
        );
    }
}

type BatchItemRows<'a> = Choosing<
    Opt<Operation, OPERATION>,
    Row<
        Opt<UniqueBatchItemID, UNIQUE_BATCH_ITEM_ID>,
        Row<
            One<ResultStatus, RESULT_STATUS>,
            Row<
                Opt<ResultReason, RESULT_REASON>,
                Row<
                    Opt<Text, RESULT_MESSAGE>,
                    Row<
                        ChosenOpt<'a, ResponsePayload, RESPONSE_PAYLOAD>,
                        Row<Opt<MessageExtension, MESSAGE_EXTENSION>, End>,
                    >,
                >,
            >,
        >,
    >,
>;

impl ReadItem for BatchItem {
    fn read(alloc: Global, outer: Outer<'_>, item: ItemRef<'_>) -> Result<Self, ReadError> {
        let fields![
            operation,
            unique_batch_item_id,
            result_status,
            result_reason,
            result_message,
            payload,
            message_extension,
        ] = read_record::<BatchItemRows<'_>>(alloc, outer, item)?;
        Ok(BatchItem {
            operation,
            unique_batch_item_id,
            result_status,
            result_reason,
            result_message,
            payload,
            message_extension,
        })
    }
}

impl ReadRoot for BatchItem {
    ghost root_tag = { tags.BATCH_ITEM };

    fn root_tag() -> Tag {
        Tag::of(BATCH_ITEM)
    }
}
