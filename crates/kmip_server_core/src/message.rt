//! The response messages of a server.

ghost use Rattle.kmip_server_core.specs.Answering.{IsWritten};
ghost use Rattle.kmip_server_core.specs.Items.{minor_of, message_with, failed_item};
ghost use Rattle.std.specs.Prelude.{◌≡◌};

use crate::items::failure_item;
use kmip_enums::{Operation, ResultReason};
use kmip_response::{BatchItem, ProtocolVersion, ResponseHeader, ResponseMessage};
use kmip_response_write::to_vec;
use kmip_shape::Item;
use kmip_wire::{Blob, List, WireError};
use std::alloc::Global;

/// The minor version of KMIP 1 that the response of an operation carries (KMIP 1.0, 6.1).
fn minor(operation: Option<Operation>) -> u8
    ensures { result ≡ minor_of operation }
{
    match operation {
        Some(Operation::Query | Operation::Sign | Operation::RNGRetrieve) => 2,
        Some(Operation::DiscoverVersions) => 1,
        _ => 0,
    }
}

/// What each response of a server is made with.
#[derive(Drop)]
pub struct Stamp {
    /// The allocator of the responses.
    pub alloc: Global,
    /// The time stamp, in seconds since 1970-01-01 00:00 UTC: KMIP 1.0, 6.5.
    pub time: i64,
}

impl Stamp {
    /// The bytes of the message with this one item. `NoForm` comes where it has no wire form;
    /// `Malformed` never comes.
    #[tactic(auto, using(crate::proofs::Writing::is_written))]
    pub fn write(&self, item: BatchItem) -> Result<Blob, WireError>
        ensures { IsWritten (message_with self.now.time item) result }
    {
        let minor = minor(item.operation);
        let mut batch_items = List::new(self.alloc);
        batch_items.push(item)?;
        let message = ResponseMessage {
            header: ResponseHeader {
                protocol_version: ProtocolVersion {
                    major: 1,
                    minor: i32::from(minor),
                },
                timestamp: self.time,
                batch_count: 1,
            },
            batch_items,
        };
        message.fits();
        to_vec(self.alloc, &message)
    }

    /// The bytes of the message that refuses a request.
    pub fn refuse(
        &self,
        operation: Option<Operation>,
        reason: ResultReason,
        text: &str,
    ) -> Result<Blob, WireError>
        ensures { IsWritten (message_with self.now.time
            (failed_item operation reason text.now)) result }
    {
        let item = failure_item(self.alloc, operation, reason, text)?;
        self.write(item)
    }
}
