//! The payload of Query.
//!
//! It has a file of its own, since a struct with an invariant depends on all that its file imports.

ghost use Rattle.kmip_response.specs.Skipped.{IsSkipped, IsSkipped-prop};

use kmip_enums::{ObjectType, Operation};
use kmip_wire::{List, Text};

/// The Server Information of a response (KMIP 1.0, 4.24), which is skipped in reading and not
/// written.
#[derive(Clone, Copy, PartialEq, Eq, Default, Drop)]
pub struct ServerInformation;

/// The response payload of Query: KMIP 1.0, 4.24.
#[derive(PartialEq, Eq, Drop)]
pub struct QueryResponsePayload {
    /// The operations that the server supports, where that was asked for.
    pub operations: Option<List<Operation>>,
    /// The types of objects that the server supports, where that was asked for.
    pub object_types: Option<List<ObjectType>>,
    /// A text that identifies the server's vendor, where Server Information was asked for.
    pub vendor_identification: Option<Text>,
    /// Always `None`.
    pub server_information: Option<ServerInformation>,
    ghost skipped: { IsSkipped server_information } by { IsSkipped-prop server_information },
}
