//! What a server reports of itself: the items of the payload of Query, and the payload of Discover
//! Versions.

ghost use Rattle.std.specs.Prelude.{◌≡◌};
ghost use Rattle.kmip_tags.specs.Tags as tags;
ghost use Rattle.kmip_response.specs.Tables.{query_payload, discover_versions_payload};
ghost use Rattle.kmip_response.specs.Values.{query_payload_val, discover_versions_payload_val};
ghost use Rattle.kmip_response.specs.Same.{query_payload_same, discover_versions_payload_same};

use crate::header::ProtocolVersion;
use crate::payloads::query::QueryResponsePayload;
use kmip_enums::{ObjectType, Operation};
use kmip_shape::record::{End, Row};
use kmip_shape::row_readers::{Opt, OptMany};
use kmip_shape::{
    Item, Outer, ReadError, ReadItem, ReadRoot, ShowItem, TextWriter, WriteItem,
    copy_optional_list, fields, fits_record, read_record, record_len, show_record, write_record,
};
use kmip_tags::tags::{
    OBJECT_TYPE, OPERATION, PROTOCOL_VERSION, RESPONSE_PAYLOAD, VENDOR_IDENTIFICATION,
};
use kmip_wire::{Buffer, ItemRef, List, OutOfMemory, Tag, Text, TryClone, clone_optional};
use std::alloc::Global;

type QueryResponsePayloadRows = Row<
    OptMany<Operation, OPERATION>,
    Row<OptMany<ObjectType, OBJECT_TYPE>, Row<Opt<Text, VENDOR_IDENTIFICATION>, End>>,
>;

impl TryClone for QueryResponsePayload {
    fn try_clone(&self, alloc: Global) -> Result<QueryResponsePayload, OutOfMemory> {
        Ok(QueryResponsePayload {
            operations: copy_optional_list(&self.operations, alloc)?,
            object_types: copy_optional_list(&self.object_types, alloc)?,
            vendor_identification: clone_optional(&self.vendor_identification, alloc)?,
            server_information: None,
        })
    }
}

impl Item for QueryResponsePayload {
    ghost shape = { query_payload };

    ghost val = { query_payload_val };

    fn fits(&self) {
        fits_record::<QueryResponsePayloadRows>(fields![
            &self.operations,
            &self.object_types,
            &self.vendor_identification
        ]);
    }

    ghost faithful = { query_payload_same };
}

impl WriteItem for QueryResponsePayload {
    fn wire_len(&self, _tag: Tag) -> Option<u64> {
        record_len::<QueryResponsePayloadRows>(fields![
            &self.operations,
            &self.object_types,
            &self.vendor_identification
        ])
    }

    fn write_into(&self, tag: Tag, out: &mut Buffer) {
        write_record::<QueryResponsePayloadRows>(
            fields![
                &self.operations,
                &self.object_types,
                &self.vendor_identification
            ],
            tag,
            out,
        );
    }
}

impl ReadItem for QueryResponsePayload {
    fn read(alloc: Global, outer: Outer<'_>, item: ItemRef<'_>) -> Result<Self, ReadError> {
        let fields![operations, object_types, vendor_identification] = read_record::<
            QueryResponsePayloadRows,
        >(alloc, outer, item)?;
        Ok(QueryResponsePayload {
            operations,
            object_types,
            vendor_identification,
            server_information: None,
        })
    }
}

impl ReadRoot for QueryResponsePayload {
    ghost root_tag = { tags.RESPONSE_PAYLOAD };

    fn root_tag() -> Tag {
        Tag::of(RESPONSE_PAYLOAD)
    }
}

impl ShowItem for QueryResponsePayload {
    fn show_into(&self, out: &mut TextWriter) {
        show_record::<QueryResponsePayloadRows>(
            fields![
                &self.operations,
                &self.object_types,
                &self.vendor_identification
            ],
            fields!["operations", "object_types", "vendor_identification"],
            out,
        );
    }
}

/// The response payload of Discover Versions: KMIP 1.1, 4.26.
#[derive(PartialEq, Eq, Drop)]
pub struct DiscoverVersionsResponsePayload {
    /// The versions that the server supports, of those that the request lists where it lists any:
    /// the one that the server prefers first.
    pub supported_versions: Option<List<ProtocolVersion>>,
}

type DiscoverVersionsResponsePayloadRows = Row<OptMany<ProtocolVersion, PROTOCOL_VERSION>, End>;

impl TryClone for DiscoverVersionsResponsePayload {
    fn try_clone(&self, alloc: Global) -> Result<DiscoverVersionsResponsePayload, OutOfMemory> {
        Ok(DiscoverVersionsResponsePayload {
            supported_versions: copy_optional_list(&self.supported_versions, alloc)?,
        })
    }
}

impl Item for DiscoverVersionsResponsePayload {
    ghost shape = { discover_versions_payload };

    ghost val = { discover_versions_payload_val };

    fn fits(&self) {
        fits_record::<DiscoverVersionsResponsePayloadRows>(fields![&self.supported_versions]);
    }

    ghost faithful = { discover_versions_payload_same };
}

impl WriteItem for DiscoverVersionsResponsePayload {
    fn wire_len(&self, _tag: Tag) -> Option<u64> {
        record_len::<DiscoverVersionsResponsePayloadRows>(fields![&self.supported_versions])
    }

    fn write_into(&self, tag: Tag, out: &mut Buffer) {
        write_record::<DiscoverVersionsResponsePayloadRows>(
            fields![&self.supported_versions],
            tag,
            out,
        );
    }
}

impl ReadItem for DiscoverVersionsResponsePayload {
    fn read(alloc: Global, outer: Outer<'_>, item: ItemRef<'_>) -> Result<Self, ReadError> {
        let fields![supported_versions] = read_record::<DiscoverVersionsResponsePayloadRows>(
            alloc, outer, item,
        )?;
        Ok(DiscoverVersionsResponsePayload { supported_versions })
    }
}

impl ReadRoot for DiscoverVersionsResponsePayload {
    ghost root_tag = { tags.RESPONSE_PAYLOAD };

    fn root_tag() -> Tag {
        Tag::of(RESPONSE_PAYLOAD)
    }
}

impl ShowItem for DiscoverVersionsResponsePayload {
    fn show_into(&self, out: &mut TextWriter) {
        show_record::<DiscoverVersionsResponsePayloadRows>(
            fields![&self.supported_versions],
            fields!["supported_versions"],
            out,
        );
    }
}
