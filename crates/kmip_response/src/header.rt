//! The header of a response.

ghost use Rattle.std.specs.Prelude.{◌≡◌};
ghost use Rattle.kmip_tags.specs.Tags as tags;
ghost use Rattle.kmip_response.specs.Tables.{protocol_version, response_header};
ghost use Rattle.kmip_response.specs.Values.{protocol_version_val, response_header_val};
ghost use Rattle.kmip_response.specs.Same.{protocol_version_same, response_header_same};

use kmip_shape::record::{End, Row};
use kmip_shape::row_readers::One;
use kmip_shape::{
    Item, Outer, ReadError, ReadItem, ReadRoot, ShowItem, TextWriter, Timestamp, WriteItem, fields,
    fits_record, read_record, record_len, show_record, write_record,
};
use kmip_tags::tags::{
    BATCH_COUNT, PROTOCOL_VERSION, PROTOCOL_VERSION_MAJOR, PROTOCOL_VERSION_MINOR, RESPONSE_HEADER,
    TIME_STAMP,
};
use kmip_wire::{Buffer, ItemRef, Tag};
use std::alloc::Global;

/// A version of KMIP: KMIP 1.0, 6.1.
#[derive(Clone, Copy, PartialEq, Eq, Drop)]
pub struct ProtocolVersion {
    /// The number before the point.
    pub major: i32,
    /// The number after the point.
    pub minor: i32,
}

type ProtocolVersionRows = Row<
    One<i32, PROTOCOL_VERSION_MAJOR>,
    Row<One<i32, PROTOCOL_VERSION_MINOR>, End>,
>;

impl Item for ProtocolVersion {
    ghost shape = { protocol_version };

    ghost val = { protocol_version_val };

    fn fits(&self) {
        fits_record::<ProtocolVersionRows>(fields![&self.major, &self.minor]);
    }

    ghost faithful = { protocol_version_same };
}

impl WriteItem for ProtocolVersion {
    fn wire_len(&self, _tag: Tag) -> Option<u64> {
        record_len::<ProtocolVersionRows>(fields![&self.major, &self.minor])
    }

    fn write_into(&self, tag: Tag, out: &mut Buffer) {
        write_record::<ProtocolVersionRows>(fields![&self.major, &self.minor], tag, out);
    }
}

impl ReadItem for ProtocolVersion {
    fn read(alloc: Global, outer: Outer<'_>, item: ItemRef<'_>) -> Result<Self, ReadError> {
        let fields![major, minor] = read_record::<ProtocolVersionRows>(alloc, outer, item)?;
        Ok(ProtocolVersion { major, minor })
    }
}

impl ShowItem for ProtocolVersion {
    fn show_into(&self, out: &mut TextWriter) {
        show_record::<ProtocolVersionRows>(
            fields![&self.major, &self.minor],
            fields!["major", "minor"],
            out,
        );
    }
}

impl ReadRoot for ProtocolVersion {
    ghost root_tag = { tags.PROTOCOL_VERSION };

    fn root_tag() -> Tag {
        Tag::of(PROTOCOL_VERSION)
    }
}

/// The header of a response: KMIP 1.0, 7.2.
#[derive(Clone, Copy, PartialEq, Eq, Drop)]
pub struct ResponseHeader {
    /// The version that the response is written in: KMIP 1.0, 6.1.
    pub protocol_version: ProtocolVersion,
    /// When the response was made, in seconds since 1970-01-01 00:00 UTC: KMIP 1.0, 6.5.
    pub timestamp: i64,
    /// The number of batch items that the header states: KMIP 1.0, 6.14. Neither reading nor
    /// writing compares it with their number.
    pub batch_count: i32,
}

type ResponseHeaderRows = Row<
    One<ProtocolVersion, PROTOCOL_VERSION>,
    Row<One<Timestamp, TIME_STAMP>, Row<One<i32, BATCH_COUNT>, End>>,
>;

impl Item for ResponseHeader {
    ghost shape = { response_header };

    ghost val = { response_header_val };

    fn fits(&self) {
        let timestamp = Timestamp(self.timestamp);
        fits_record::<ResponseHeaderRows>(fields![
            &self.protocol_version,
            &timestamp,
            &self.batch_count,
        ]);
    }

    ghost faithful = { response_header_same };
}

impl WriteItem for ResponseHeader {
    fn wire_len(&self, _tag: Tag) -> Option<u64> {
        let timestamp = Timestamp(self.timestamp);
        record_len::<ResponseHeaderRows>(fields![
            &self.protocol_version,
            &timestamp,
            &self.batch_count
        ])
    }

    fn write_into(&self, tag: Tag, out: &mut Buffer) {
        let timestamp = Timestamp(self.timestamp);
        write_record::<ResponseHeaderRows>(
            fields![&self.protocol_version, &timestamp, &self.batch_count],
            tag,
            out,
        );
    }
}

impl ReadItem for ResponseHeader {
    fn read(alloc: Global, outer: Outer<'_>, item: ItemRef<'_>) -> Result<Self, ReadError> {
        let fields![protocol_version, timestamp, batch_count] = read_record::<ResponseHeaderRows>(
            alloc, outer, item,
        )?;
        Ok(ResponseHeader {
            protocol_version,
            timestamp: timestamp.0,
            batch_count,
        })
    }
}

impl ReadRoot for ResponseHeader {
    ghost root_tag = { tags.RESPONSE_HEADER };

    fn root_tag() -> Tag {
        Tag::of(RESPONSE_HEADER)
    }
}
