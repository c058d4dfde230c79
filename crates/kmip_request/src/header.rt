//! The header of a request.

ghost use Rattle.std.specs.Prelude.{◌≡◌};
ghost use Rattle.kmip_request.specs.Tables.{protocol_version, request_header};
ghost use Rattle.kmip_request.specs.Values.{protocol_version_val, request_header_val};
ghost use Rattle.kmip_request.specs.Same.{protocol_version_same, request_header_same};

use crate::authentication::Authentication;
use crate::numbers::{BatchCount, MaximumResponseSize, ProtocolVersionMajor, ProtocolVersionMinor};
use kmip_shape::record::{End, Row};
use kmip_shape::row_readers::{One, Opt};
use kmip_shape::{
    Item, Outer, ReadError, ReadItem, WriteItem, fields, fits_record, read_record, record_len,
    write_record,
};
use kmip_tags::tags::{
    AUTHENTICATION, BATCH_COUNT, MAXIMUM_RESPONSE_SIZE, PROTOCOL_VERSION, PROTOCOL_VERSION_MAJOR,
    PROTOCOL_VERSION_MINOR,
};
use kmip_wire::{Buffer, ItemRef, OutOfMemory, Tag, TryClone, clone_optional};
use std::alloc::Global;

/// The version of KMIP of a request, major and minor: KMIP 1.0, 6.1.
#[derive(Clone, Copy, PartialEq, Eq, Drop)]
pub struct ProtocolVersion(pub ProtocolVersionMajor, pub ProtocolVersionMinor);

type ProtocolVersionRows = Row<
    One<ProtocolVersionMajor, PROTOCOL_VERSION_MAJOR>,
    Row<One<ProtocolVersionMinor, PROTOCOL_VERSION_MINOR>, End>,
>;

impl Item for ProtocolVersion {
    ghost shape = { protocol_version };

    ghost val = { protocol_version_val };

    fn fits(&self) {
        fits_record::<ProtocolVersionRows>(fields![&self.0, &self.1]);
    }

    ghost faithful = { protocol_version_same };
}

impl WriteItem for ProtocolVersion {
    fn wire_len(&self, _tag: Tag) -> Option<u64> {
        record_len::<ProtocolVersionRows>(fields![&self.0, &self.1])
    }

    fn write_into(&self, tag: Tag, out: &mut Buffer) {
        write_record::<ProtocolVersionRows>(fields![&self.0, &self.1], tag, out);
    }
}

impl ReadItem for ProtocolVersion {
    fn read(alloc: Global, outer: Outer<'_>, item: ItemRef<'_>) -> Result<Self, ReadError> {
        let fields![major, minor] = read_record::<ProtocolVersionRows>(alloc, outer, item)?;
        Ok(ProtocolVersion(major, minor))
    }
}

/// The header of a request: KMIP 1.0, 7.2.
#[derive(PartialEq, Eq, Drop)]
pub struct RequestHeader(
    pub ProtocolVersion,
    pub Option<MaximumResponseSize>,
    pub Option<Authentication>,
    pub BatchCount,
);

pub(crate) type RequestHeaderRows = Row<
    One<ProtocolVersion, PROTOCOL_VERSION>,
    Row<
        Opt<MaximumResponseSize, MAXIMUM_RESPONSE_SIZE>,
        Row<Opt<Authentication, AUTHENTICATION>, Row<One<BatchCount, BATCH_COUNT>, End>>,
    >,
>;

impl TryClone for RequestHeader {
    fn try_clone(&self, alloc: Global) -> Result<RequestHeader, OutOfMemory> {
        Ok(RequestHeader(self.0, self.1, clone_optional(&self.2, alloc)?, self.3))
    }
}

impl Item for RequestHeader {
    ghost shape = { request_header };

    ghost val = { request_header_val };

    fn fits(&self) {
        fits_record::<RequestHeaderRows>(fields![&self.0, &self.1, &self.2, &self.3]);
    }

    ghost faithful = { request_header_same };
}

impl WriteItem for RequestHeader {
    fn wire_len(&self, _tag: Tag) -> Option<u64> {
        record_len::<RequestHeaderRows>(fields![&self.0, &self.1, &self.2, &self.3])
    }

    fn write_into(&self, tag: Tag, out: &mut Buffer) {
        write_record::<RequestHeaderRows>(fields![&self.0, &self.1, &self.2, &self.3], tag, out);
    }
}

impl ReadItem for RequestHeader {
    fn read(alloc: Global, outer: Outer<'_>, item: ItemRef<'_>) -> Result<Self, ReadError> {
        let fields![version, maximum_response_size, authentication, batch_count] = read_record::<
            RequestHeaderRows,
        >(alloc, outer, item)?;
        Ok(RequestHeader(version, maximum_response_size, authentication, batch_count))
    }
}
