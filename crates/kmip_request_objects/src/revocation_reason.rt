//! Why an object is revoked.

ghost use Rattle.std.specs.Prelude.{◌≡◌};
ghost use Rattle.kmip_request_objects.specs.Tables.{revocation_reason};
ghost use Rattle.kmip_request_objects.specs.Values.{revocation_reason_val};
ghost use Rattle.kmip_request_objects.specs.Same.{revocation_reason_same};

use kmip_enums::RevocationReasonCode;
use kmip_shape::record::{End, Row};
use kmip_shape::row_readers::{One, Opt};
use kmip_shape::{
    Item, Outer, ReadError, ReadItem, WriteItem, fields, fits_record, read_record, record_len,
    write_record,
};
use kmip_tags::tags::{REVOCATION_MESSAGE, REVOCATION_REASON_CODE};
use kmip_types::RevocationMessage;
use kmip_wire::{Buffer, ItemRef, OutOfMemory, Tag, TryClone, clone_optional};
use std::alloc::Global;

/// Why an object is revoked: KMIP 1.0, 3.26.
#[derive(PartialEq, Eq, Drop)]
pub struct RevocationReason(pub RevocationReasonCode, pub Option<RevocationMessage>);

type RevocationReasonRows = Row<
    One<RevocationReasonCode, REVOCATION_REASON_CODE>,
    Row<Opt<RevocationMessage, REVOCATION_MESSAGE>, End>,
>;

impl TryClone for RevocationReason {
    fn try_clone(&self, alloc: Global) -> Result<RevocationReason, OutOfMemory> {
        Ok(RevocationReason(self.0, clone_optional(&self.1, alloc)?))
    }
}

#[tactic(auto, unfolding(crate::specs::Tables::revocation_reason))]
impl Item for RevocationReason {
    ghost shape = { revocation_reason };

    ghost val = { revocation_reason_val };

    fn fits(&self) {
        fits_record::<RevocationReasonRows>(fields![&self.0, &self.1]);
    }

    ghost faithful = { revocation_reason_same };
}

#[tactic(auto, unfolding(crate::specs::Tables::revocation_reason))]
impl WriteItem for RevocationReason {
    fn wire_len(&self, _tag: Tag) -> Option<u64> {
        record_len::<RevocationReasonRows>(fields![&self.0, &self.1])
    }

    fn write_into(&self, tag: Tag, out: &mut Buffer) {
        write_record::<RevocationReasonRows>(fields![&self.0, &self.1], tag, out);
    }
}

#[tactic(auto, unfolding(crate::specs::Tables::revocation_reason))]
impl ReadItem for RevocationReason {
    fn read(alloc: Global, outer: Outer<'_>, item: ItemRef<'_>) -> Result<Self, ReadError> {
        let fields![code, message] = read_record::<RevocationReasonRows>(alloc, outer, item)?;
        Ok(RevocationReason(code, message))
    }
}
