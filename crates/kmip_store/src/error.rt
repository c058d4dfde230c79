//! Why a call of the store was refused.

use crate::maker::MakerError;
use kmip_wire::OutOfMemory;
use std::alloc::AllocError;

/// Why a call of the store was refused. The objects are then as they were.
///
/// Memory aside, the first two come exactly where the step of the object map has them.
#[derive(Clone, Copy, Debug, PartialEq, Eq, Drop)]
pub enum StoreError {
    /// No object has the identifier; the maker was not asked.
    ItemNotFound,
    /// The object's state, or its type, does not allow the call; the maker was not asked.
    PermissionDenied,
    /// The maker refused. Its count of faults rose, or stands at `u64::MAX`.
    CryptographicFailure,
    /// Out of memory, in the store or in the maker; a maker that tells was asked nothing.
    OutOfMemory,
}

impl From<MakerError> for StoreError {
    ghost use Rattle.std.specs.Prelude.{◌≡◌};
    ghost use Rattle.kmip_store.specs.Errors.{store_error};

    ghost from_gives = { λ e f. f ≡ store_error e };

    fn from(error: MakerError) -> Self {
        match error {
            MakerError::Fault => StoreError::CryptographicFailure,
            MakerError::OutOfMemory => StoreError::OutOfMemory,
        }
    }
}

impl From<OutOfMemory> for StoreError {
    ghost use Rattle.std.specs.Prelude.{◌≡◌};
    ghost use Rattle.kmip_store.specs.declared.error.StoreError.{StoreError};

    ghost from_gives = { λ _ e. e ≡ StoreError.OutOfMemory };

    fn from(_: OutOfMemory) -> Self {
        StoreError::OutOfMemory
    }
}

impl From<AllocError> for StoreError {
    ghost use Rattle.std.specs.Prelude.{◌≡◌};
    ghost use Rattle.kmip_store.specs.declared.error.StoreError.{StoreError};

    ghost from_gives = { λ _ e. e ≡ StoreError.OutOfMemory };

    fn from(_: AllocError) -> Self {
        StoreError::OutOfMemory
    }
}
