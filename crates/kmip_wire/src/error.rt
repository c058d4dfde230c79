//! Why bytes were not written or read.
ghost use Rattle.std.specs.Prelude.{◌≡◌};

use crate::memory::OutOfMemory as NoMemory;

/// Why a tree was not written or read.
#[derive(Clone, Copy, Debug, PartialEq, Eq)]
pub enum WireError {
    /// The tree has no bytes: the length of an item reaches 2^32, or that of a Big Integer is no
    /// multiple of 8.
    NoForm,
    /// No front of the bytes is a well-formed item.
    Malformed,
    /// Memory ran out.
    OutOfMemory,
}

/// Why the head of a message is refused.
#[derive(Clone, Copy, Debug, PartialEq, Eq)]
pub enum HeadError {
    /// The type is not that of a Structure.
    NotStructure,
    /// The message would have `size` bytes, head included, which is more than `limit`.
    TooLong { size: u64, limit: u32 },
}

impl From<NoMemory> for WireError {
    ghost use Rattle.std.specs.Prelude.{◌≡◌};
    ghost use Rattle.kmip_wire.specs.declared.error.WireError.TheVariants.{OutOfMemory};

    ghost from_gives = { λ _ e. e ≡ OutOfMemory };

    fn from(_cause: NoMemory) -> WireError {
        WireError::OutOfMemory
    }
}
