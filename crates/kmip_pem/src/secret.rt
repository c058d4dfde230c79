//! Bytes that may be a key, in memory that is overwritten as it is freed.
ghost use Rattle.std.specs.Prelude.{◌≡◌, ◌++◌, ◌∷◌, [], length, replicate, vec_len, OnOk, IfOk};

use std::alloc::{AllocError, Global};
use std::marker::Model;

/// Bytes that may be a key. They are overwritten with zeros as they are freed, and have no `Debug`.
pub struct Secret {
    pub(crate) bytes: Vec<u8>,
}

impl Model for Secret {
    ghost use Rattle.std.specs.Prelude.{ℕ, List};

    ghost Value = { List ℕ };

    ghost view = { λ secret. secret.bytes.items };
}

/// Overwrites each byte with zero.
#[inline(never)]
fn overwrite(bytes: &mut [u8])
    ensures { bytes.new ≡ replicate (length bytes.old) 0 }
{
    bytes.fill(0);
}

impl Drop for Secret {
    fn drop(self) {
        let Secret { mut bytes } = self;
        overwrite(bytes.as_mut_slice());
    }
}

impl Secret {
    /// No bytes, with room for so many.
    pub(crate) fn with_room(alloc: Global, room: usize) -> Result<Secret, AllocError>
        ensures { IfOk result (λ secret. secret ≡ []) }
    {
        Ok(Secret {
            bytes: Vec::with_capacity(alloc, room)?,
        })
    }

    /// So many zeros.
    pub(crate) fn zeros(alloc: Global, count: usize) -> Result<Secret, AllocError>
        ensures { IfOk result (λ secret. secret ≡ replicate count 0) }
    {
        Ok(Secret {
            bytes: vec![in alloc; 0u8; count]?,
        })
    }

    /// Appends bytes, for which there is room.
    pub(crate) fn push_all(&mut self, bytes: &[u8]) -> Result<(), AllocError>
        ensures { OnOk result (self.new ≡ self.old ++ bytes.now) }
    {
        self.bytes.extend_from_slice(bytes)
    }

    /// The bytes.
    pub fn as_slice(&self) -> &[u8]
        ensures { result.now ≡ self.now }
    {
        self.bytes.as_slice()
    }
}
