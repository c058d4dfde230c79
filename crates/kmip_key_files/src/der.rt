//! DER that may be a key, in memory that is overwritten as it is freed.
ghost use Rattle.std.specs.Prelude.{◌≡◌, ◌++◌, length, replicate, IfOk};
ghost use Rattle.kmip_der.specs.Der.{element};

use kmip_der::push_element;
use std::alloc::{AllocError, Global};
use std::marker::Model;

/// DER that may be a key. It is overwritten with zeros as it is freed, and has no `Debug`.
pub struct Der {
    pub(crate) bytes: Vec<u8>,
}

impl Model for Der {
    ghost use Rattle.std.specs.Prelude.{ℕ, List};

    ghost Value = { List ℕ };

    ghost view = { λ der. der.bytes.items };
}

/// Overwrites each byte with zero.
#[inline(never)]
fn overwrite(bytes: &mut [u8])
    ensures { bytes.new ≡ replicate (length bytes.old) 0 }
{
    bytes.fill(0);
}

impl Drop for Der {
    fn drop(self) {
        let Der { mut bytes } = self;
        overwrite(bytes.as_mut_slice());
    }
}

impl Der {
    /// The bytes.
    pub fn as_slice(&self) -> &[u8]
        ensures { result.now ≡ self.now }
    {
        self.bytes.as_slice()
    }
}

/// Bytes, and others behind them. There is room for all from the start, so no copy stays behind.
pub(crate) fn joined(alloc: Global, first: &[u8], second: &[u8]) -> Result<Der, AllocError>
    ensures { IfOk result (λ der. der ≡ first.now ++ second.now) }
{
    let mut bytes = Vec::with_capacity(alloc, first.len().saturating_add(second.len()))?;
    bytes.extend_from_slice(first)?;
    bytes.extend_from_slice(second)?;
    Ok(Der { bytes })
}

/// An element. For contents of 2^32 bytes or more there is no memory.
pub(crate) fn element(alloc: Global, tag: u8, contents: &[u8]) -> Result<Der, AllocError>
    ensures { IfOk result (λ der. der ≡ element tag contents.now) }
{
    if contents.len() >= 4294967296 {
        return Err(AllocError);
    }
    let mut bytes = Vec::with_capacity(alloc, contents.len() + 6)?;
    push_element(&mut bytes, tag, contents)?;
    Ok(Der { bytes })
}
