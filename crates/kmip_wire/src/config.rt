//! How a client reads messages, and the check of a message's head against the limit.
ghost use Rattle.std.specs.Prelude.{◌≡◌, Some, None, true, false};
ghost use Rattle.kmip_wire.specs.Heads.{head_says};

use crate::error::HeadError;
use crate::front::head_length;

/// How messages are read: the most bytes that one may have, head included, and whether the bytes
/// read are kept for diagnostics.
#[derive(Clone, Copy)]
pub struct Config {
    max_bytes: Option<u32>,
    has_buf: bool,
}

impl Config {
    /// No limit and no buffer.
    pub fn new() -> Config
        ensures max_bytes { result.max_bytes ≡ None }
        ensures has_buf { result.has_buf ≡ false }
    {
        Config {
            max_bytes: None,
            has_buf: false,
        }
    }

    /// The most bytes that a message may have, head included, if there is a limit.
    pub fn max_bytes(&self) -> Option<u32>
        ensures { result ≡ self.now.max_bytes }
    {
        self.max_bytes
    }

    /// Whether the bytes read are kept for diagnostics.
    pub fn has_buf(&self) -> bool
        ensures { result ≡ self.now.has_buf }
    {
        self.has_buf
    }

    /// The same with this limit, which replaces an earlier one.
    pub fn with_max_bytes(self, max_bytes: u32) -> Config
        ensures max_bytes { result.max_bytes ≡ Some max_bytes }
        ensures has_buf { result.has_buf ≡ self.has_buf }
    {
        Config {
            max_bytes: Some(max_bytes),
            has_buf: self.has_buf,
        }
    }

    /// The same with the buffer.
    pub fn with_read_buf(self) -> Config
        ensures max_bytes { result.max_bytes ≡ self.max_bytes }
        ensures has_buf { result.has_buf ≡ true }
    {
        Config {
            max_bytes: self.max_bytes,
            has_buf: true,
        }
    }
}

impl Default for Config {
    ghost is_default = { λ c. (c.max_bytes ≡ None) × (c.has_buf ≡ false) };

    fn default() -> Config {
        Config::new()
    }
}

/// The length in a message's head. It takes no memory.
///
/// `NotStructure` is returned exactly where the type is not that of a Structure, and `TooLong`
/// exactly where it is, a limit is set and the length plus 8 is greater.
#[tactic(auto, unfolding(crate::specs::Head::head_length))]
pub fn head(bytes: &[u8; 8], config: &Config) -> Result<u32, HeadError>
    ensures { result ≡ head_says bytes.now config.now.max_bytes }
{
    if bytes[3] != 1 {
        return Err(HeadError::NotStructure);
    }
    let length = head_length(bytes);
    let size = length as u64 + 8;
    match config.max_bytes {
        Some(limit) if size > limit as u64 => Err(HeadError::TooLong { size, limit }),
        _ => Ok(length),
    }
}
