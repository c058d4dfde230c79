//! The frames of a stream of bytes, and what follows them.
ghost use Rattle.std.specs.Prelude.{◌≡◌, ◌≤◌, Some, option_map, length, drop};
ghost use Rattle.kmip_audit.specs.Frames.{front_frame, after_frame};

use kmip_wire::{Config, head};

/// The frame at the front: the head of a structure and as many bytes as it says (KMIP 1.0, 9.1.1).
pub fn front_frame(bytes: &[u8]) -> Option<&[u8]>
    ensures { option_map (λ frame. frame.now) result ≡ front_frame bytes.now }
{
    let Some(first) = bytes.first_chunk::<8>() else {
        return None;
    };
    let Ok(len) = head(first, &Config::new()) else {
        return None;
    };
    let size = len as usize + 8;
    if bytes.len() < size {
        return None;
    }
    Some(&bytes[..size])
}

/// The bytes without the first `size`.
fn rest_from(bytes: &[u8], size: usize) -> &[u8]
    requires { size ≤ length bytes.now }
    ensures { result.now ≡ drop size bytes.now }
{
    &bytes[size..]
}

/// The bytes after the frame at the front; all bytes where there is none.
pub fn after_frame<'a>(bytes: &'a [u8], frame: Option<&[u8]>) -> &'a [u8]
    requires { option_map (λ frame. frame.now) frame ≡ front_frame bytes.now }
    ensures { result.now ≡ after_frame bytes.now (option_map (λ frame. frame.now) frame.entry) }
{
    match frame {
        Some(frame) => rest_from(bytes, frame.len()),
        None => bytes,
    }
}
