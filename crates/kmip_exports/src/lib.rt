//! What exported functions give a caller that nothing checks, in C or JavaScript: bytes in the room
//! that the caller has, with their number, and a number below zero where there are none.
#![tactic(auto)]

ghost use Rattle.std.specs.Prelude.{◌≡◌, pos, length};
ghost use Rattle.kmip_exports.specs.Exports.{room_with};

/// The code of bytes at whose front no message, or no item, stands: -3.
pub const NOT_A_MESSAGE: i64 = -3;

/// The code of a call for which memory ran out: -5.
pub const NO_MEMORY: i64 = -5;

/// Copies the bytes to the front of the room where all of them fit, and returns how many they are,
/// as `snprintf` does. Where they don't fit, the room stays as it was.
pub fn copy_out(bytes: &[u8], room: &mut [u8]) -> i64
    ensures len { result ≡ pos (length bytes.now) }
    ensures room { room.new ≡ room_with bytes.now room.old }
{
    if bytes.len() <= room.len() {
        room[..bytes.len()].copy_from_slice(bytes);
    }
    bytes.len() as i64
}
