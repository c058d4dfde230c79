//! The room of a client's messages, which it keeps from call to call.
ghost use Rattle.std.specs.Prelude.{IfSome, IsSomeAnd, IsTrue};
ghost use Rattle.kmip_client.specs.Kept.{IsKept};

use kmip_wire::{Buffer, wipe};
use std::alloc::Global;

/// What is reserved for a response, in bytes: few are longer.
pub const FIRST_ROOM: usize = 256;

/// The most memory that is kept for requests, and for responses, in bytes.
const MOST_KEPT: usize = 65536;

/// The room of a call's messages.
#[derive(Drop)]
pub struct Room {
    /// The request.
    pub request: Buffer,
    /// What was taken of the response.
    pub taken: Vec<u8>,
}

/// Room for no bytes. It takes no memory.
fn empty(alloc: Global) -> Room
    ensures { IsKept result }
{
    Room {
        request: Buffer::new(alloc),
        taken: Vec::new(alloc),
    }
}

/// Makes the room of a call where none was kept. It takes no memory.
pub fn open(alloc: Global, kept: &mut Option<Room>)
    requires { IfSome kept.old IsKept }
    ensures { IsSomeAnd kept.new IsKept }
{
    if kept.is_none() {
        *kept = Some(empty(alloc));
    }
}

/// Writes zeros over the messages and removes them. Their memory stays; whether it is little enough
/// to be kept is returned.
fn wipe_both(room: &mut Room) -> bool
    ensures { IsTrue result → IsKept room.new }
{
    room.request.wipe();
    wipe(&mut room.taken);
    // a buffer has at most twice the memory of its room, since its vector doubles when it grows
    room.request.spare() <= MOST_KEPT / 2 && room.taken.capacity() <= MOST_KEPT
}

/// Writes zeros over the messages of a call, and keeps their room, unless it is very much.
pub fn close(kept: &mut Option<Room>)
    ensures { IfSome kept.new IsKept }
{
    let stays = match kept {
        Some(room) => wipe_both(room),
        None => true,
    };
    if !stays {
        *kept = None;
    }
}
