//! The buffer that writers append to. To contracts it is its bytes and its spare room.
ghost use Rattle.std.specs.Prelude.{◌≡◌, ◌++◌, take, drop, ◌+◌, ◌≤◌, ◌<◌, ◌^◌, [], length};
ghost use Rattle.std.specs.Prelude.{replicate, OnOk, OnErr};
ghost use Rattle.std.specs.Int.{w32, w64, to_be_bytes};
ghost use Rattle.kmip_wire.specs.Kinds.{code_of};
ghost use Rattle.kmip_wire.specs.Head.{pads};
ghost use Rattle.kmip_wire.specs.Bytes.{head_bytes, item_bytes};
ghost use Rattle.kmip_wire.specs.Room.{Appends};

use crate::kind::Kind;
use crate::memory::{OutOfMemory, overwrite};
use crate::tag::Tag;
use crate::text::Blob;
use std::alloc::Global;
use std::marker::Model;

/// Bytes, and spare room for more.
#[derive(Drop)]
pub struct Buffer {
    /// The bytes, and after them the spare room, whose content means nothing.
    room: Vec<u8>,
    /// How many of them are bytes of the buffer.
    len: usize,
}

impl Model for Buffer {
    ghost use Rattle.std.specs.Prelude.{◌-◌, ◌≤◌, take, vec_len};
    ghost use Rattle.kmip_wire.specs.Room.{Room};

    ghost Value = { Room };

    ghost view = { λ b. record {
      bytes = take b.len b.room.items;
      spare = vec_len b.room - b.len;
    } };

    ghost invariant = { λ b. b.len ≤ vec_len b.room };
}

/// Overwrites the first `len` bytes with zeros.
fn overwrite_front(bytes: &mut [u8], len: usize)
    requires { len ≤ length bytes.old }
    ensures { bytes.new ≡ replicate len 0 ++ drop len bytes.old }
{
    overwrite(&mut bytes[..len]);
}

/// Overwrites the length in the head that begins at `at`.
fn put_length(bytes: &mut [u8], at: usize, len: u32)
    requires { at + 8 ≤ length bytes.old }
    ensures { bytes.new ≡
        take (at + 4) bytes.old ++ (to_be_bytes w32 len ++ drop (at + 8) bytes.old) }
{
    bytes[at + 4..at + 8].copy_from_slice(&len.to_be_bytes());
}

#[tactic(auto, using(std::proofs::lemmas::List::append_assoc))]
impl Buffer {
    /// No bytes and no room. It takes no memory.
    pub fn new(alloc: Global) -> Buffer
        ensures bytes { result.bytes ≡ [] }
        ensures spare { result.spare ≡ 0 }
    {
        Buffer {
            room: Vec::new(alloc),
            len: 0,
        }
    }

    /// How many more bytes fit before memory is asked for.
    pub fn spare(&self) -> usize
        ensures { result ≡ self.now.spare }
    {
        self.room.len() - self.len
    }

    /// Makes the spare room at least `more`. Where memory runs out, the buffer stays as it was.
    pub fn reserve(&mut self, more: usize) -> Result<(), OutOfMemory>
        ensures bytes { self.new.bytes ≡ self.old.bytes }
        ensures room { OnOk result (more ≤ self.new.spare) }
        ensures grows { self.old.spare ≤ self.new.spare }
        ensures refused { OnErr result (self.new ≡ self.old) }
    {
        if more <= self.spare() {
            return Ok(());
        }
        let Some(len) = self.len.checked_add(more) else {
            return Err(OutOfMemory);
        };
        match self.room.resize(len, 0) {
            Ok(()) => Ok(()),
            Err(_) => Err(OutOfMemory),
        }
    }

    /// Appends the bytes, for which there is room.
    #[inline(always)]
    pub fn put(&mut self, bytes: &[u8])
        requires { length bytes.now ≤ self.old.spare }
        ensures { Appends self.old self.new bytes.now (length bytes.now) }
    {
        let end = self.len + bytes.len();
        self.room[self.len..end].copy_from_slice(bytes);
        self.len = end;
    }

    /// The bytes in order.
    pub fn as_slice(&self) -> &[u8]
        ensures { result.now ≡ self.now.bytes }
    {
        &self.room[..self.len]
    }

    /// Removes all bytes. The room stays, and the old bytes stay in memory until others are written
    /// over them.
    pub fn clear(&mut self)
        ensures bytes { self.new.bytes ≡ [] }
        ensures room { length self.old.bytes + self.old.spare ≤ self.new.spare }
    {
        self.len = 0;
    }

    /// Removes all bytes and makes room for `room` of them, for the next message. It asks for
    /// memory only where its room is smaller. Where memory runs out, the buffer has no bytes and
    /// the room that it had.
    pub fn reset(&mut self, room: usize) -> Result<(), OutOfMemory>
        ensures bytes { self.new.bytes ≡ [] }
        ensures room { OnOk result (room ≤ self.new.spare) }
        ensures kept { length self.old.bytes + self.old.spare ≤ self.new.spare }
    {
        self.clear();
        self.reserve(room)
    }

    /// Overwrites the bytes with zeros and removes them. The room stays. Bytes that were in memory
    /// before an earlier `clear`, or before the buffer grew, are not overwritten.
    pub fn wipe(&mut self)
        ensures bytes { self.new.bytes ≡ [] }
        ensures room { length self.old.bytes + self.old.spare ≤ self.new.spare }
    {
        overwrite_front(self.room.as_mut_slice(), self.len);
        self.len = 0;
    }

    /// The bytes in order, with no copy made.
    pub fn into_blob(self) -> Blob
        ensures { result ≡ self.bytes }
    {
        let Buffer { mut room, len } = self;
        room.truncate(len);
        Blob::of_vec(room)
    }

    /// Appends the head of an item, 8 bytes.
    #[inline(always)]
    pub fn put_head(&mut self, tag: Tag, kind: Kind, len: u32)
        requires { 8 ≤ self.old.spare }
        ensures { Appends self.old self.new (head_bytes tag (code_of kind) len) 8 }
    {
        let tag = tag.number().to_be_bytes();
        let length = len.to_be_bytes();
        self.put(&[
            tag[1],
            tag[2],
            tag[3],
            kind.code(),
            length[0],
            length[1],
            length[2],
            length[3],
        ]);
    }

    /// How many bytes it has.
    pub fn len(&self) -> usize
        ensures { result ≡ length self.now.bytes }
    {
        self.len
    }

    /// Overwrites the length in the head that begins at `at`.
    pub(crate) fn set_length(&mut self, at: usize, len: u32)
        requires { at + 8 ≤ length self.old.bytes }
        ensures bytes { self.new.bytes ≡ take (at + 4) self.old.bytes ++
            (to_be_bytes w32 len ++ drop (at + 8) self.old.bytes) }
        ensures spare { self.new.spare ≡ self.old.spare }
    {
        put_length(self.room.as_mut_slice(), at, len);
    }

    /// Appends a whole item with a value of four bytes: head, value and four pads.
    #[tactic(auto, using(std::proofs::lemmas::List::append_assoc), unfolding(crate::specs::Bytes::item_bytes))]
    #[inline(always)]
    pub fn put_four(&mut self, tag: Tag, kind: Kind, value: u32)
        requires { 16 ≤ self.old.spare }
        ensures { Appends self.old self.new (item_bytes tag (code_of kind) (to_be_bytes w32 value))
            16 }
    {
        let tag = tag.number().to_be_bytes();
        let value = value.to_be_bytes();
        self.put(&[
            tag[1],
            tag[2],
            tag[3],
            kind.code(),
            0,
            0,
            0,
            4,
            value[0],
            value[1],
            value[2],
            value[3],
            0,
            0,
            0,
            0,
        ]);
    }

    /// Appends a whole item with a value of eight bytes: head and value.
    #[tactic(auto, using(std::proofs::lemmas::List::append_assoc), unfolding(crate::specs::Bytes::item_bytes))]
    #[inline(always)]
    pub fn put_eight(&mut self, tag: Tag, kind: Kind, value: u64)
        requires { 16 ≤ self.old.spare }
        ensures { Appends self.old self.new (item_bytes tag (code_of kind) (to_be_bytes w64 value))
            16 }
    {
        let tag = tag.number().to_be_bytes();
        let value = value.to_be_bytes();
        self.put(&[
            tag[1],
            tag[2],
            tag[3],
            kind.code(),
            0,
            0,
            0,
            8,
            value[0],
            value[1],
            value[2],
            value[3],
            value[4],
            value[5],
            value[6],
            value[7],
        ]);
    }

    /// Appends the pads of a value of `len` bytes: the fewest that reach a multiple of 8.
    fn put_pads(&mut self, len: usize)
        requires { pads len ≤ self.old.spare }
        ensures { Appends self.old self.new (replicate (pads len) 0) (pads len) }
    {
        self.put(&[0; 8][..(8 - len % 8) % 8]);
    }

    /// Appends a whole item: head, value and pads.
    #[tactic(auto, using(std::proofs::lemmas::List::append_assoc), unfolding(crate::specs::Bytes::item_bytes))]
    pub fn put_item(&mut self, tag: Tag, kind: Kind, value: &[u8])
        requires form { length value.now < 2 ^ 32 }
        requires room { 8 + length value.now + pads (length value.now) ≤ self.old.spare }
        ensures { Appends self.old self.new (item_bytes tag (code_of kind) value.now)
            (8 + length value.now + pads (length value.now)) }
    {
        self.put_head(tag, kind, value.len() as u32);
        self.put(value);
        self.put_pads(value.len());
    }
}
