//! Loops over the calls of a link: all of a request, and so many bytes of a response.
ghost use Rattle.std.specs.Prelude.{◌≡◌, ◌+◌, ◌-◌, ◌<◌, ◌≤◌, ◌++◌, [], ℕ, length, take, drop, min};
ghost use Rattle.std.specs.Prelude.{IfOk, IfErr, OnErr, OnOk, IsErrOf, IsTrue, Some, vec_len, max};
ghost use Rattle.std.specs.Prelude.{vec_capacity};
ghost use Rattle.kmip_link.specs.State.{Keeps, Writes, FaultCountRose, left};
ghost use Rattle.kmip_client.specs.Transfer.{WritesPart, Takes, TakesPart};
ghost use Rattle.kmip_client.specs.Outcome.{FailsWriting};

use kmip_link::{Link, LinkError};
use std::alloc::AllocError;
use std::mem::replace;

/// The most room that one read is offered.
const MAX_PIECE: usize = 65536;

/// Why fewer bytes were read than were wanted.
#[derive(Clone, Copy, Debug, PartialEq, Eq)]
pub enum ReadStop {
    /// The link gave nothing.
    Ended,
    /// The link failed.
    Fault,
    /// Memory ran out; what was read until then is lost.
    OutOfMemory,
}

impl From<AllocError> for ReadStop {
    ghost use Rattle.kmip_client.specs.declared.transfer.ReadStop.{ReadStop};

    ghost from_gives = { λ _ e. e ≡ ReadStop.OutOfMemory };

    fn from(_: AllocError) -> Self {
        ReadStop::OutOfMemory
    }
}

impl From<LinkError> for ReadStop {
    ghost use Rattle.kmip_client.specs.Transfer.{stop_of};

    ghost from_gives = { λ x e. e ≡ stop_of x };

    fn from(error: LinkError) -> Self {
        match error {
            LinkError::Fault => ReadStop::Fault,
            LinkError::OutOfMemory => ReadStop::OutOfMemory,
        }
    }
}

/// Writes all the bytes. Each write is offered the whole rest of them.
pub fn write_all<L: Link>(link: &mut L, bytes: &[u8]) -> Result<(), LinkError>
    ensures keeps { Keeps (L.state link.old) (L.state link.new) }
    ensures ok { OnOk result (IsTrue (L.state link.old).tells →
        Writes (L.state link.old) (L.state link.new) bytes.now) }
    ensures err { OnErr result (IsTrue (L.state link.old).tells →
        WritesPart (L.state link.old) (L.state link.new) bytes.now) }
    ensures cause { IsErrOf result LinkError.Fault →
        FaultCountRose (L.state link.old).faults (L.state link.new).faults }
    ensures failing { IsErrOf result LinkError.Fault → IsTrue (L.state link.old).tells →
        FailsWriting L.state (Some bytes.now) link.old link.new }
{
    let mut done = 0;
    while done < bytes.len() {
        done += link.write(&bytes[done..])?;
    }
    Ok(())
}

/// The bytes, and zeros after them up to this length, for which there is room. The vector is passed
/// by value, so that its parts stand in registers and the loop becomes a fill of memory.
fn fill_up(mut bytes: Vec<u8>, end: usize) -> Vec<u8>
    requires within { vec_len bytes ≤ end }
    requires room { end ≤ vec_capacity bytes }
    ensures kept { take (length bytes.items) result.items ≡ bytes.items }
    ensures len { vec_len result ≡ end }
    ensures capacity { vec_capacity result ≡ vec_capacity bytes }
{
    while bytes.len() < end {
        bytes.push_reserved(0);
    }
    bytes
}

/// Makes `taken` longer by `room` bytes that mean nothing. No more room is taken than for these.
fn lengthen(taken: &mut Vec<u8>, room: usize) -> Result<(), AllocError>
    ensures kept { take (length taken.old.items) taken.new.items ≡ taken.old.items }
    ensures ok { OnOk result (vec_len taken.new ≡ vec_len taken.old + room) }
    ensures err { OnErr result (taken.new.items ≡ taken.old.items) }
    ensures capacity { vec_capacity taken.new ≤
        max (vec_capacity taken.old) (vec_len taken.old + room) }
{
    taken.reserve_exact(room)?;
    let end = taken.len() + room;
    let none = Vec::new(*taken.allocator());
    *taken = fill_up(replace(taken, none), end);
    Ok(())
}

/// Reads at most `room` bytes into their place, at the end of `taken`.
fn read_piece<L: Link>(link: &mut L, room: usize, taken: &mut Vec<u8>) -> Result<usize, ReadStop>
    requires some { 0 < room }
    requires small { room ≤ 65536 }
    ensures keeps { Keeps (L.state link.old) (L.state link.new) }
    ensures some { IfOk result (λ n. (0 < n) × (n ≤ room) ×
        (vec_len taken.new ≡ vec_len taken.old + n)) }
    ensures ok { IfOk result (λ n. IsTrue (L.state link.old).tells →
        Takes (L.state link.old) (L.state link.new) n
        × (taken.new.items ≡ taken.old.items ++ take n (left (L.state link.old)))) }
    ensures ended { IsErrOf result ReadStop.Ended → IsTrue (L.state link.old).tells →
        (left (L.state link.old) ≡ []) × Takes (L.state link.old) (L.state link.new) 0 }
    ensures fault { IsErrOf result ReadStop.Fault →
        FaultCountRose (L.state link.old).faults (L.state link.new).faults }
    ensures idle { IsErrOf result ReadStop.Fault → IsTrue (L.state link.old).tells →
        Takes (L.state link.old) (L.state link.new) 0 }
    ensures err { OnErr result (taken.new.items ≡ taken.old.items) }
    ensures kept { take (length taken.old.items) taken.new.items ≡ taken.old.items }
    ensures part { IsTrue (L.state link.old).tells →
        TakesPart (L.state link.old) (L.state link.new) room }
    ensures ahead { vec_capacity taken.new ≤
        max (vec_capacity taken.old) (vec_len taken.old + room) }
{
    let len = taken.len();
    lengthen(taken, room)?;
    match link.read(&mut taken[len..]) {
        Ok(got) => {
            taken.truncate(len + got);
            if got == 0 {
                return Err(ReadStop::Ended);
            }
            Ok(got)
        }
        Err(error) => {
            taken.truncate(len);
            Err(ReadStop::from(error))
        }
    }
}

/// Reads `count` bytes to the end of `taken`, in pieces of at most 65,536. Room is taken piece by
/// piece, so that it is never for more than one piece ahead of the bytes that were read.
#[inline(always)]
pub fn read_more<L: Link>(link: &mut L, count: usize, taken: &mut Vec<u8>) -> Result<(), ReadStop>
    ensures keeps { Keeps (L.state link.old) (L.state link.new) }
    ensures kept { take (length taken.old.items) taken.new.items ≡ taken.old.items }
    ensures grown { OnOk result (vec_len taken.new ≡ vec_len taken.old + count) }
    ensures ok { OnOk result (IsTrue (L.state link.old).tells →
        Takes (L.state link.old) (L.state link.new) count
        × (taken.new.items ≡ taken.old.items ++ take count (left (L.state link.old)))) }
    ensures ended { IsErrOf result ReadStop.Ended → IsTrue (L.state link.old).tells →
        (length (left (L.state link.old)) < count)
        × Takes (L.state link.old) (L.state link.new) (length (left (L.state link.old)))
        × (taken.new.items ≡ taken.old.items ++ left (L.state link.old)) }
    ensures fault { IsErrOf result ReadStop.Fault →
        FaultCountRose (L.state link.old).faults (L.state link.new).faults }
    ensures broken { IsErrOf result ReadStop.Fault → IsTrue (L.state link.old).tells →
        (n : ℕ) × (n < count) × Takes (L.state link.old) (L.state link.new) n
        × (taken.new.items ≡ taken.old.items ++ take n (left (L.state link.old))) }
    ensures part { IsTrue (L.state link.old).tells →
        TakesPart (L.state link.old) (L.state link.new) count }
    ensures ahead { vec_capacity taken.new ≤
        max (vec_capacity taken.old) (vec_len taken.new + 65536) }
{
    let mut done = 0;
    while done < count {
        let room = (count - done).min(MAX_PIECE);
        done += read_piece(link, room, taken)?;
    }
    Ok(())
}
