//! One message off a link.
ghost use Rattle.std.specs.Prelude.{◌≡◌, ◌+◌, ◌*◌, ◌<◌, ◌≤◌, ◌++◌, ◌^◌, ℕ, [], length, take, drop};
ghost use Rattle.std.specs.Prelude.{IfOk, OnErr, OnOk, IsErrOf, IsTrue, vec_len, vec_capacity};
ghost use Rattle.std.specs.Prelude.{max};
ghost use Rattle.kmip_wire.specs.Heads.{head_says};
ghost use Rattle.kmip_link.specs.State.{Keeps, FaultCountRose, left};
ghost use Rattle.kmip_client.specs.Message.{ReadsMessage, IsRead};
ghost use Rattle.kmip_client.specs.MessageStop.{head_stop_of};

use crate::transfer::{ReadStop, read_more};
use kmip_link::Link;
use kmip_wire::{Config, HeadError, head};

/// Why no message was read.
#[derive(Clone, Copy, Debug, PartialEq, Eq)]
pub enum MessageStop {
    /// The bytes ended within the head or the contents.
    Ended,
    /// The head is not that of a structure, or announces more than the limit.
    Refused(HeadError),
    /// The link failed.
    Fault,
    /// Memory ran out; what was read until then is lost.
    OutOfMemory,
}

impl From<ReadStop> for MessageStop {
    ghost use Rattle.kmip_client.specs.declared.transfer.ReadStop.{ReadStop};
    ghost use Rattle.kmip_client.specs.MessageStop.{message_stop_of};

    ghost from_gives = { λ x e. e ≡ message_stop_of x };

    fn from(stop: ReadStop) -> Self {
        match stop {
            ReadStop::Ended => MessageStop::Ended,
            ReadStop::Fault => MessageStop::Fault,
            ReadStop::OutOfMemory => MessageStop::OutOfMemory,
        }
    }
}

/// How many bytes of contents the head says.
fn contents_len(bytes: &[u8], config: &Config) -> Result<u32, MessageStop>
    requires { length bytes.now ≡ 8 }
    ensures { result ≡ head_stop_of (head_says bytes.now config.now.max_bytes) }
{
    let Some(bytes) = bytes.first_chunk::<8>() else {
        unreachable!()
    };
    match head(bytes, config) {
        Ok(len) => Ok(len),
        Err(error) => Err(MessageStop::Refused(error)),
    }
}

/// Reads one message to the end of `taken`, which is empty: the head, then exactly the contents
/// that it says. Room is never taken for more than 65,536 bytes ahead of those that were read.
pub fn read_message<L: Link>(
    link: &mut L,
    config: &Config,
    taken: &mut Vec<u8>,
) -> Result<(), MessageStop>
    requires { taken.old.items ≡ [] }
    ensures keeps { Keeps (L.state link.old) (L.state link.new) }
    ensures reads { IsTrue (L.state link.old).tells →
        ReadsMessage (L.state link.old) (L.state link.new) config.now.max_bytes taken.new.items
        result }
    ensures read { IsRead config.now.max_bytes taken.new.items result }
    ensures fault { IsErrOf result MessageStop.Fault →
        FaultCountRose (L.state link.old).faults (L.state link.new).faults }
    ensures ahead { vec_capacity taken.new ≤
        max (vec_capacity taken.old) (vec_len taken.new + 65536) }
{
    read_more(link, 8, taken)?;
    let len = contents_len(taken, config)?;
    read_more(link, len as usize, taken)?;
    Ok(())
}
