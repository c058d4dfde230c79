//! The message that a write is in.
ghost use Rattle.std.specs.Prelude.{◌≡◌, ◌≤◌, IfOk, IsTrue, OnOk, OnErr, ◌++◌, length};
ghost use Rattle.kmip_wire.specs.Head.{head_length};
ghost use Rattle.kmip_server.specs.Split.{is_message, CutsMessage};

use std::alloc::{AllocError, Global};

/// Whether bytes are a head and as many more as its length says.
#[tactic(auto, unfolding(crate::specs::Split::is_message))]
pub fn is_message(b: &[u8]) -> bool
    ensures { result ≡ is_message b.now }
{
    b.len() >= 8 && b.len() as u64 == 8 + head_length(b) as u64
}

/// The length in a head, in bytes (KMIP 1.0, 9.1.1).
fn head_length(b: &[u8]) -> u32
    requires { 8 ≤ length b.now }
    ensures { result ≡ head_length b.now }
{
    u32::from_be_bytes([b[4], b[5], b[6], b[7]])
}

/// The begun message with the next bytes, up to its end; and whether that was reached.
pub fn cut_message(alloc: Global, begun: &[u8], bytes: &[u8]) -> Result<(Vec<u8>, bool), AllocError>
    ensures { IfOk result (λ r. CutsMessage begun.now bytes.now r.0.items r.1) }
{
    let mut message = begun.to_vec(alloc)?;
    for byte in bytes {
        message.push(*byte)?;
        if is_message(&message) {
            return Ok((message, true));
        }
    }
    Ok((message, false))
}

/// Adds the response to the one and the bytes to the other; where memory runs out, to none.
pub fn grow_both(
    ever: &mut Vec<u8>,
    response: &[u8],
    sent: &mut Vec<u8>,
    bytes: &[u8],
) -> Result<(), AllocError>
    ensures ever { OnOk result (ever.new.items ≡ ever.old.items ++ response.now) }
    ensures sent { OnOk result (sent.new.items ≡ sent.old.items ++ bytes.now) }
    ensures err { OnErr result ((ever.new.items ≡ ever.old.items)
        × (sent.new.items ≡ sent.old.items)) }
{
    let before = ever.len();
    ever.extend_from_slice(response)?;
    match sent.extend_from_slice(bytes) {
        Ok(()) => Ok(()),
        Err(error) => {
            ever.truncate(before);
            Err(error)
        }
    }
}
