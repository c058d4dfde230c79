//! The call of a line.
ghost use Rattle.std.specs.Prelude.{◌≡◌, option_map, IfOk};
ghost use Rattle.kmip_joined.specs.Lines.{if_helper, line_call, helper_call};

use kmip_server::Call;
use kmip_wire::OutOfMemory;
use kmip_words::{Call as LineCall, call_alone};
use std::alloc::Global;

/// The call as that of a helper; `None` where no helper makes it.
fn helper_of(call: LineCall) -> Option<Call>
    ensures { option_map line_call result ≡ if_helper call }
{
    match call {
        LineCall::Query => Some(Call::Query),
        LineCall::CreateRsa {
            key_length,
            private_key_name,
            public_key_name,
        } => Some(Call::CreateRsaKeyPair(key_length, private_key_name, public_key_name)),
        LineCall::Rng { num_bytes } => Some(Call::RngRetrieve(num_bytes)),
        LineCall::Sign { id, bytes } => Some(Call::Sign(id, bytes)),
        LineCall::Activate { id } => Some(Call::ActivateKey(id)),
        LineCall::Revoke { id } => Some(Call::RevokeKey(id)),
        LineCall::Destroy { id } => Some(Call::DestroyKey(id)),
        LineCall::Rename { id, new_name } => Some(Call::RenameKey(id, new_name)),
        LineCall::Get { id } => Some(Call::GetKey(id)),
        LineCall::Raw { .. } | LineCall::Request { .. } => None,
    }
}

/// The call of a line. The grammar is that of a line with a recorded response, but without the
/// response, and without `raw`. `None` where the line is not of it.
#[tactic(auto, unfolding(crate::specs::Lines::helper_call))]
pub fn helper_call(alloc: Global, line: &[u8]) -> Result<Option<Call>, OutOfMemory>
    ensures { IfOk result (λ call. option_map line_call call ≡ helper_call line.now) }
{
    match call_alone(alloc, line)? {
        Some(call) => Ok(helper_of(call)),
        None => Ok(None),
    }
}
