//! Laws over the definitions, each the contract of a function that does nothing.

ghost use Rattle.std.specs.Prelude.{◌≡◌, ℤ, List, Option, Some};
ghost use Rattle.kmip_request_read.specs.Matched.{IsMatched};
ghost use Rattle.kmip_request_read.specs.Reading.{request_for};
ghost use Rattle.kmip_response_write.specs.Settled.{IsHeld, IsSettled};
ghost use Rattle.kmip_store.specs.declared.call.Call.{Call};
ghost use Rattle.kmip_store.specs.declared.maker.Made.{Made};
ghost use Rattle.kmip_store.specs.declared.object.Object.{Object};
ghost use Rattle.kmip_server_core.specs.Requests.{request_of, call_of};
ghost use Rattle.kmip_server_core.specs.Served.{served_call};

/// The request of a helper is matched, so its bytes are read back as it.
pub fn helper_is_matched()
    ensures { (call : Call) → IsMatched (request_of call) }
{}

/// From the request of a helper's call, `call_of` gives back just this call.
pub fn own_call()
    ensures { (call : Call) → call_of (request_for (request_of call)) ≡ Some call }
{}

/// The response to a helper's call is settled, so its bytes are read back as it. The premise
/// `IsHeld` holds of every message that Rust can hold.
pub fn served_is_settled()
    ensures { (objects : List Object) (call : Call) (made : Option Made) (time : ℤ) →
        IsHeld (served_call objects call made time).message →
        IsSettled (served_call objects call made time).message }
{}
