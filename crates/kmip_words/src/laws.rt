//! Laws over the definitions. Each function does nothing: its clause is the law.
ghost use Rattle.std.specs.Prelude.{◌≡◌, ℕ, List, [], ◌∷◌, Some, None, Ok, Err, IsSome, codes};
ghost use Rattle.hex.specs.Hex.{IsBytes, encode_upper};
ghost use Rattle.kmip_shape.specs.Val.{Val};
ghost use Rattle.kmip_shape.specs.Fits.{Fits};
ghost use Rattle.kmip_request.specs.declared.payload.RequestPayload.{RequestPayload};
ghost use Rattle.kmip_request.specs.Message.{request_bytes};
ghost use Rattle.kmip_request.specs.Fits.{FitsRequest};
ghost use Rattle.kmip_request_read.specs.Matched.{IsMatched};
ghost use Rattle.kmip_response.specs.Tables.{response_payload};
ghost use Rattle.kmip_client.specs.Client.{IsOfOperation};
ghost use Rattle.kmip_client.specs.declared.error.Error.{Error as TheError};
ghost use Rattle.kmip_words.specs.Calls.{call_in};
ghost use Rattle.kmip_words.specs.Exchange.{Settings as TheSettings, request_asked};
ghost use Rattle.kmip_words.specs.Exchange.{operation_asked, json_line, call_outcome, IsRequestOf};
ghost use Rattle.kmip_words.specs.About.{outcome_line, outcome_ending};
ghost use Rattle.kmip_words.specs.About.{response_line, response_ending};
ghost use Rattle.kmip_words.specs.Refusal.{failure_line};
ghost use Rattle.kmip_words.specs.JsonLines.{IsGrammarLine};
ghost use Rattle.kmip_words.specs.declared.call.Call.{Call as TheCall};

use kmip_request_read::{request_is_message, request_is_read, same_message};

/// The line of JSON of an answer is a text of the grammar of RFC 8259 and a line feed: of a payload
/// of the call's operation, whose values are in their ranges, as those of every payload are that
/// Rust can hold; and of any error, with whatever a response says of it.
pub fn lines_are_json()
    ensures payload { (call : TheCall) (payload : Val) → Fits response_payload payload →
        IsOfOperation (operation_asked call) payload → IsGrammarLine (json_line call (Ok payload)) }
    ensures error { (call : TheCall) (error : TheError) →
        IsGrammarLine (json_line call (Err error)) }
    ensures failure { (error : TheError) (response : List ℕ) →
        IsGrammarLine (failure_line error response) }
{}

/// Where the request of a call has a wire form, what bytes answer to the call is what a client
/// answers over a link that has these bytes to read.
pub fn responses_are_outcomes()
    ensures line { (settings : TheSettings) (call : TheCall) (rest : List ℕ) →
        IsSome (request_asked call settings.credential).message →
        outcome_line call (call_outcome settings call rest) rest ≡ response_line settings call rest }
    ensures ending { (settings : TheSettings) (call : TheCall) (rest : List ℕ) →
        IsSome (request_asked call settings.credential).message →
        outcome_ending call (call_outcome settings call rest) rest ≡
        response_ending settings call rest }
{}

/// `raw` and the bytes of a matched request, without a credential, as kmip_call records a call for
/// which a script has no words, ask for this request, with each credential. The premises
/// `FitsRequest` and `IsBytes` are true of every payload and of the bytes of a request in Rust.
pub fn raw_asks_for_its_request()
    ensures { (payload : RequestPayload) (bytes : List ℕ) → FitsRequest payload None →
        IsMatched payload → IsBytes bytes → request_bytes payload None ≡ Some bytes →
        (call : TheCall) × (call_in (codes "raw" ∷ encode_upper bytes ∷ []) ≡ Some call)
        × IsRequestOf payload call }
{
    request_is_message();
    request_is_read();
    same_message();
}
