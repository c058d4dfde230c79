//! Laws over sessions, each the contract of a function that does nothing.

ghost use Rattle.std.specs.Prelude.{◌≡◌, ◌≢◌, ◌↔◌, ◌++◌, ℕ, List, Ok, Option, Some, IfSome, map, take};
ghost use Rattle.kmip_wire.specs.Bytes.{AreBytes, HasRanges};
ghost use Rattle.kmip_wire.specs.Tree.{Tree};
ghost use Rattle.kmip_shape.specs.Val.{Val, One};
ghost use Rattle.kmip_shape.specs.Shape.{chosen_by};
ghost use Rattle.kmip_shape.specs.Reads.{read_of};
ghost use Rattle.kmip_enums.specs.Operations.{operation_val};
ghost use Rattle.kmip_enums.specs.declared.operation.Operation.{Operation};
ghost use Rattle.kmip_response.specs.Tables.{response_payload};
ghost use Rattle.kmip_client.specs.Outcome.{read_answer};
ghost use Rattle.kmip_client.specs.Untyped.{untyped_answer};
ghost use Rattle.kmip_wire.specs.Parses.{Parses};
ghost use Rattle.kmip_types.specs.declared.auth.CredentialType.{CredentialType};
ghost use Rattle.kmip_request.specs.declared.payload.RequestPayload.{RequestPayload};
ghost use Rattle.kmip_request.specs.Fits.{FitsCredential};
ghost use Rattle.kmip_client.specs.Message.{Ended, message_at, taken_for};
ghost use Rattle.kmip_client.specs.Operation.{TreeRequest, operation_bytes, operation_tree};
ghost use Rattle.kmip_client.specs.Session.{session};
ghost use Rattle.kmip_client.specs.Order.{AreServed, answers_to};
ghost use Rattle.kmip_client.specs.Skeletons.{AllParse, skeletons_of, texts_of};

use kmip_diag::diagnostics_tell_skeletons;

/// Where each request is valid and the bytes left begin with a whole message for each, the answer
/// to each request is that of its own message, contents that do not parse included.
pub fn messages_are_answered_in_order()
    ensures { (payloads : List RequestPayload) (credential : Option CredentialType)
        (limit : Option ℕ) (messages : List (List ℕ)) (rest : List ℕ) →
        AreServed payloads credential limit messages rest →
        map (λ turn. turn.outcome.answer) (session payloads credential limit rest) ≡
        answers_to payloads messages }
{}

/// Two sessions whose requests and messages all parse, with numbers in their ranges, have equal
/// diagnostics at every call exactly where the skeletons of their requests and of their responses
/// are equal at every call. So a diagnostic shows tags, types, nesting and the numbers of
/// enumerations, all of them, and nothing else.
pub fn diagnostics_of_sessions()
    ensures { (payloads others : List RequestPayload) (credential other : Option CredentialType)
        (limit most : Option ℕ) (rest bytes : List ℕ) →
        (all : AllParse (session payloads credential limit rest)) →
        (each : AllParse (session others other most bytes)) →
        (texts_of (session payloads credential limit rest) ≡
        texts_of (session others other most bytes)) ↔
        (skeletons_of (session payloads credential limit rest) all ≡
        skeletons_of (session others other most bytes) each) }
{
    diagnostics_tell_skeletons();
}

/// What stands at the front of bytes, and so what a reading of them answers, depends on no bytes
/// after those that it takes, but where they end before the message does.
pub fn later_bytes_play_no_part()
    ensures { (rest more : List ℕ) (limit : Option ℕ) → message_at rest limit ≢ Ended →
        message_at (take (taken_for rest (message_at rest limit)) rest ++ more) limit ≡
        message_at rest limit }
{}

/// Each request that `do_operation` sends parses as its message. The three premises are true of
/// every credential, every ID and every tree in Rust.
pub fn operation_parses()
    ensures { (request : TreeRequest) (credential : Option CredentialType) (b : List ℕ) →
        FitsCredential credential → IfSome request.id AreBytes → HasRanges request.payload →
        operation_bytes request credential ≡ Some b →
        Parses (operation_tree request.operation request.version credential request.id
        request.payload) 1 b }
{}

/// Where one message answers a payload to `do_request` and a tree to `do_operation`, the payload is
/// what KMIP's tables read of that tree, as the response payload of the operation.
pub fn typed_payload_is_of_the_tree()
    ensures { (operation : Operation) (m : List ℕ) (payload : Val) (tree : Tree) →
        read_answer operation m ≡ Ok payload → untyped_answer operation m ≡ Ok tree →
        read_of response_payload (chosen_by (One (operation_val operation))) tree ≡ Some payload }
{}
