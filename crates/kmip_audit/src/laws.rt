//! Laws over the definitions, each the contract of a function that does nothing.
ghost use Rattle.std.specs.Prelude.{◌≡◌, ◌↔◌, ℕ, List, Option, Some};
ghost use Rattle.kmip_shape.specs.Val.{Val};
ghost use Rattle.kmip_enums.specs.declared.operation.Operation.{Operation};
ghost use Rattle.kmip_types.specs.declared.auth.CredentialType.{CredentialType};
ghost use Rattle.kmip_request.specs.declared.payload.RequestPayload.{RequestPayload};
ghost use Rattle.kmip_client.specs.Check.{check_response};
ghost use Rattle.kmip_client.specs.Outcome.{read_answer};
ghost use Rattle.kmip_client.specs.Session.{session};
ghost use Rattle.kmip_client.specs.Order.{AreServed};
ghost use Rattle.kmip_audit.specs.Outcomes.{message_outcome, response_outcome};
ghost use Rattle.kmip_audit.specs.Report.{report_of};
ghost use Rattle.kmip_audit.specs.Agreement.{Agree, AreMatched, IsReported};
ghost use Rattle.kmip_audit.specs.Skeletons.{AllParse, AreAlike, frame_skeletons};

use kmip_diag::diagnostics_tell_skeletons;
use kmip_request_read::{request_is_message, request_is_read};
use kmip_wire::tree_computed;

/// A response is reported as answered exactly where a client returns a payload: for a response
/// message that was read, and for the bytes of a message.
pub fn answered_exactly_where_ok()
    ensures message { (operation : Operation) (message : Val) →
        Agree operation (message_outcome operation message) (check_response operation message) }
    ensures bytes { (operation : Operation) (m : List ℕ) →
        Agree operation (response_outcome operation (Some m)) (read_answer operation m) }
{}

/// Where each request of a session is valid and matched, and the bytes left begin with a message
/// for each, within the limit, the report on what the session sent and took agrees with its
/// answers: both streams end whole, and there is an entry for each request, reported as answered
/// exactly where the client returned a payload.
pub fn sessions_are_reported()
    ensures { (payloads : List RequestPayload) (credential : Option CredentialType)
        (limit : Option ℕ) (messages : List (List ℕ)) (rest : List ℕ) →
        AreMatched payloads credential → AreServed payloads credential limit messages rest →
        IsReported payloads (session payloads credential limit rest) rest }
{
    request_is_message();
    request_is_read();
}

/// Two pairs of streams with equal ends and equal outcomes, whose frames all parse, have equal
/// reports exactly where the skeletons of their frames are equal, one by one. So beside ends and
/// outcomes a report shows all tags, types, nesting and numbers of enumerations, and nothing else.
pub fn reports_tell_skeletons()
    ensures { (sent received other_sent other_received : List ℕ) → AllParse sent →
        AllParse received → AllParse other_sent → AllParse other_received →
        AreAlike (report_of sent received) (report_of other_sent other_received) →
        (report_of sent received ≡ report_of other_sent other_received)
        ↔ ((frame_skeletons sent ≡ frame_skeletons other_sent)
        × (frame_skeletons received ≡ frame_skeletons other_received)) }
{
    diagnostics_tell_skeletons();
    tree_computed();
}
