//! Laws of the tables, each the contract of a function that does nothing.
ghost use Rattle.std.specs.Prelude.{◌≡◌, true};
ghost use Rattle.kmip_enums.specs.Operations.{operation_variants};
ghost use Rattle.kmip_request.specs.Tables.{request_payloads};
ghost use Rattle.kmip_response.specs.Tables.{response_payloads};
ghost use Rattle.kmip_rows.specs.Structures.{structures};
ghost use Rattle.kmip_rows.specs.Laws.{each_is, fields_of, operation_stands, structure_stands};
ghost use Rattle.kmip_rows.specs.Typed.{are_payloads, other_requests, other_responses};

/// An operation's row is its own. No payload and no structure has two fields in one place; each tag
/// of a field has a kind, and a structure exactly where the kind is one.
pub fn tables_stand()
    ensures operations { each_is operation_stands operation_variants ≡ true }
    ensures structures { each_is structure_stands structures ≡ true }
{}

/// The payloads of typed requests have fields of their operations' rows alone, in their order, each
/// with its name, tag, mark and type, and all that are needed; but for what `other_requests` says.
pub fn typed_requests()
    ensures { are_payloads other_requests (λ row. row.request) request_payloads ≡ true }
{}

/// The payloads of typed responses likewise, but for what `other_responses` says.
pub fn typed_responses()
    ensures { are_payloads other_responses (λ row. fields_of row.response) response_payloads ≡ true }
{}
