//! Laws over the definitions, each the contract of a function that does nothing.

ghost use Rattle.std.specs.Prelude.{◌≡◌, ℕ, true, List, [], ◌++◌, Option, Some};
ghost use Rattle.kmip_types.specs.declared.auth.CredentialType.{CredentialType};
ghost use Rattle.kmip_request.specs.declared.payload.RequestPayload.{RequestPayload};
ghost use Rattle.kmip_request.specs.Message.{request_tree, request_bytes};
ghost use Rattle.kmip_request.specs.Fits.{FitsRequest};
ghost use Rattle.kmip_request.specs.Tables.{root_tables, all_stand};
ghost use Rattle.kmip_request_objects.specs.Roots.{object_tables};

/// Two valid requests whose trees differ have different bytes, and neither's bytes are a proper
/// prefix of the other's. The premise `FitsRequest` is true of every payload and credential in Rust.
pub fn distinct_requests()
    ensures equal { (p q : RequestPayload) (c d : Option CredentialType) (b : List ℕ) →
        FitsRequest p c → FitsRequest q d →
        request_bytes p c ≡ Some b → request_bytes q d ≡ Some b →
        request_tree p c ≡ request_tree q d }
    ensures apart { (p q : RequestPayload) (c d : Option CredentialType) (b rest : List ℕ) →
        FitsRequest p c → FitsRequest q d →
        request_bytes p c ≡ Some b → request_bytes q d ≡ Some (b ++ rest) → rest ≡ [] }
{}

/// In the tables of a request's message, of the structures in it, of each payload and of the objects
/// in them no tag appears twice, at any depth, and at most one field of a structure chooses, above
/// what it chooses.
pub fn tables_stand()
    ensures roots { all_stand root_tables ≡ true }
    ensures objects { all_stand object_tables ≡ true }
{}
