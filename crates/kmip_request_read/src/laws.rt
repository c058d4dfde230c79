//! Laws over the definitions, each the contract of a function that does nothing.

ghost use Rattle.std.specs.Prelude.{◌≡◌, ◌≤◌, ◌+◌, ℕ, List, length, Option, Some, None};
ghost use Rattle.kmip_wire.specs.Head.{head_length};
ghost use Rattle.kmip_wire.specs.Tree.{Tree};
ghost use Rattle.kmip_wire.specs.Parses.{Parses};
ghost use Rattle.kmip_wire.specs.Bytes.{HasRanges};
ghost use Rattle.kmip_types.specs.declared.auth.CredentialType.{CredentialType};
ghost use Rattle.kmip_request.specs.declared.payload.RequestPayload.{RequestPayload};
ghost use Rattle.kmip_request.specs.Message.{request_bytes};
ghost use Rattle.kmip_request.specs.Fits.{FitsCredential, FitsRequest};
ghost use Rattle.kmip_request_read.specs.Matched.{IsMatched, IsMatchedValue};
ghost use Rattle.kmip_request_read.specs.Reading.{Request, request_for, message_bytes};
ghost use Rattle.kmip_request_read.specs.Reading.{request_read};

/// Two matched requests of the same bytes are equal, in payload and credential. The premise
/// `FitsRequest` is true of every payload and credential in Rust.
pub fn one_request()
    ensures { (p q : RequestPayload) (c d : Option CredentialType) (b : List ℕ) →
        FitsRequest p c → FitsRequest q d → IsMatched p → IsMatched q →
        request_bytes p c ≡ Some b → request_bytes q d ≡ Some b → (p ≡ q) × (c ≡ d) }
{}

/// The canonical message of a payload is that of the payload's operation and value.
pub fn same_message()
    ensures { (p : RequestPayload) (c : Option CredentialType) →
        request_bytes p c ≡ message_bytes (request_for p) c }
{}

/// `request_read` reads the bytes of a matched request as that request.
pub fn request_is_read()
    ensures { (p : RequestPayload) (c : Option CredentialType) (b : List ℕ) →
        FitsRequest p c → IsMatched p →
        request_bytes p c ≡ Some b → request_read b ≡ Some (request_for p) }
{}

/// A request that `request_read` reads from bytes is matched, and the bytes are its message with
/// some credential. Where it reads none, the bytes are not the message of any matched request with
/// any credential.
pub fn read_request_is_matched()
    ensures read { (b : List ℕ) (r : Request) → request_read b ≡ Some r →
        IsMatchedValue r.operation r.payload ×
        ((c : Option CredentialType) × FitsCredential c × (message_bytes r c ≡ Some b)) }
    ensures unread { (b : List ℕ) → request_read b ≡ None →
        (p : RequestPayload) (c : Option CredentialType) → FitsRequest p c → IsMatched p →
        request_bytes p c ≡ Some b → ⊥ }
{}

/// The bytes of a request parse, as a tree whose numbers, texts and bytes are in their ranges. The
/// premise `FitsRequest` is true of every payload and credential in Rust.
pub fn request_parses()
    ensures parses { (p : RequestPayload) (c : Option CredentialType) (b : List ℕ) →
        FitsRequest p c → request_bytes p c ≡ Some b → (t : Tree) × Parses t 1 b }
    ensures ranges { (p : RequestPayload) (c : Option CredentialType) (b : List ℕ) (t : Tree) →
        FitsRequest p c → request_bytes p c ≡ Some b → Parses t 1 b → HasRanges t }
{}

/// The bytes of a request are one message: 8 bytes of tag, type and length, and after them as many
/// bytes as the length says (KMIP 1.0, 9.1.1.3).
pub fn request_is_message()
    ensures { (p : RequestPayload) (c : Option CredentialType) (b : List ℕ) →
        request_bytes p c ≡ Some b → (8 ≤ length b) × (length b ≡ 8 + head_length b) }
{}
