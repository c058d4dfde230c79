//! Laws over the definitions, each the contract of a function that does nothing.

ghost use Rattle.std.specs.Prelude.{◌≡◌, ◌+◌, ◌≤◌, ℕ, List, length, Some, true};
ghost use Rattle.kmip_tags.specs.Tags.{RESPONSE_MESSAGE};
ghost use Rattle.std.specs.List.{list_all};
ghost use Rattle.kmip_wire.specs.Head.{head_length};
ghost use Rattle.kmip_wire.specs.Tree.{Tree};
ghost use Rattle.kmip_shape.specs.Reads.{root_read};
ghost use Rattle.kmip_response.specs.Tables.{response_message};
ghost use Rattle.kmip_response.specs.Values.{response_message_val};
ghost use Rattle.kmip_response.specs.declared.message.ResponseMessage.{ResponseMessage};
ghost use Rattle.kmip_response_write.specs.Roots.{message_tables, payload_tables, object_tables};
ghost use Rattle.kmip_response_write.specs.Roots.{stands};
ghost use Rattle.kmip_response_write.specs.Settled.{IsHeld, IsSettled};
ghost use Rattle.kmip_response_write.specs.Settled.{response_tree, response_bytes, response_read};

/// The tree of a settled message reads as the message, and that of no other does. The premise
/// `IsHeld` holds of every message that Rust can hold.
pub fn settled_is_read()
    ensures read { (m : ResponseMessage) (t : Tree) → IsHeld m → IsSettled m →
        response_tree m ≡ Some t →
        root_read response_message RESPONSE_MESSAGE t ≡ Some (response_message_val m) }
    ensures only { (m : ResponseMessage) (t : Tree) → response_tree m ≡ Some t →
        root_read response_message RESPONSE_MESSAGE t ≡ Some (response_message_val m) →
        IsSettled m }
{}

/// The bytes of a settled message are read as the message.
pub fn response_is_read()
    ensures { (m : ResponseMessage) (b : List ℕ) → IsHeld m → IsSettled m →
        response_bytes m ≡ Some b → response_read b ≡ Some (response_message_val m) }
{}

/// Settled messages of the same bytes are equal.
pub fn one_response()
    ensures { (m n : ResponseMessage) (b : List ℕ) → IsHeld m → IsHeld n →
        IsSettled m → IsSettled n → response_bytes m ≡ Some b → response_bytes n ≡ Some b → m ≡ n }
{}

/// The bytes of a response are one message: a head of eight bytes, and as many more as its length
/// says (KMIP 1.0, 9.1.1).
pub fn response_is_one_message()
    ensures { (m : ResponseMessage) (b : List ℕ) → IsHeld m → response_bytes m ≡ Some b →
        (8 ≤ length b) × (length b ≡ 8 + head_length b) }
{}

/// In the tables of the structures that may stand alone, no record has a tag twice, and a field
/// that chooses stands before the field that it chooses.
pub fn tables_stand()
    ensures messages { list_all stands message_tables ≡ true }
    ensures payloads { list_all stands payload_tables ≡ true }
    ensures objects { list_all stands object_tables ≡ true }
{}
