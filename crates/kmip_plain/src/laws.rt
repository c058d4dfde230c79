//! Laws over the definitions. Each function does nothing: its clause is the law.
ghost use Rattle.json.specs.Strict.{HasUniqueKeys};
ghost use Rattle.json.specs.Tree.{HasNumbers};
ghost use Rattle.kmip_wire.specs.Bytes.{HasRanges};
ghost use Rattle.kmip_wire.specs.Tree.{Tree};
ghost use Rattle.kmip_plain.specs.Payload.{payload_json};
ghost use Rattle.kmip_plain.specs.declared.payload.PayloadForm.{PayloadForm};

/// Each number in a payload's JSON is one of JSON (RFC 8259, 6), where the tree's numbers are in
/// their ranges, as those of every tree are that Rust can hold.
pub fn payload_numbers()
    ensures { (form : PayloadForm) (tree : Tree) → HasRanges tree →
        HasNumbers (payload_json form tree) }
{}

/// No object in a payload's JSON has a name twice, where the tree's tags are in their range: no two
/// tags have one name in plain JSON.
pub fn payload_names()
    ensures { (form : PayloadForm) (tree : Tree) → HasRanges tree →
        HasUniqueKeys (payload_json form tree) }
{}
