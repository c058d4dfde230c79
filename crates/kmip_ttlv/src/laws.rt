//! A law over the definitions: the contract of a function that does nothing.
ghost use Rattle.std.specs.Prelude.{◌≡◌, ℕ, List, ◌++◌, Some, codes};
ghost use Rattle.hex.specs.Hex.{encode_upper};
ghost use Rattle.kmip_wire.specs.Tree.{Tree};
ghost use Rattle.kmip_wire.specs.Bytes.{bytes, AreBytes};
ghost use Rattle.kmip_wire.specs.Parses.{Parses};
ghost use Rattle.kmip_encodings.specs.Encoding.{json_text};
ghost use Rattle.kmip_ttlv.specs.Program.{bytes_in, Decodes, Encodes};

/// `encode` undoes `decode`: what it writes of the JSON that `decode` wrote is the canonical bytes of
/// the item in hex.
pub fn encoded_back()
    ensures { (t : Tree) (b input between output : List ℕ) → AreBytes (bytes_in input) →
        Parses t 1 (bytes_in input) → bytes t ≡ Some b → Decodes json_text input between →
        Encodes between output → output ≡ encode_upper b ++ codes "\n" }
{}
