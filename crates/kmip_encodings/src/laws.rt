//! Laws over the definitions, each the contract of a function that does nothing.
ghost use Rattle.std.specs.Prelude.{◌≡◌, ℕ, ◌<◌, ◌≤◌, List, ◌++◌, codes, length, Some, Ok};
ghost use Rattle.json.specs.Json.{document};
ghost use Rattle.json.specs.Strict.{HasUniqueKeys};
ghost use Rattle.kmip_wire.specs.Tree.{Tree};
ghost use Rattle.kmip_wire.specs.Bytes.{levels, HasRanges};
ghost use Rattle.kmip_wire.specs.Parses.{Parses};
ghost use Rattle.kmip_encodings.specs.Lines.{line_count};
ghost use Rattle.kmip_encodings.specs.Names.{line_at, enumeration_name, enumeration_number};
ghost use Rattle.kmip_encodings.specs.Words.{tag_word, tag_named};
ghost use Rattle.kmip_encodings.specs.Encoding.{json_of, json_text};
ghost use Rattle.kmip_encodings.specs.Reading.{tree_of, ReadsText};
ghost use Rattle.kmip_encodings.specs.Sizes.{size_of};
ghost use Rattle.kmip_encodings.specs.XmlGrammar.{IsElement};
ghost use Rattle.kmip_encodings.specs.Xml.{xml_of};

/// Reading undoes writing: what is written of a tree of at most 64 levels is a text of JSON, in
/// which no object has a name twice, also with a line feed after it, and its value means the tree.
pub fn read_back()
    ensures text { (t : Tree) → HasRanges t → levels t ≤ 64 →
        document (json_text t) ≡ Some (json_of t) }
    ensures line { (t : Tree) → HasRanges t → levels t ≤ 64 →
        document (json_text t ++ codes "\n") ≡ Some (json_of t) }
    ensures names { (t : Tree) → HasUniqueKeys (json_of t) }
    ensures tree { (t : Tree) → HasRanges t → levels t ≤ 64 → tree_of (json_of t) ≡ Ok t }
{}

/// The tree that a text means, as `from_json` reads it, has at most 64 levels.
pub fn read_levels()
    ensures { (t : Tree) → (text : List ℕ) → ReadsText (Ok t) text → levels t ≤ 64 }
{}

/// The size by which offsets are counted: bytes that parse as an item are as many.
pub fn item_sizes()
    ensures { (t : Tree) → (level : ℕ) → (b : List ℕ) → Parses t level b → size_of t ≡ length b }
{}

/// Each name is read as its number: the name that is written of a number, any name in the table,
/// kmip-protocol's too, and the word of a tag.
pub fn names_back()
    ensures written { (tag : ℕ) → (number : ℕ) → (name : List ℕ) →
        enumeration_name tag number ≡ Some name → enumeration_number tag name ≡ Some number }
    ensures lines { (i : ℕ) → i < line_count →
        enumeration_number (line_at i).0 (line_at i).1.1 ≡ Some (line_at i).1.0 }
    ensures words { (tag : ℕ) → (word : List ℕ) → tag_word tag ≡ Some word →
        tag_named word ≡ Some tag }
{}

/// What is written of a tree as XML is an element of XML 1.0, of attributes and elements alone.
pub fn written_xml()
    ensures { (t : Tree) → IsElement (xml_of t) }
{}
