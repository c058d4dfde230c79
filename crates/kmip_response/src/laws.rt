//! Laws over the definitions, each the contract of a function that does nothing.

ghost use Rattle.std.specs.Prelude.{◌≡◌, ◌↔◌, ℕ, List, Some};
ghost use Rattle.kmip_wire.specs.Tree.{Tree};
ghost use Rattle.kmip_response.specs.Reading.{front_structure, BeginsWith};

/// `front_structure`, of which the clauses of `from_slice` speak, gives the Structure as which some
/// of the first bytes parse, if any do.
pub fn front_structure_computed()
    ensures { (t : Tree) (b : List ℕ) → (front_structure b ≡ Some t) ↔ BeginsWith t b }
{}
