//! Laws over the definitions, each the contract of a function that does nothing.
ghost use Rattle.std.specs.Prelude.{◌≡◌, ◌↔◌, ℕ, List, Option, Some, None};
ghost use Rattle.kmip_wire.specs.Tree.{Tree};
ghost use Rattle.kmip_wire.specs.Parses.{Parses};
ghost use Rattle.kmip_wire.specs.Bytes.{AreBytes, HasRanges};
ghost use Rattle.kmip_diag.specs.Skeleton.{Skeletons, skeleton};
ghost use Rattle.kmip_diag.specs.Tokens.{AreSkeletons};
ghost use Rattle.kmip_diag.specs.Diagnostic.{IsDiagnostic, diagnostic};
ghost use Rattle.kmip_diag.specs.Printed.{printed, printed_all};
ghost use Rattle.kmip_diag.specs.Lines.{lines_of};
ghost use Rattle.kmip_diag.specs.Expansion.{IsExpansion, IsNoDiagnostic, expansion};

use kmip_wire::parsed_ranges;

/// For each prefix, lists of skeletons that are printed as the same text are equal.
pub fn printing_is_injective()
    ensures { (prefix : Option ℕ) (ts us : Skeletons) → AreSkeletons ts → AreSkeletons us →
        printed_all prefix ts ≡ printed_all prefix us → ts ≡ us }
{}

/// `diagnostic` computes what `IsDiagnostic` states.
pub fn diagnostic_shows_its_bytes()
    ensures { (prefix : Option ℕ) (b : List ℕ) → IsDiagnostic prefix b (diagnostic prefix b) }
{}

/// Bytes have one diagnostic at most.
pub fn one_diagnostic_at_most()
    ensures { (prefix : Option ℕ) (b text other : List ℕ) → IsDiagnostic prefix b text →
        IsDiagnostic prefix b other → text ≡ other }
{}

/// The diagnostic of an item is what is printed for its skeleton.
pub fn diagnostic_of_an_item()
    ensures { (prefix : Option ℕ) (t : Tree) (b : List ℕ) → Parses t 1 b →
        diagnostic prefix b ≡ printed prefix (skeleton t) }
{}

/// The diagnostics of two items are equal exactly where their skeletons are.
pub fn diagnostics_tell_skeletons()
    ensures trees { (prefix : Option ℕ) (t u : Tree) (b c : List ℕ) → HasRanges t → HasRanges u →
        Parses t 1 b → Parses u 1 c →
        (diagnostic prefix b ≡ diagnostic prefix c) ↔ (skeleton t ≡ skeleton u) }
    ensures bytes { (prefix : Option ℕ) (t u : Tree) (b c : List ℕ) → AreBytes b → AreBytes c →
        Parses t 1 b →
        Parses u 1 c → (diagnostic prefix b ≡ diagnostic prefix c) ↔ (skeleton t ≡ skeleton u) }
{
    parsed_ranges();
}

/// The diagnostic of an item whose numbers are in their ranges expands into the lines of its
/// skeleton.
pub fn diagnostics_expand()
    ensures { (prefix : Option ℕ) (t : Tree) (b : List ℕ) → HasRanges t → Parses t 1 b →
        expansion prefix (diagnostic prefix b) ≡ Some (lines_of 0 (skeleton t)) }
{}

/// `expansion` gives the lines of the skeletons for which the text is printed, and `None` exactly
/// where it is printed for none.
pub fn expansion_is_of_skeletons()
    ensures lines { (prefix : Option ℕ) (text lines : List ℕ) →
        (expansion prefix text ≡ Some lines) ↔ IsExpansion prefix text lines }
    ensures none { (prefix : Option ℕ) (text : List ℕ) →
        (expansion prefix text ≡ None) ↔ IsNoDiagnostic prefix text }
{}
