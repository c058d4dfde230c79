//! Laws over the definitions, each the contract of a function that does nothing.
ghost use Rattle.std.specs.Prelude.{◌≡◌, ◌+◌, ◌-◌, ◌≤◌, ◌↔◌, List, ℕ, [], ◌++◌, Some};
ghost use Rattle.std.specs.Prelude.{length, take};
ghost use Rattle.std.specs.Bool.{Decides};
ghost use Rattle.std.specs.Str.{bytes_eq};
ghost use Rattle.std.specs.Cmp.Lexicographic.{pointwise};
ghost use Rattle.kmip_wire.specs.Tree.{Tree};
ghost use Rattle.kmip_wire.specs.Same.{same_tree, same_items};
ghost use Rattle.kmip_wire.specs.Parses.{IsLevel, Parses, AreTexts, joined_texts};
ghost use Rattle.kmip_wire.specs.Reading.{item_of, front_at};
ghost use Rattle.kmip_wire.specs.Bytes.{bytes, levels, AreBytes, HasRanges};

/// A text parses as one tree at most, and no text that parses begins another that does. A list of
/// texts that parse at a level is determined by their concatenation.
pub fn one_tree()
    ensures tree { (t u : Tree) (level : ℕ) (b : List ℕ) → Parses t level b → Parses u level b →
        t ≡ u }
    ensures length { (t u : Tree) (level other : ℕ) (b rest : List ℕ) → Parses t level b →
        Parses u other (b ++ rest) → rest ≡ [] }
    ensures split { (level : ℕ) (bs cs : List (List ℕ)) → AreTexts level bs → AreTexts level cs →
        joined_texts bs ≡ joined_texts cs → bs ≡ cs }
{}

/// `item_of` computes what `Parses` states: it gives the tree as which the bytes parse, if any.
pub fn tree_computed()
    ensures { (t : Tree) (level : ℕ) (b : List ℕ) → IsLevel level →
        (item_of (65 - level) b ≡ Some t) ↔ Parses t level b }
{}

/// `front_at` gives the tree as which some of the first bytes parse, if any do.
pub fn front_computed()
    ensures { (t : Tree) (level : ℕ) (b : List ℕ) → IsLevel level →
        (front_at level b ≡ Some t) ↔
        ((n : ℕ) × (n ≤ length b) × Parses t level (take n b)) }
{}

/// A tree as which bytes parse has its numbers, texts and bytes in their ranges.
pub fn parsed_ranges()
    ensures { (t : Tree) (level : ℕ) (b : List ℕ) → AreBytes b → Parses t level b → HasRanges t }
{}

/// A tree as which bytes parse at a level ends at level 64 at the latest: at level 1, that of a whole
/// item, it has at most 64 levels.
pub fn parsed_levels()
    ensures { (t : Tree) (level : ℕ) (b : List ℕ) → Parses t level b → levels t + level ≤ 65 }
{}

/// The canonical bytes of a tree parse as this tree, if it has at most 64 levels.
pub fn written_parses()
    ensures { (t : Tree) (b : List ℕ) → HasRanges t → levels t ≤ 64 → bytes t ≡ Some b →
        Parses t 1 b }
{}

/// Trees with the same canonical bytes are equal, at any depth.
pub fn one_text()
    ensures { (t u : Tree) (b : List ℕ) → HasRanges t → HasRanges u → bytes t ≡ Some b →
        bytes u ≡ Some b → t ≡ u }
{}

/// `==` says whether two trees, lists of trees, texts or strings of bytes are equal.
pub fn equality()
    ensures tree { (t u : Tree) → Decides (same_tree t u) (t ≡ u) }
    ensures trees { (ts us : List Tree) → Decides (same_items ts us) (ts ≡ us) }
    ensures bytes { (b c : List ℕ) → Decides (bytes_eq b c) (b ≡ c) }
{}

/// `==` says whether two lists are equal, where it says so of their items.
pub fn list_equality<T: PartialEq>()
    ensures { ((x y : T) → Decides (T.eq x y) (x ≡ y)) → (xs ys : List T) →
        Decides (pointwise T.eq xs ys) (xs ≡ ys) }
{}
