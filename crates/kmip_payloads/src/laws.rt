//! Laws over the definitions, each the contract of a function that does nothing.
ghost use Rattle.std.specs.Prelude.{◌≡◌, ℕ, ◌+◌, List, [], Contains, None, map, true};
ghost use Rattle.std.specs.List.{list_all};
ghost use Rattle.kmip_enums.specs.Operations.{operation_variants};
ghost use Rattle.kmip_tags.specs.Tags as tags;
ghost use Rattle.kmip_wire.specs.Tree.{Tree, structure, trees_of};
ghost use Rattle.kmip_rows.specs.Rows.{Row};
ghost use Rattle.kmip_rows.specs.Operations.{row_of};
ghost use Rattle.kmip_payloads.specs.Items.{Item, item_at};
ghost use Rattle.kmip_payloads.specs.Payload.{build, payload, LEVELS};
ghost use Rattle.kmip_payloads.specs.Refusals.{refusal_of};
ghost use Rattle.kmip_payloads.specs.Strays.{first_stray};
ghost use Rattle.kmip_payloads.specs.Laws.{has_levels, are_all_levels, spot_of, StandsAt};
ghost use Rattle.kmip_payloads.specs.Laws.{IsInOrder, has_needed};

/// The payload of no operation has more levels than those that the walk goes through; and where
/// that is so, a walk through more levels gives the same.
pub fn levels_suffice()
    ensures operations { list_all (λ operation. are_all_levels (row_of operation))
        operation_variants ≡ true }
    ensures same { (row : Row) → (items : List Item) → (more : ℕ) →
        has_levels LEVELS row.request ≡ true →
        build (LEVELS + more) row.request items ≡ build LEVELS row.request items }
{}

/// Where no item is a stray, each stands in the payload, in the structures of its path.
pub fn no_item_is_lost()
    ensures { (row : Row) → (items : List Item) → (item : Item) →
        has_levels LEVELS row.request ≡ true →
        first_stray row items ≡ None → Contains items item →
        StandsAt item.path item.tree (build LEVELS row.request items) }
{}

/// Why items are refused depends on where they stand, and on nothing of their values.
pub fn refusals_tell_no_value()
    ensures { (row : Row) → (items : List Item) → (others : List Item) →
        map spot_of items ≡ map spot_of others → refusal_of row items ≡ refusal_of row others }
{}

/// Whole trees that stand in the order of the fields, where none that is needed is missing, are the
/// payload as they are. So each payload of that form is one that items give.
pub fn payloads_are_reached()
    ensures { (row : Row) → (trees : List Tree) →
        IsInOrder row.request trees → has_needed row.request trees ≡ true →
        payload row (map (λ tree. item_at [] tree) trees) ≡
        structure tags.REQUEST_PAYLOAD (trees_of trees) }
{}
