//! Laws over the definitions. Each function does nothing: its clause is the law.
ghost use Rattle.std.specs.Prelude.{◌≡◌, ℕ, List, Some, true, false, map, ◌≤◌};
ghost use Rattle.kmip_wire.specs.Tree.{Tree};
ghost use Rattle.kmip_wire.specs.Bytes.{levels};
ghost use Rattle.kmip_enums.specs.declared.operation.Operation.{Operation};
ghost use Rattle.kmip_request_words.specs.Grammar as typed;
ghost use Rattle.kmip_operation_words.specs.Calls.{operation_asked};
ghost use Rattle.kmip_operations.specs.Calls.{is_structure, has_empty_identifier};
ghost use Rattle.kmip_operation_words.specs.Laws.{have_no_twice, share_none};
ghost use Rattle.kmip_operation_words.specs.Table.{calls};
ghost use Rattle.kmip_tags.specs.Tags.{REQUEST_PAYLOAD};

/// No two calls of the table have the same name, and none has that of a typed call.
pub fn call_names()
    ensures once { have_no_twice (map (λ row. row.name) calls) ≡ true }
    ensures untyped { share_none (map (λ row. row.name) calls)
        (map (λ row. row.name) typed.calls) ≡ true }
{}

/// What words ask for is a payload, a structure of at most five levels, so that no message has more
/// levels than the 64 that one may have. No identifier and no handle in it is empty.
pub fn payloads()
    ensures tag { (words : List (List ℕ)) (operation : Operation) (tree : Tree) →
        operation_asked words ≡ Some (operation, tree) →
        is_structure REQUEST_PAYLOAD tree ≡ true }
    ensures levels { (words : List (List ℕ)) (operation : Operation) (tree : Tree) →
        operation_asked words ≡ Some (operation, tree) → levels tree ≤ 5 }
    ensures identifiers { (words : List (List ℕ)) (operation : Operation) (tree : Tree) →
        operation_asked words ≡ Some (operation, tree) → has_empty_identifier tree ≡ false }
{}
