//! Laws over the definitions, each the contract of a function that does nothing.

ghost use Rattle.std.specs.Prelude.{◌≡◌, ◌<◌, ◌^◌, ℕ, List, length, slice_get, Some, true};
ghost use Rattle.std.specs.Prelude.{bytes_eq};
ghost use Rattle.std.specs.List.{IsDistinct};
ghost use Rattle.kmip_store.specs.declared.object.Object.{Object};
ghost use Rattle.kmip_store.specs.Objects.{is_destroyed};
ghost use Rattle.kmip_store.specs.Runs.{AnsweredCall, objects_after, identifiers_given};

/// Whatever calls are made, an object that is destroyed never changes again: it keeps its place,
/// and with it its identifier.
pub fn destroyed_stays()
    ensures { (objects : List Object) (calls : List AnsweredCall) (place : ℕ) (object : Object) →
        slice_get objects place ≡ Some object → is_destroyed object.state ≡ true →
        slice_get (objects_after objects calls) place ≡ Some object }
{}

/// Whatever calls are made, no identifier is given twice. The premise, fewer than 2^64 objects,
/// holds of every list in memory.
pub fn identifiers_differ()
    ensures { (objects : List Object) (calls : List AnsweredCall) →
        length (objects_after objects calls) < 2 ^ 64 →
        IsDistinct bytes_eq (identifiers_given objects calls) }
{}
