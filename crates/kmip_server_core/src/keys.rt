//! Calls that change a key, each done only after its response is made.

ghost use Rattle.std.specs.Prelude.{◌≡◌, not, ◌||◌, Some, None, Ok, Err, cond};
ghost use Rattle.std.specs.Option.{option_map};
ghost use Rattle.kmip_store.specs.Objects.{find_in, object_of, is_pre_active, is_active};
ghost use Rattle.kmip_store.specs.Objects.{is_destroyed};
ghost use Rattle.kmip_store.specs.Steps.{Done, Denied};
ghost use Rattle.kmip_store.specs.declared.call.Call.TheVariants as calls;
ghost use Rattle.kmip_server_core.specs.Answering.{step_answer, change_answer, response_of, AnswersCallAlone};

use crate::items::{activate_item, destroy_item, rename_item, revoke_item};
use crate::message::Stamp;
use kmip_store::{Store, StoreError};
use kmip_wire::{Blob, Text, WireError};

/// What the store will return where it has the object.
fn permission(allowed: bool) -> Result<(), StoreError>
    ensures { step_answer (λ _. Done) result ≡ Some (cond allowed Done Denied) }
{
    if allowed {
        Ok(())
    } else {
        Err(StoreError::PermissionDenied)
    }
}

/// What the store will return for a call that makes the object Active.
fn activates(store: &Store, id: &str) -> Result<(), StoreError>
    ensures { step_answer (λ _. Done) result ≡ Some
        (change_answer (λ object. is_pre_active object.state)
        (option_map object_of (find_in store.now id.now))) }
{
    match store.find(id) {
        Some(object) => permission(object.is_pre_active()),
        None => Err(StoreError::ItemNotFound),
    }
}

/// What the store will return for a call that makes the object Deactivated.
fn revokes(store: &Store, id: &str) -> Result<(), StoreError>
    ensures { step_answer (λ _. Done) result ≡ Some (change_answer (λ object. is_active object.state)
        (option_map object_of (find_in store.now id.now))) }
{
    match store.find(id) {
        Some(object) => permission(object.is_active()),
        None => Err(StoreError::ItemNotFound),
    }
}

/// What the store will return for a call that makes the object Destroyed.
fn destroys(store: &Store, id: &str) -> Result<(), StoreError>
    ensures { step_answer (λ _. Done) result ≡ Some (change_answer
        (λ object. not (is_active object.state || is_destroyed object.state))
        (option_map object_of (find_in store.now id.now))) }
{
    match store.find(id) {
        Some(object) => permission(!(object.is_active() || object.is_destroyed())),
        None => Err(StoreError::ItemNotFound),
    }
}

/// What the store will return for a call that gives the object another name, memory aside.
fn renames(store: &Store, id: &str) -> Result<(), StoreError>
    ensures { step_answer (λ _. Done) result ≡ Some (change_answer
        (λ object. not (is_destroyed object.state))
        (option_map object_of (find_in store.now id.now))) }
{
    match store.find(id) {
        Some(object) => permission(!object.is_destroyed()),
        None => Err(StoreError::ItemNotFound),
    }
}

/// The response, unless the store ran out of memory for what it reports.
fn respond(answer: Result<(), StoreError>, response: Blob) -> Result<Blob, WireError>
    ensures { result ≡ response_of answer response }
{
    match answer {
        Err(StoreError::OutOfMemory) => Err(WireError::OutOfMemory),
        Err(_) => Ok(response),
        Ok(()) => Ok(response),
    }
}

/// Makes a PreActive key Active (KMIP 1.0, 4.18).
pub fn activate(stamp: &Stamp, store: &mut Store, id: &Text) -> Result<Blob, WireError>
    ensures { AnswersCallAlone (calls.ActivateKey id.now) stamp.now.time store.old store.new result }
{
    let item = activate_item(stamp.alloc, id, activates(store, id.as_str()))?;
    match stamp.write(item) {
        Ok(response) => respond(store.activate_key(id.as_str()), response),
        Err(error) => Err(error),
    }
}

/// Makes an Active key Deactivated (KMIP 1.0, 4.19).
pub fn revoke(stamp: &Stamp, store: &mut Store, id: &Text) -> Result<Blob, WireError>
    ensures { AnswersCallAlone (calls.RevokeKey id.now) stamp.now.time store.old store.new result }
{
    let item = revoke_item(stamp.alloc, id, revokes(store, id.as_str()))?;
    match stamp.write(item) {
        Ok(response) => respond(store.revoke_key(id.as_str()), response),
        Err(error) => Err(error),
    }
}

/// Makes a key Destroyed (KMIP 1.0, 4.20).
pub fn destroy(stamp: &Stamp, store: &mut Store, id: &Text) -> Result<Blob, WireError>
    ensures { AnswersCallAlone (calls.DestroyKey id.now) stamp.now.time store.old store.new result }
{
    let item = destroy_item(stamp.alloc, id, destroys(store, id.as_str()))?;
    match stamp.write(item) {
        Ok(response) => respond(store.destroy_key(id.as_str()), response),
        Err(error) => Err(error),
    }
}

/// Gives a key another name (KMIP 1.0, 4.14).
pub fn rename(
    stamp: &Stamp,
    store: &mut Store,
    id: &Text,
    new_name: &Text,
) -> Result<Blob, WireError>
    ensures { AnswersCallAlone (calls.RenameKey id.now new_name.now) stamp.now.time
        store.old store.new result }
{
    let item = rename_item(stamp.alloc, id, new_name, renames(store, id.as_str()))?;
    match stamp.write(item) {
        Ok(response) => respond(store.rename_key(id.as_str(), new_name.as_str()), response),
        Err(error) => Err(error),
    }
}
