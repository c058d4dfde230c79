//! Keys in a store over both makers: what each state allows, and the bytes of worked examples.
use crate::common::{Answer, maker_of};
use kmip_enums::{ObjectType, State};
use kmip_store::StoreError::{self, CryptographicFailure, ItemNotFound, PermissionDenied};
use kmip_store::{Maker, MakerError, MemoryMaker, Object, PlainMaker, Store};
use kmip_wire::{Blob, Text};
use std::alloc::Global;
use std::process::Abort;

/// A call of a store for a key.
#[derive(Clone, Copy)]
enum Ask {
    Sign,
    Activate,
    Revoke,
    Destroy,
    Rename,
    Get,
}

/// A call, the identifier that it has, and why it is refused.
struct Row {
    shows: &'static str,
    ask: Ask,
    id: &'static str,
    refused: Option<StoreError>,
}

/// Why the store refuses the call.
fn refusal(store: &mut Store, maker: &mut PlainMaker, ask: Ask, id: &str) -> Option<StoreError> {
    match ask {
        Ask::Sign => store.sign(maker, id, b"m").err(),
        Ask::Activate => store.activate_key(id).err(),
        Ask::Revoke => store.revoke_key(id).err(),
        Ask::Destroy => store.destroy_key(id).err(),
        Ask::Rename => store.rename_key(id, "other").err(),
        Ask::Get => store.get_key(id).err(),
    }
}

/// The calls are made, or refused, as the rows say.
fn rows_hold(rt: &impl Abort, store: &mut Store, maker: &mut PlainMaker, rows: &[Row]) {
    for row in rows {
        let refused = refusal(store, maker, row.ask, row.id);
        assert!(rt; refused == row.refused, "{}", row.shows);
    }
}

/// The call succeeded.
fn check_done(rt: &impl Abort, returned: Result<(), StoreError>, call: &str) {
    assert!(rt; returned.is_ok(), "{call}");
}

/// The call returned these bytes.
fn check_bytes(rt: &impl Abort, returned: Result<Blob, StoreError>, bytes: &[u8], call: &str) {
    let same = match returned {
        Ok(blob) => blob.as_slice() == bytes,
        Err(_) => false,
    };
    assert!(rt; same, "{call}");
}

/// The call returned these identifiers.
fn check_pair(
    rt: &impl Abort,
    returned: Result<(Text, Text), StoreError>,
    private_id: &str,
    public_id: &str,
) {
    let same = match returned {
        Ok((private, public)) => private.as_str() == private_id && public.as_str() == public_id,
        Err(_) => false,
    };
    assert!(rt; same, "the pair {private_id} and {public_id}");
}

/// Makes a pair of 2,048 bits, which gets these identifiers.
fn add_pair(
    rt: &impl Abort,
    store: &mut Store,
    maker: &mut PlainMaker,
    private_id: &str,
    public_id: &str,
) {
    let pair = store.create_rsa_key_pair(maker, 2048, "priv", "pub");
    check_pair(rt, pair, private_id, public_id);
}

/// A key that is not Active signs nothing.
const EARLY: &[Row] = &[Row {
    shows: "signing before activation",
    ask: Ask::Sign,
    id: "1",
    refused: Some(PermissionDenied),
}];

/// A public key never signs.
const SIGNING: &[Row] = &[
    Row {
        shows: "a second activation",
        ask: Ask::Activate,
        id: "1",
        refused: Some(PermissionDenied),
    },
    Row {
        shows: "activation of the public key",
        ask: Ask::Activate,
        id: "2",
        refused: None,
    },
    Row {
        shows: "signing by the public key",
        ask: Ask::Sign,
        id: "2",
        refused: Some(PermissionDenied),
    },
];

/// An Active key is destroyed once it is revoked.
const ENDING: &[Row] = &[
    Row {
        shows: "destruction while active",
        ask: Ask::Destroy,
        id: "1",
        refused: Some(PermissionDenied),
    },
    Row {
        shows: "revocation",
        ask: Ask::Revoke,
        id: "1",
        refused: None,
    },
    Row {
        shows: "a second revocation",
        ask: Ask::Revoke,
        id: "1",
        refused: Some(PermissionDenied),
    },
    Row {
        shows: "a name for a revoked key",
        ask: Ask::Rename,
        id: "1",
        refused: None,
    },
    Row {
        shows: "destruction",
        ask: Ask::Destroy,
        id: "1",
        refused: None,
    },
    Row {
        shows: "a second destruction",
        ask: Ask::Destroy,
        id: "1",
        refused: Some(PermissionDenied),
    },
    Row {
        shows: "a name for a destroyed key",
        ask: Ask::Rename,
        id: "1",
        refused: Some(PermissionDenied),
    },
    Row {
        shows: "a destroyed key",
        ask: Ask::Get,
        id: "1",
        refused: Some(PermissionDenied),
    },
];

/// The object keeps its place, and no bytes.
fn check_destroyed(rt: &impl Abort, store: &Store, id: &str) {
    let empty = match store.find(id) {
        Some(object) => object.key.as_slice().is_empty(),
        None => false,
    };
    assert!(rt; empty, "a destroyed key keeps its place and no bytes");
}

#[test]
fn a_key_signs_while_it_is_active_and_is_destroyed_once_it_is_revoked(rt: HostRuntime) {
    let mut store = Store::new(rt.alloc());
    let mut maker = PlainMaker::new(rt.alloc());
    add_pair(&rt, &mut store, &mut maker, "1", "2");
    rows_hold(&rt, &mut store, &mut maker, EARLY);
    check_done(&rt, store.activate_key("1"), "activation");
    rows_hold(&rt, &mut store, &mut maker, SIGNING);
    let signature = store.sign(&mut maker, "1", b"m");
    check_bytes(
        &rt,
        signature,
        b"\x00\x00\x00\x00\x00\x00\x00\x02",
        "signing",
    );
    rows_hold(&rt, &mut store, &mut maker, ENDING);
    check_destroyed(&rt, &store, "1");
    add_pair(&rt, &mut store, &mut maker, "3", "4");
}

/// The public key 2, of 2,048 bits, with this name.
fn check_public(rt: &impl Abort, object: &Object, name: &str) {
    assert!(rt;
        object.object_type == ObjectType::PublicKey,
        "the object type"
    );
    assert!(rt; object.state == State::PreActive, "the state");
    assert_eq!(rt; object.name.as_str(), name, "the name");
    assert_eq!(rt; object.length, 2048, "the length");
    let key = b"\x00\x00\x00\x00\x00\x00\x00\x01\x02".as_slice();
    assert_eq!(rt; object.key.as_slice(), key, "the bytes");
}

/// The store renames the public key 2, and returns it.
fn check_renamed(rt: &impl Abort, store: &mut Store) {
    check_done(rt, store.rename_key("2", "other"), "a name");
    match store.get_key("2") {
        Ok(public) => check_public(rt, public, "other"),
        Err(_) => panic!(rt; "no key"),
    }
}

/// Texts that are no identifiers of the objects 1 and 2.
const NONE: &[&str] = &[
    "",
    "0",
    "3",
    "01",
    "+1",
    "1 ",
    "one",
    "99999999999999999999",
];

const ASKS: &[Ask] = &[
    Ask::Sign,
    Ask::Activate,
    Ask::Revoke,
    Ask::Destroy,
    Ask::Rename,
    Ask::Get,
];

/// The text names no object, whatever the call.
fn check_none(rt: &impl Abort, store: &mut Store, maker: &mut PlainMaker, id: &str) {
    assert!(rt; store.find(id).is_none(), "find {id}");
    for ask in ASKS {
        let refused = refusal(store, maker, *ask, id);
        assert!(rt; refused == Some(ItemNotFound), "{id}");
    }
}

fn check_all_none(rt: &impl Abort, store: &mut Store, maker: &mut PlainMaker, ids: &[&str]) {
    for id in ids {
        check_none(rt, store, maker, id);
    }
}

#[test]
fn a_pair_is_found_by_its_identifiers_alone(rt: HostRuntime) {
    let mut store = Store::new(rt.alloc());
    let mut maker = PlainMaker::new(rt.alloc());
    add_pair(&rt, &mut store, &mut maker, "1", "2");
    check_all_none(&rt, &mut store, &mut maker, NONE);
    check_renamed(&rt, &mut store);
    check_pair(&rt, store.next_identifiers(), "3", "4");
}

#[test]
fn random_bytes_are_those_of_their_number(rt: HostRuntime) {
    let mut store = Store::new(rt.alloc());
    let mut maker = PlainMaker::new(rt.alloc());
    let three = store.rng_retrieve(&mut maker, 3);
    check_bytes(&rt, three, b"\x01\x01\x01", "three bytes");
    let none = store.rng_retrieve(&mut maker, -1);
    check_bytes(&rt, none, b"", "fewer than none");
}

/// Why the store refuses to make a pair.
fn pair_refusal(store: &mut Store, maker: &mut MemoryMaker) -> Option<StoreError> {
    store.create_rsa_key_pair(maker, 2048, "priv", "pub").err()
}

/// The maker refuses to make a pair, and the store has so many objects then.
fn check_pair_refused(rt: &impl Abort, store: &mut Store, maker: &mut MemoryMaker, objects: usize) {
    let refused = pair_refusal(store, maker);
    assert!(rt; refused == Some(CryptographicFailure), "a pair");
    assert_eq!(rt; store.len(), objects, "objects");
}

/// The maker refuses a pair, since bytes are next, and then these, as planned.
fn check_refusals(rt: &impl Abort, alloc: Global, maker: &mut MemoryMaker) {
    let pair = maker.key_pair(alloc, 2048).err();
    assert!(rt;
        pair == Some(MakerError::Fault),
        "an answer of another kind"
    );
    let bytes = maker.random(alloc, 2).err();
    assert!(rt; bytes == Some(MakerError::Fault), "a planned refusal");
}

/// The store makes a pair and a signature of the planned answers that are next.
fn check_planned(rt: &impl Abort, store: &mut Store, maker: &mut MemoryMaker) {
    assert!(rt; pair_refusal(store, maker).is_none(), "the pair");
    check_done(rt, store.activate_key("1"), "activation");
    let signature = store.sign(maker, "1", b"m");
    check_bytes(rt, signature, b"s", "the signature");
}

/// What a maker makes that refuses its second call.
const ANSWERS: &[Answer] = &[
    Answer::Bytes(b"ab"),
    Answer::Pair(b"x", b"y"),
    Answer::Bytes(b"s"),
];

#[test]
fn a_refusal_uses_up_no_planned_answer_and_adds_no_object(rt: HostRuntime) {
    let mut maker = maker_of(&rt, rt.alloc(), ANSWERS, &[1]);
    let mut store = Store::new(rt.alloc());
    check_refusals(&rt, rt.alloc(), &mut maker);
    check_pair_refused(&rt, &mut store, &mut maker, 0);
    check_bytes(&rt, store.rng_retrieve(&mut maker, 2), b"ab", "the bytes");
    check_planned(&rt, &mut store, &mut maker);
    check_pair_refused(&rt, &mut store, &mut maker, 2);
}
