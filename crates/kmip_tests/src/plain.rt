//! Values of one item, and lists: each read, shown, written and copied once.
use crate::helpers::{is_copied, is_plain, text};
use kmip_enums::ObjectType;
use kmip_shape::{BigInteger, Timestamp, copy_optional_list};
use kmip_types::{AttributeValue, CryptographicParameters, Values};
use kmip_wire::{Blob, List, Text};
use std::alloc::Global;
use std::process::Abort;

#[test]
fn plain_values(rt: HostRuntime) {
    let alloc = rt.alloc();
    let notation = "09 i-5";
    is_plain::<i32>(&rt, alloc, notation, "-5");
    let notation = "0B l-5";
    is_plain::<i64>(&rt, alloc, notation, "-5");
    let notation = "26 o1";
    is_plain::<bool>(&rt, alloc, notation, "true");
    let notation = "92 d5";
    is_plain::<u64>(&rt, alloc, notation, "5");
    let notation = "49 n5";
    is_plain::<u32>(&rt, alloc, notation, "5");
    let notation = "92 d5";
    is_plain::<Timestamp>(&rt, alloc, notation, "5");
    let notation = "94 \"a\"";
    is_plain::<Text>(&rt, alloc, notation, "\"a\"");
    let notation = "C2 xAA";
    is_plain::<Blob>(&rt, alloc, notation, "x\"AA\"");
    let notation = "52 b0000000000000005";
    is_plain::<BigInteger>(&rt, alloc, notation, "x\"0000000000000005\"");
    let notation = "57 e2";
    is_plain::<ObjectType>(&rt, alloc, notation, "SymmetricKey");
    let notation = "2B{11 e1}";
    is_plain::<CryptographicParameters>(&rt, alloc, notation, "{block_cipher_mode=CBC}");
}

/// A list of one value.
fn list<T: Drop>(rt: &impl Abort, alloc: Global, value: T) -> List<T> {
    let mut list = List::new(alloc);
    list.push(value).expect(rt, "memory");
    list
}

/// The members of a custom structure.
fn members(rt: &impl Abort, alloc: Global) -> Values {
    let mut members = Values::new(alloc);
    members
        .push(AttributeValue::Integer(5))
        .expect(rt, "memory");
    members
}

#[test]
fn copies(rt: HostRuntime) {
    let alloc = rt.alloc();
    let members = members(&rt, alloc);
    is_copied::<Values>(&rt, alloc, &members);
    drop(members);
    let texts = list(&rt, alloc, text(&rt, alloc, "a"));
    is_copied::<List<Text>>(&rt, alloc, &texts);
    is_copied::<Text>(&rt, alloc, texts.get(0).expect(&rt, "a text"));
    drop(texts);
    let types = Some(list(&rt, alloc, ObjectType::SymmetricKey));
    let copied = copy_optional_list(&types, alloc).expect(&rt, "memory");
    assert!(&rt; copied == types);
    drop(copied);
    drop(types);
}
