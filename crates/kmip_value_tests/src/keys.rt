use crate::support::Under::{Nothing, Number};
use crate::support::{Case, are_read, blob, has_no_form, is_copied};
use kmip_keys::{KeyMaterial, TransparentRSAPublicKey};
use kmip_shape::WriteItem;
use kmip_tags::tags::KEY_MATERIAL;
use kmip_wire::TryClone;
use std::alloc::Global;
use std::process::Abort;

/// By the number of the format.
const MATERIALS: &[Case] = &[
    Case {
        under: Number(1),
        notation: "43 xAA",
        shown: Some("Bytes(x\"AA\")"),
        json: Some(r#"{"Bytes":"AA"}"#),
    },
    Case {
        under: Number(5),
        notation: "43 xAA",
        shown: Some("Bytes(x\"AA\")"),
        json: None,
    },
    Case {
        under: Number(6),
        notation: "43 xAA",
        shown: Some("Bytes(x\"AA\")"),
        json: None,
    },
    Case {
        under: Number(7),
        notation: "43 xAA",
        shown: None,
        json: None,
    },
    Case {
        under: Number(14),
        notation: "43 xAA",
        shown: None,
        json: None,
    },
    Case {
        under: Nothing,
        notation: "43 xAA",
        shown: None,
        json: None,
    },
    Case {
        under: Number(7),
        notation: "43{3F xAABB}",
        shown: Some("TransparentSymmetricKey{key=x\"AABB\"}"),
        json: Some(r#"{"TransparentSymmetricKey":{"key":"AABB"}}"#),
    },
    Case {
        under: Number(8),
        notation: "43{3F xAABB}",
        shown: None,
        json: None,
    },
    Case {
        under: Number(1),
        notation: "43{3F xAABB}",
        shown: None,
        json: None,
    },
    Case {
        under: Number(8),
        notation: "43{5E b0000000000000017,71 b000000000000000B,37 b0000000000000004,9F b0000000000000005}",
        shown: Some(
            "TransparentDSAPrivateKey{p=x\"0000000000000017\",q=x\"000000000000000B\",g=x\"0000000000000004\",x=x\"0000000000000005\"}",
        ),
        json: None,
    },
    Case {
        under: Number(9),
        notation: "43{5E b0000000000000017,71 b000000000000000B,37 b0000000000000004,A0 b000000000000000C}",
        shown: Some(
            "TransparentDSAPublicKey{p=x\"0000000000000017\",q=x\"000000000000000B\",g=x\"0000000000000004\",y=x\"000000000000000C\"}",
        ),
        json: None,
    },
    Case {
        under: Number(10),
        notation: "43{52 b0000000000C5A1B3,63 b0000000000000007,27 b0000000000000009}",
        shown: Some(
            "TransparentRSAPrivateKey{modulus=x\"0000000000C5A1B3\",private_exponent=x\"0000000000000007\",crt_coefficient=x\"0000000000000009\"}",
        ),
        json: None,
    },
    Case {
        under: Number(11),
        notation: "43{52 b0000000000C5A1B3,6C b0000000000010001}",
        shown: Some(
            "TransparentRSAPublicKey{modulus=x\"0000000000C5A1B3\",public_exponent=x\"0000000000010001\"}",
        ),
        json: None,
    },
    Case {
        under: Number(12),
        notation: "43{5E b0000000000000017,37 b0000000000000004,9F b0000000000000005}",
        shown: Some(
            "TransparentDHPrivateKey{p=x\"0000000000000017\",g=x\"0000000000000004\",x=x\"0000000000000005\"}",
        ),
        json: None,
    },
    Case {
        under: Number(13),
        notation: "43{5E b0000000000000017,71 b000000000000000B,37 b0000000000000004,3E b0000000000000002,A0 b000000000000000C}",
        shown: Some(
            "TransparentDHPublicKey{p=x\"0000000000000017\",q=x\"000000000000000B\",g=x\"0000000000000004\",j=x\"0000000000000002\",y=x\"000000000000000C\"}",
        ),
        json: None,
    },
    Case {
        under: Number(11),
        notation: "43{52 x0000000000C5A1B3,6C b0000000000010001}",
        shown: None,
        json: None,
    },
];

#[test]
fn materials_by_their_format(rt: HostRuntime) {
    are_read::<KeyMaterial>(&rt, rt.alloc(), MATERIALS);
}

#[test]
fn without_a_form(rt: HostRuntime) {
    let alloc = rt.alloc();
    // a Big Integer of seven bytes
    let modulus = blob(&rt, alloc, b"\x00\x00\x00\x00\xC5\xA1\xB3");
    let public_exponent = blob(&rt, alloc, b"\x00\x00\x00\x00\x00\x01\x00\x01");
    let key = TransparentRSAPublicKey {
        modulus,
        public_exponent,
    };
    has_no_form(&rt, &key, KEY_MATERIAL);
    drop(key);
}

/// Neither has a form, the second has a copy, and they differ.
fn are_two<T: WriteItem + TryClone + PartialEq + Drop>(
    rt: &impl Abort,
    alloc: Global,
    first: T,
    second: T,
) {
    assert!(rt; first != second);
    has_no_form(rt, &first, KEY_MATERIAL);
    has_no_form(rt, &second, KEY_MATERIAL);
    is_copied(rt, alloc, &second);
}

#[test]
fn material_of_no_format(rt: HostRuntime) {
    let alloc = rt.alloc();
    let structure = KeyMaterial::Structure(blob(&rt, alloc, b"\xAA"));
    let wrapped = KeyMaterial::Wrapped(blob(&rt, alloc, b"\xAA"));
    are_two::<KeyMaterial>(&rt, alloc, structure, wrapped);
}
