//! Keys written by their parts are those that openssl wrote of them.
use kmip_der::{curve_numbered, point_der, rsa_private_der, rsa_public_der, sec1_der, size_of};
use std::alloc::Global;
use std::process::Abort;

/// The modulus and the exponent of a key, as a Big Integer has them, and `openssl rsa -RSAPublicKey_out`.
const RSA: (&str, &str, &str) = (
    "00AC6504B904F476F7285F12A629D195B1B228EB3B7C0AB1F8217B2846D3AC23D5C026E8097AB53C16582196D60DA6E4FFB5339571E10320A63EC18467B710B55B",
    "010001",
    "3048024100AC6504B904F476F7285F12A629D195B1B228EB3B7C0AB1F8217B2846D3AC23D5C026E8097AB53C16582196D60DA6E4FFB5339571E10320A63EC18467B710B55B0203010001",
);

#[test]
fn a_public_key_is_written(rt: HostRuntime) {
    let modulus = hex::decode(rt.alloc(), RSA.0).expect(&rt, "hex");
    let exponent = hex::decode(rt.alloc(), RSA.1).expect(&rt, "hex");
    let wanted = hex::decode(rt.alloc(), RSA.2).expect(&rt, "hex");
    assert!(rt; modulus.len() < 1000);
    assert!(rt; exponent.len() < 1000);
    let der = rsa_public_der(rt.alloc(), &modulus, &exponent).expect(&rt, "memory");
    assert!(rt; der.as_slice() == wanted.as_slice());
}

/// PKCS#1 begins with its version, 0: two numbers stand behind it (DER by hand, X.690, 8.3 and 8.9).
#[test]
fn numbers_of_a_private_key_are_written(rt: HostRuntime) {
    let der = rsa_private_der(rt.alloc(), &[&[0, 3], &[0x85]]).expect(&rt, "memory");
    let wanted = [0x30, 0x0A, 2, 1, 0, 2, 1, 3, 2, 2, 0, 0x85];
    assert!(rt; der.as_slice() == wanted.as_slice());
}

/// The number of a curve, the number of a key, and `openssl ec -no_public`.
const NUMBERS: &[(u32, &str, &str)] = &[
    (
        7,
        "750D76BEEF147C1E5591BB8433E88ACDA15348D12E879B1B51E2B263C072D1D3",
        "30310201010420750D76BEEF147C1E5591BB8433E88ACDA15348D12E879B1B51E2B263C072D1D3A00A06082A8648CE3D030107",
    ),
    (
        5,
        "6060652796EB3AA2F8D94446AD54B6D3AAA502E7697F766D2BDEF5C2F9",
        "302B020101041D6060652796EB3AA2F8D94446AD54B6D3AAA502E7697F766D2BDEF5C2F9A00706052B8104001A",
    ),
    (
        7,
        "01",
        "303102010104200000000000000000000000000000000000000000000000000000000000000001A00A06082A8648CE3D030107",
    ),
];

/// A private key of a curve is written so.
fn number_is_written(rt: &impl Abort, alloc: Global, curve: u32, number: &str, text: &str) {
    let curve = curve_numbered(curve).expect(rt, "a curve");
    let number = hex::decode(alloc, number).expect(rt, "hex");
    let wanted = hex::decode(alloc, text).expect(rt, "hex");
    assert!(rt; curve.name.len() < 128);
    assert!(rt; size_of(&number) <= curve.octets as usize);
    let der = sec1_der(alloc, curve, &number).expect(rt, "memory");
    assert!(rt; der.as_slice() == wanted.as_slice(), "{text}");
}

#[test]
fn numbers_are_written(rt: HostRuntime) {
    for (curve, number, text) in NUMBERS {
        number_is_written(&rt, rt.alloc(), *curve, *number, *text);
    }
}

/// A point of P-256, and `openssl ec -pubout`.
const POINT: (&str, &str) = (
    "04483E7D99AA51ACBA1D93DD756B71C78BC23B0143660B8242AE061D44D5F939BECD3643C752611358EF34514AF401711D254B0BECC47DA5E9BB74D276EF9FCC96",
    "3059301306072A8648CE3D020106082A8648CE3D03010703420004483E7D99AA51ACBA1D93DD756B71C78BC23B0143660B8242AE061D44D5F939BECD3643C752611358EF34514AF401711D254B0BECC47DA5E9BB74D276EF9FCC96",
);

#[test]
fn a_point_is_written(rt: HostRuntime) {
    let curve = curve_numbered(7).expect(&rt, "a curve");
    let point = hex::decode(rt.alloc(), POINT.0).expect(&rt, "hex");
    let wanted = hex::decode(rt.alloc(), POINT.1).expect(&rt, "hex");
    assert!(rt; curve.name.len() < 128);
    assert!(rt; point.len() < 1000);
    let der = point_der(rt.alloc(), curve, &point).expect(&rt, "memory");
    assert!(rt; der.as_slice() == wanted.as_slice());
}
