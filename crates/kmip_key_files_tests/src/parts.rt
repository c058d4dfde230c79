//! Keys that are told by their parts. The numbers are those of `openssl asn1parse`, as Big Integers
//! (KMIP 1.0, 9.1.1.4: their length is a multiple of eight bytes), and the files are openssl's.
use kmip_key_files::{Block, Label, Material, NoFile, RsaNumbers, WriteError, write_der};
use std::alloc::Global;
use std::process::Abort;

/// The numbers of a private key of RSA, and `openssl rsa -traditional`.
const RSA: [&str; 8] = [
    "0000000000000000BED9D57A755DBEB21EAB590A428268AE186AB61FF2D115FC1936D8D054ED1FEBCD50F260558B989218B8AA8D2117474AF03A6AB984314240E29F08905EFD9247",
    "0000000000010001",
    "6774A21A7DE0D16CB0DF65A70022BD2812A8560DBF8CC404228EEEBD102C726E697F06DAD2C948880354B70575D84C0292ADFD69BC18200381F14C28EF5E6C91",
    "0000000000000000F7115ED4C498B1D8785CD8F498C80AA735D87FD4DA24E09FD5D89022E4A7324D",
    "0000000000000000C5C02C02B66F01FBB4D184D26B4CC9B2A004D8252D02D3503E03E4BF14F7D8E3",
    "0000000000000000B643673CF9275813C47F6241D72FC3C424D1E943C205F07B994B60D18CF2D705",
    "5C4A35C00658847A6E87220FFA17DA424D403588141BAF77519A0B95CA3969B5",
    "626C68F24F7FF8E6607EEDC1CAC48D9D41ECDB9FD5F9A0CD61D14AE45CB7F58C",
];

const RSA_PRIVATE: &str =
    "3082013A020100024100BED9D57A755DBEB21EAB590A428268AE186AB61FF2D115FC1936D8D054ED1FEBCD50F260558B989218B8AA8D2117474AF03A6AB984314240E29F08905EFD9247020301000102406774A21A7DE0D16CB0DF65A70022BD2812A8560DBF8CC404228EEEBD102C726E697F06DAD2C948880354B70575D84C0292ADFD69BC18200381F14C28EF5E6C91022100F7115ED4C498B1D8785CD8F498C80AA735D87FD4DA24E09FD5D89022E4A7324D022100C5C02C02B66F01FBB4D184D26B4CC9B2A004D8252D02D3503E03E4BF14F7D8E3022100B643673CF9275813C47F6241D72FC3C424D1E943C205F07B994B60D18CF2D70502205C4A35C00658847A6E87220FFA17DA424D403588141BAF77519A0B95CA3969B50220626C68F24F7FF8E6607EEDC1CAC48D9D41ECDB9FD5F9A0CD61D14AE45CB7F58C";

const RSA_PUBLIC: &str =
    "3048024100BED9D57A755DBEB21EAB590A428268AE186AB61FF2D115FC1936D8D054ED1FEBCD50F260558B989218B8AA8D2117474AF03A6AB984314240E29F08905EFD92470203010001";

/// The number of a key of P-256, and `openssl ec -no_public`.
const NUMBER: &str =
    "0000000000000000E476B38A87EFE4D0DD2B60119AB9B5F8AB17DFF70FF4F580C8EE4414D7BA7821";

const EC_PRIVATE: &str =
    "30310201010420E476B38A87EFE4D0DD2B60119AB9B5F8AB17DFF70FF4F580C8EE4414D7BA7821A00A06082A8648CE3D030107";

/// A point of P-256, whole and compressed, and `openssl ec -pubin -conv_form`.
const POINTS: &[(&str, &str)] = &[
    (
        "04D19CDCDC6D37C988689AD3FE79E54C6B3F707F3712E86092B63A9CE523F04BC170345DD6D4E0CBDB8B81D49A42FA7C3655BFF2D853B1922144DB4AE213200D76",
        "3059301306072A8648CE3D020106082A8648CE3D03010703420004D19CDCDC6D37C988689AD3FE79E54C6B3F707F3712E86092B63A9CE523F04BC170345DD6D4E0CBDB8B81D49A42FA7C3655BFF2D853B1922144DB4AE213200D76",
    ),
    (
        "02D19CDCDC6D37C988689AD3FE79E54C6B3F707F3712E86092B63A9CE523F04BC1",
        "3039301306072A8648CE3D020106082A8648CE3D03010703220002D19CDCDC6D37C988689AD3FE79E54C6B3F707F3712E86092B63A9CE523F04BC1",
    ),
];

fn decoded(rt: &impl Abort, alloc: Global, digits: &str) -> Vec<u8> {
    hex::decode(alloc, digits).expect(rt, "hex")
}

/// The file of a key of this type.
fn is_written(
    rt: &impl Abort,
    alloc: Global,
    object_type: u32,
    material: Material<'_>,
    label: Label,
    digits: &str,
) {
    let block = Block {
        object_type,
        is_wrapped: false,
        material,
    };
    let file = write_der(alloc, &block).expect(rt, "a file");
    let wanted = decoded(rt, alloc, digits);
    assert!(rt; file.label == label, "{digits}");
    assert!(rt; file.der.as_slice() == wanted.as_slice(), "{digits}");
}

/// There is no file, and this is why.
fn is_refused(
    rt: &impl Abort,
    alloc: Global,
    object_type: u32,
    material: Material<'_>,
    why: NoFile,
) {
    let block = Block {
        object_type,
        is_wrapped: false,
        material,
    };
    match write_der(alloc, &block) {
        Ok(_) => assert!(rt; false, "{why:?}"),
        Err(error) => assert!(rt; error == WriteError::NoFile(why), "{why:?}"),
    }
}

/// The numbers of RSA, of which one may be left out or be another.
fn rsa_numbers<'a>(numbers: [&'a [u8]; 8]) -> RsaNumbers<'a> {
    let [modulus, e, d, p, q, dp, dq, crt] = numbers;
    RsaNumbers {
        modulus,
        public_exponent: Some(e),
        private_exponent: Some(d),
        p: Some(p),
        q: Some(q),
        prime_exponent_p: Some(dp),
        prime_exponent_q: Some(dq),
        crt_coefficient: Some(crt),
    }
}

#[test]
fn a_private_key_of_rsa(rt: HostRuntime) {
    let alloc = rt.alloc();
    let [n, e, d, p, q, dp, dq, crt] = RSA;
    let (n, e, d) = (
        decoded(&rt, alloc, n),
        decoded(&rt, alloc, e),
        decoded(&rt, alloc, d),
    );
    let (p, q) = (decoded(&rt, alloc, p), decoded(&rt, alloc, q));
    let (dp, dq) = (decoded(&rt, alloc, dp), decoded(&rt, alloc, dq));
    let crt = decoded(&rt, alloc, crt);
    let all = rsa_numbers([&n, &e, &d, &p, &q, &dp, &dq, &crt]);
    is_written(
        &rt,
        alloc,
        4,
        Material::RsaPrivate(all),
        Label::RsaPrivateKey,
        RSA_PRIVATE,
    );
    is_refused(
        &rt,
        alloc,
        3,
        Material::RsaPrivate(all),
        NoFile::OtherFormat,
    );
    let few = RsaNumbers { q: None, ..all };
    is_refused(&rt, alloc, 4, Material::RsaPrivate(few), NoFile::NoNumber);
    let negative = RsaNumbers {
        modulus: &[0xFF, 1],
        ..all
    };
    is_refused(
        &rt,
        alloc,
        4,
        Material::RsaPrivate(negative),
        NoFile::Negative,
    );
    let empty = RsaNumbers {
        q: Some(&[]),
        ..all
    };
    is_refused(&rt, alloc, 4, Material::RsaPrivate(empty), NoFile::NoBytes);
    let zero = RsaNumbers {
        modulus: &[0],
        ..all
    };
    is_refused(
        &rt,
        alloc,
        4,
        Material::RsaPrivate(zero),
        NoFile::OtherBytes,
    );
}

#[test]
fn a_public_key_of_rsa(rt: HostRuntime) {
    let alloc = rt.alloc();
    let [n, e, ..] = RSA;
    let (modulus, exponent) = (decoded(&rt, alloc, n), decoded(&rt, alloc, e));
    let key = Material::RsaPublic {
        modulus: &modulus,
        exponent: &exponent,
    };
    is_written(&rt, alloc, 3, key, Label::RsaPublicKey, RSA_PUBLIC);
    is_refused(&rt, alloc, 4, key, NoFile::OtherFormat);
    is_refused(&rt, alloc, 2, key, NoFile::OtherType);
    let negative = Material::RsaPublic {
        modulus: &modulus,
        exponent: &[0x80],
    };
    is_refused(&rt, alloc, 3, negative, NoFile::Negative);
    assert!(rt; modulus.len() > 8);
    let negative = Material::RsaPublic {
        modulus: &modulus[8..],
        exponent: &exponent,
    };
    is_refused(&rt, alloc, 3, negative, NoFile::Negative);
}

#[test]
fn a_private_key_of_a_curve(rt: HostRuntime) {
    let alloc = rt.alloc();
    let number = decoded(&rt, alloc, NUMBER);
    let key = Material::EcPrivate {
        curve: 7,
        number: &number,
    };
    is_written(&rt, alloc, 4, key, Label::EcPrivateKey, EC_PRIVATE);
    is_refused(&rt, alloc, 3, key, NoFile::OtherFormat);
    let narrow = Material::EcPrivate {
        curve: 4,
        number: &number,
    };
    is_refused(&rt, alloc, 4, narrow, NoFile::TooWide);
    let none = Material::EcPrivate {
        curve: 69,
        number: &number,
    };
    is_refused(&rt, alloc, 4, none, NoFile::NoCurve);
    let negative = Material::EcPrivate {
        curve: 7,
        number: &[0xFF; 8],
    };
    is_refused(&rt, alloc, 4, negative, NoFile::Negative);
    let empty = Material::EcPrivate {
        curve: 7,
        number: &[],
    };
    is_refused(&rt, alloc, 4, empty, NoFile::NoBytes);
}

#[test]
fn a_point(rt: HostRuntime) {
    let alloc = rt.alloc();
    for (point, digits) in POINTS {
        let point = decoded(&rt, alloc, *point);
        let key = Material::EcPublic {
            curve: 7,
            point: &point,
        };
        is_written(&rt, alloc, 3, key, Label::PublicKey, *digits);
        is_refused(&rt, alloc, 4, key, NoFile::OtherFormat);
        let other = Material::EcPublic {
            curve: 10,
            point: &point,
        };
        is_refused(&rt, alloc, 3, other, NoFile::NoPoint);
    }
}

/// What stands before 64 bytes that are no point of P-256: nothing, a zero, a zero too many, and 7.
const NO_POINTS: &[&str] = &["", "00", "0400", "07"];

#[test]
fn no_point(rt: HostRuntime) {
    let alloc = rt.alloc();
    for digits in NO_POINTS {
        let mut point = decoded(&rt, alloc, *digits);
        point.extend_from_slice(&[1; 64]).expect(&rt, "memory");
        let key = Material::EcPublic {
            curve: 7,
            point: &point,
        };
        is_refused(&rt, alloc, 3, key, NoFile::NoPoint);
    }
    let empty = Material::EcPublic {
        curve: 7,
        point: &[],
    };
    is_refused(&rt, alloc, 3, empty, NoFile::NoPoint);
}
