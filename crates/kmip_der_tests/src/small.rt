//! Small DER, written by hand.
use kmip_der::{rsa_private, rsa_public};

/// DER of two numbers, with the bits of the first where it is a public key of PKCS#1.
const NUMBERS: &[(&str, &str, Option<u128>)] = &[
    ("a modulus of 8 bits", "300702020085020103", Some(8)),
    ("of 7 bits", "3006020145020103", Some(7)),
    ("of 9 bits", "300702020100020103", Some(9)),
    ("zero", "3006020100020103", Some(0)),
    ("a negative modulus", "3006020185020103", None),
    ("a negative exponent", "3006020145020183", None),
    ("a zero too many", "300702020045020103", None),
    ("a number of no bytes", "30050200020103", None),
    ("one number", "3003020145", None),
    ("three numbers", "3009020145020103020105", None),
    ("a byte behind", "300602014502010300", None),
    ("a byte too few", "30060201450201", None),
    ("a length of two bytes", "308106020145020103", None),
    ("of three", "30820006020145020103", None),
    ("of no end", "30800201450201030000", None),
    ("a set", "3106020145020103", None),
    ("nothing", "", None),
];

#[test]
fn numbers_are_not_negative_and_in_the_fewest_bytes(rt: HostRuntime) {
    for (name, digits, bits) in NUMBERS {
        let der = hex::decode(rt.alloc(), *digits).expect(&rt, *name);
        let found = rsa_public(&der).map(|known| known.len);
        assert!(rt; found == *bits, "{name}");
    }
}

/// A private key of the numbers 1 to 8, or with fewer or more.
const PARTS: &[(&str, &str, bool)] = &[
    (
        "eight numbers",
        "301B020100020101020102020103020104020105020106020107020108",
        true,
    ),
    (
        "seven",
        "3018020100020101020102020103020104020105020106020107",
        false,
    ),
    (
        "nine",
        "301E020100020101020102020103020104020105020106020107020108020109",
        false,
    ),
    (
        "the version 1",
        "301B020101020101020102020103020104020105020106020107020108",
        false,
    ),
    (
        "one is negative",
        "301B0201000201010201020201030201040201050201060201070201FF",
        false,
    ),
];

#[test]
fn a_private_key_has_eight_numbers(rt: HostRuntime) {
    for (name, digits, is_one) in PARTS {
        let der = hex::decode(rt.alloc(), *digits).expect(&rt, *name);
        assert!(rt; rsa_private(&der).is_some() == *is_one, "{name}");
        assert!(rt; rsa_public(&der).is_none(), "{name}");
    }
}
