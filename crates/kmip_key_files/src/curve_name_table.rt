// Written by tables/generate.py from tables/*.toml: change these instead.
//! The usual names of the curves that KMIP recommends.
use crate::curve_names::Named;

/// The names of KMIP 1.2, of openssl and of SEC 2, in the order of their numbers.
pub(crate) const NAMES: &[Named] = &[
    Named {
        name: b"P-192",
        number: 1,
    },
    Named {
        name: b"prime192v1",
        number: 1,
    },
    Named {
        name: b"secp192r1",
        number: 1,
    },
    Named {
        name: b"K-163",
        number: 2,
    },
    Named {
        name: b"sect163k1",
        number: 2,
    },
    Named {
        name: b"B-163",
        number: 3,
    },
    Named {
        name: b"sect163r2",
        number: 3,
    },
    Named {
        name: b"P-224",
        number: 4,
    },
    Named {
        name: b"secp224r1",
        number: 4,
    },
    Named {
        name: b"K-233",
        number: 5,
    },
    Named {
        name: b"sect233k1",
        number: 5,
    },
    Named {
        name: b"B-233",
        number: 6,
    },
    Named {
        name: b"sect233r1",
        number: 6,
    },
    Named {
        name: b"P-256",
        number: 7,
    },
    Named {
        name: b"prime256v1",
        number: 7,
    },
    Named {
        name: b"secp256r1",
        number: 7,
    },
    Named {
        name: b"K-283",
        number: 8,
    },
    Named {
        name: b"sect283k1",
        number: 8,
    },
    Named {
        name: b"B-283",
        number: 9,
    },
    Named {
        name: b"sect283r1",
        number: 9,
    },
    Named {
        name: b"P-384",
        number: 10,
    },
    Named {
        name: b"secp384r1",
        number: 10,
    },
    Named {
        name: b"K-409",
        number: 11,
    },
    Named {
        name: b"sect409k1",
        number: 11,
    },
    Named {
        name: b"B-409",
        number: 12,
    },
    Named {
        name: b"sect409r1",
        number: 12,
    },
    Named {
        name: b"P-521",
        number: 13,
    },
    Named {
        name: b"secp521r1",
        number: 13,
    },
    Named {
        name: b"K-571",
        number: 14,
    },
    Named {
        name: b"sect571k1",
        number: 14,
    },
    Named {
        name: b"B-571",
        number: 15,
    },
    Named {
        name: b"sect571r1",
        number: 15,
    },
    Named {
        name: b"SECP112R1",
        number: 16,
    },
    Named {
        name: b"secp112r1",
        number: 16,
    },
    Named {
        name: b"SECP112R2",
        number: 17,
    },
    Named {
        name: b"secp112r2",
        number: 17,
    },
    Named {
        name: b"SECP128R1",
        number: 18,
    },
    Named {
        name: b"secp128r1",
        number: 18,
    },
    Named {
        name: b"SECP128R2",
        number: 19,
    },
    Named {
        name: b"secp128r2",
        number: 19,
    },
    Named {
        name: b"SECP160K1",
        number: 20,
    },
    Named {
        name: b"secp160k1",
        number: 20,
    },
    Named {
        name: b"SECP160R1",
        number: 21,
    },
    Named {
        name: b"secp160r1",
        number: 21,
    },
    Named {
        name: b"SECP160R2",
        number: 22,
    },
    Named {
        name: b"secp160r2",
        number: 22,
    },
    Named {
        name: b"SECP192K1",
        number: 23,
    },
    Named {
        name: b"secp192k1",
        number: 23,
    },
    Named {
        name: b"SECP224K1",
        number: 24,
    },
    Named {
        name: b"secp224k1",
        number: 24,
    },
    Named {
        name: b"SECP256K1",
        number: 25,
    },
    Named {
        name: b"secp256k1",
        number: 25,
    },
    Named {
        name: b"SECT113R1",
        number: 26,
    },
    Named {
        name: b"sect113r1",
        number: 26,
    },
    Named {
        name: b"SECT113R2",
        number: 27,
    },
    Named {
        name: b"sect113r2",
        number: 27,
    },
    Named {
        name: b"SECT131R1",
        number: 28,
    },
    Named {
        name: b"sect131r1",
        number: 28,
    },
    Named {
        name: b"SECT131R2",
        number: 29,
    },
    Named {
        name: b"sect131r2",
        number: 29,
    },
    Named {
        name: b"SECT163R1",
        number: 30,
    },
    Named {
        name: b"sect163r1",
        number: 30,
    },
    Named {
        name: b"SECT193R1",
        number: 31,
    },
    Named {
        name: b"sect193r1",
        number: 31,
    },
    Named {
        name: b"SECT193R2",
        number: 32,
    },
    Named {
        name: b"sect193r2",
        number: 32,
    },
    Named {
        name: b"SECT239K1",
        number: 33,
    },
    Named {
        name: b"sect239k1",
        number: 33,
    },
    Named {
        name: b"ANSIX9P192V2",
        number: 34,
    },
    Named {
        name: b"prime192v2",
        number: 34,
    },
    Named {
        name: b"ANSIX9P192V3",
        number: 35,
    },
    Named {
        name: b"prime192v3",
        number: 35,
    },
    Named {
        name: b"ANSIX9P239V1",
        number: 36,
    },
    Named {
        name: b"prime239v1",
        number: 36,
    },
    Named {
        name: b"ANSIX9P239V2",
        number: 37,
    },
    Named {
        name: b"prime239v2",
        number: 37,
    },
    Named {
        name: b"ANSIX9P239V3",
        number: 38,
    },
    Named {
        name: b"prime239v3",
        number: 38,
    },
    Named {
        name: b"ANSIX9C2PNB163V1",
        number: 39,
    },
    Named {
        name: b"c2pnb163v1",
        number: 39,
    },
    Named {
        name: b"ANSIX9C2PNB163V2",
        number: 40,
    },
    Named {
        name: b"c2pnb163v2",
        number: 40,
    },
    Named {
        name: b"ANSIX9C2PNB163V3",
        number: 41,
    },
    Named {
        name: b"c2pnb163v3",
        number: 41,
    },
    Named {
        name: b"ANSIX9C2PNB176V1",
        number: 42,
    },
    Named {
        name: b"c2pnb176v1",
        number: 42,
    },
    Named {
        name: b"ANSIX9C2TNB191V1",
        number: 43,
    },
    Named {
        name: b"c2tnb191v1",
        number: 43,
    },
    Named {
        name: b"ANSIX9C2TNB191V2",
        number: 44,
    },
    Named {
        name: b"c2tnb191v2",
        number: 44,
    },
    Named {
        name: b"ANSIX9C2TNB191V3",
        number: 45,
    },
    Named {
        name: b"c2tnb191v3",
        number: 45,
    },
    Named {
        name: b"ANSIX9C2PNB208W1",
        number: 46,
    },
    Named {
        name: b"c2pnb208w1",
        number: 46,
    },
    Named {
        name: b"ANSIX9C2TNB239V1",
        number: 47,
    },
    Named {
        name: b"c2tnb239v1",
        number: 47,
    },
    Named {
        name: b"ANSIX9C2TNB239V2",
        number: 48,
    },
    Named {
        name: b"c2tnb239v2",
        number: 48,
    },
    Named {
        name: b"ANSIX9C2TNB239V3",
        number: 49,
    },
    Named {
        name: b"c2tnb239v3",
        number: 49,
    },
    Named {
        name: b"ANSIX9C2PNB272W1",
        number: 50,
    },
    Named {
        name: b"c2pnb272w1",
        number: 50,
    },
    Named {
        name: b"ANSIX9C2PNB304W1",
        number: 51,
    },
    Named {
        name: b"c2pnb304w1",
        number: 51,
    },
    Named {
        name: b"ANSIX9C2TNB359V1",
        number: 52,
    },
    Named {
        name: b"c2tnb359v1",
        number: 52,
    },
    Named {
        name: b"ANSIX9C2PNB368W1",
        number: 53,
    },
    Named {
        name: b"c2pnb368w1",
        number: 53,
    },
    Named {
        name: b"ANSIX9C2TNB431R1",
        number: 54,
    },
    Named {
        name: b"c2tnb431r1",
        number: 54,
    },
    Named {
        name: b"BRAINPOOLP160R1",
        number: 55,
    },
    Named {
        name: b"brainpoolP160r1",
        number: 55,
    },
    Named {
        name: b"BRAINPOOLP160T1",
        number: 56,
    },
    Named {
        name: b"brainpoolP160t1",
        number: 56,
    },
    Named {
        name: b"BRAINPOOLP192R1",
        number: 57,
    },
    Named {
        name: b"brainpoolP192r1",
        number: 57,
    },
    Named {
        name: b"BRAINPOOLP192T1",
        number: 58,
    },
    Named {
        name: b"brainpoolP192t1",
        number: 58,
    },
    Named {
        name: b"BRAINPOOLP224R1",
        number: 59,
    },
    Named {
        name: b"brainpoolP224r1",
        number: 59,
    },
    Named {
        name: b"BRAINPOOLP224T1",
        number: 60,
    },
    Named {
        name: b"brainpoolP224t1",
        number: 60,
    },
    Named {
        name: b"BRAINPOOLP256R1",
        number: 61,
    },
    Named {
        name: b"brainpoolP256r1",
        number: 61,
    },
    Named {
        name: b"BRAINPOOLP256T1",
        number: 62,
    },
    Named {
        name: b"brainpoolP256t1",
        number: 62,
    },
    Named {
        name: b"BRAINPOOLP320R1",
        number: 63,
    },
    Named {
        name: b"brainpoolP320r1",
        number: 63,
    },
    Named {
        name: b"BRAINPOOLP320T1",
        number: 64,
    },
    Named {
        name: b"brainpoolP320t1",
        number: 64,
    },
    Named {
        name: b"BRAINPOOLP384R1",
        number: 65,
    },
    Named {
        name: b"brainpoolP384r1",
        number: 65,
    },
    Named {
        name: b"BRAINPOOLP384T1",
        number: 66,
    },
    Named {
        name: b"brainpoolP384t1",
        number: 66,
    },
    Named {
        name: b"BRAINPOOLP512R1",
        number: 67,
    },
    Named {
        name: b"brainpoolP512r1",
        number: 67,
    },
    Named {
        name: b"BRAINPOOLP512T1",
        number: 68,
    },
    Named {
        name: b"brainpoolP512t1",
        number: 68,
    },
];
