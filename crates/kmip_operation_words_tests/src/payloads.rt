//! The payload of calls. Items stand in the notation of kmip_test_messages, written by hand from
//! KMIP's tables.
use crate::support::{asked, called};
use kmip_client::Version;
use kmip_enums::Operation;
use kmip_operation_words::{operation_row, takes_bytes};
use kmip_test_messages::message;
use kmip_wire::write_tree;
use std::alloc::Global;
use std::process::Abort;
use std::rt::HostRuntime;

struct Row {
    words: &'static str,
    operation: Operation,
    payload: &'static str,
}

const ABOUT_DATA: &[Row] = &[
    Row {
        words: "encrypt 5 68656C6C6F",
        operation: Operation::Encrypt,
        payload: "79{94 \"5\",C2 x68656C6C6F}",
    },
    Row {
        words: "encrypt 5 68656C6C6F mode=CBC padding=PKCS5 iv=00112233445566778899AABBCCDDEEFF",
        operation: Operation::Encrypt,
        payload: "79{94 \"5\",2B{11 e1,5F e3},C2 x68656C6C6F,3D x00112233445566778899AABBCCDDEEFF}",
    },
    Row {
        words: "encrypt 5 - initial-counter=1 counter-length=32 invocation-field-length=64 fixed-field-length=32 tag-length=16 iv-length=96 random-iv=true algorithm=AES role=KEK mode=GCM",
        operation: Operation::Encrypt,
        payload: "79{94 \"5\",2B{11 e9,83 eB,28 e3,C5 o1,CD i96,CE i16,CF i32,D2 i64,D0 i32,D1 i1},C2 x}",
    },
    Row {
        words: "decrypt k%201 00FF mode=CTR random-iv=false iv=0102",
        operation: Operation::Decrypt,
        payload: "79{94 \"k 1\",2B{11 e6,C5 o0},C2 x00FF,3D x0102}",
    },
    Row {
        words: "mac 7 00FF algorithm=HMAC_SHA256",
        operation: Operation::MAC,
        payload: "79{94 \"7\",2B{28 e9},C2 x00FF}",
    },
    Row {
        words: "mac-verify 7 00FF ABCD hash=SHA256",
        operation: Operation::MACVerify,
        payload: "79{94 \"7\",2B{38 e6},C2 x00FF,C6 xABCD}",
    },
    Row {
        words: "verify 9 00FF ABCD padding=PSS hash=SHA_256",
        operation: Operation::SignatureVerify,
        payload: "79{94 \"9\",2B{5F eA,38 e6},C2 x00FF,C3 xABCD}",
    },
    Row {
        words: "verify 9 00FF ABCD signature-algorithm=ECDSAWithSHA256",
        operation: Operation::SignatureVerify,
        payload: "79{94 \"9\",2B{AE eE},C2 x00FF,C3 xABCD}",
    },
    Row {
        words: "hash 616263 hash=SHA_1",
        operation: Operation::Hash,
        payload: "79{2B{38 e4},C2 x616263}",
    },
    Row {
        words: "rng-seed 00010203",
        operation: Operation::RNGSeed,
        payload: "79{C2 x00010203}",
    },
];

const NEW_OBJECTS: &[Row] = &[
    Row {
        words: "derive-key 3 PBKDF2 hash=SHA256 salt=0011 iterations=1000 algorithm=AES length=256 usage=Encrypt,Decrypt name=k2",
        operation: Operation::DeriveKey,
        payload: "79{57 e2,94 \"3\",31 e1,32{2B{38 e6},84 x0011,3C i1000},91{08{0A \"Cryptographic Algorithm\",0B e3},08{0A \"Cryptographic Length\",0B i256},08{0A \"Cryptographic Usage Mask\",0B i12},08{0A \"Name\",0B{55 \"k2\",54 e1}}}}",
    },
    Row {
        words: "derive-key 3 HMAC length=128 hash=SHA_512 data=AB type=SecretData",
        operation: Operation::DeriveKey,
        payload: "79{57 e7,94 \"3\",31 e3,32{2B{38 e8},30 xAB},91{08{0A \"Cryptographic Length\",0B i128}}}",
    },
    Row {
        words: "derive-key 3 ENCRYPT length=256 algorithm=AES iv=000102030405060708090A0B0C0D0E0F data=00FF cipher=AES padding=PKCS5 mode=CBC",
        operation: Operation::DeriveKey,
        payload: "79{57 e2,94 \"3\",31 e4,32{2B{11 e1,5F e3,28 e3},3A x000102030405060708090A0B0C0D0E0F,30 x00FF},91{08{0A \"Cryptographic Algorithm\",0B e3},08{0A \"Cryptographic Length\",0B i256}}}",
    },
    Row {
        words: "derive-key 3 ENCRYPT length=64 iterations=2 salt=01 iv=- cipher=DES3 hash=MD5 padding=None mode=ECB type=SecretData data=-",
        operation: Operation::DeriveKey,
        payload: "79{57 e7,94 \"3\",31 e4,32{2B{11 e2,5F e1,38 e3,28 e2},3A x,30 x,84 x01,3C i2},91{08{0A \"Cryptographic Length\",0B i64}}}",
    },
    Row {
        words: "derive-key 3 HMAC also=k%204 hash=SHA_256 length=128",
        operation: Operation::DeriveKey,
        payload: "79{57 e2,94 \"3\",94 \"k 4\",31 e3,32{2B{38 e6}},91{08{0A \"Cryptographic Length\",0B i128}}}",
    },
    Row {
        words: "derive-key 3 HASH length=256 hash=SHA256",
        operation: Operation::DeriveKey,
        payload: "79{57 e2,94 \"3\",31 e2,32{2B{38 e6}},91{08{0A \"Cryptographic Length\",0B i256}}}",
    },
    Row {
        words: "derive-key 3 HASH length=256 data=AB",
        operation: Operation::DeriveKey,
        payload: "79{57 e2,94 \"3\",31 e2,32{30 xAB},91{08{0A \"Cryptographic Length\",0B i256}}}",
    },
    Row {
        words: "derive-key 3 HASH also=3 length=256",
        operation: Operation::DeriveKey,
        payload: "79{57 e2,94 \"3\",94 \"3\",31 e2,32{},91{08{0A \"Cryptographic Length\",0B i256}}}",
    },
    Row {
        words: "rekey 4",
        operation: Operation::Rekey,
        payload: "79{94 \"4\"}",
    },
    Row {
        words: "rekey 4 offset=60",
        operation: Operation::Rekey,
        payload: "79{94 \"4\",58 n60}",
    },
    Row {
        words: "rekey-pair 4",
        operation: Operation::RekeyKeyPair,
        payload: "79{66 \"4\"}",
    },
    Row {
        words: "certify 8",
        operation: Operation::Certify,
        payload: "79{94 \"8\"}",
    },
    Row {
        words: "certify 8 request=3000 request-type=PKCS_10 name=c",
        operation: Operation::Certify,
        payload: "79{94 \"8\",19 e2,18 x3000,91{08{0A \"Name\",0B{55 \"c\",54 e1}}}}",
    },
    Row {
        words: "recertify 8 offset=0",
        operation: Operation::Recertify,
        payload: "79{94 \"8\",58 n0}",
    },
    Row {
        words: "create-ec P_256 a b",
        operation: Operation::CreateKeyPair,
        payload: "79{1F{08{0A \"Cryptographic Algorithm\",0B e6},08{0A \"Cryptographic Domain Parameters\",0B{75 e7}}},65{08{0A \"Name\",0B{55 \"a\",54 e1}},08{0A \"Cryptographic Usage Mask\",0B i1}},6E{08{0A \"Name\",0B{55 \"b\",54 e1}},08{0A \"Cryptographic Usage Mask\",0B i2}}}",
    },
    Row {
        words: "create-ec P_384 a b algorithm=ECDH length=384 private-usage=KeyAgreement public-usage=KeyAgreement",
        operation: Operation::CreateKeyPair,
        payload: "79{1F{08{0A \"Cryptographic Algorithm\",0B eE},08{0A \"Cryptographic Length\",0B i384},08{0A \"Cryptographic Domain Parameters\",0B{75 eA}}},65{08{0A \"Name\",0B{55 \"a\",54 e1}},08{0A \"Cryptographic Usage Mask\",0B i2048}},6E{08{0A \"Name\",0B{55 \"b\",54 e1}},08{0A \"Cryptographic Usage Mask\",0B i2048}}}",
    },
    Row {
        words: "create-pair DSA 2048 a b",
        operation: Operation::CreateKeyPair,
        payload: "79{1F{08{0A \"Cryptographic Algorithm\",0B e5},08{0A \"Cryptographic Length\",0B i2048}},65{08{0A \"Name\",0B{55 \"a\",54 e1}},08{0A \"Cryptographic Usage Mask\",0B i1}},6E{08{0A \"Name\",0B{55 \"b\",54 e1}},08{0A \"Cryptographic Usage Mask\",0B i2}}}",
    },
    Row {
        words: "create-key HMAC_SHA256 256 m usage=MACGenerate,MACVerify,CRLSign",
        operation: Operation::Create,
        payload: "79{57 e2,91{08{0A \"Cryptographic Algorithm\",0B e9},08{0A \"Cryptographic Length\",0B i256},08{0A \"Name\",0B{55 \"m\",54 e1}},08{0A \"Cryptographic Usage Mask\",0B i8576}}}",
    },
    Row {
        words: "create-key HMAC_SHA256 256 m usage=MacGenerate,MacVerify",
        operation: Operation::Create,
        payload: "79{57 e2,91{08{0A \"Cryptographic Algorithm\",0B e9},08{0A \"Cryptographic Length\",0B i256},08{0A \"Name\",0B{55 \"m\",54 e1}},08{0A \"Cryptographic Usage Mask\",0B i384}}}",
    },
];

const OTHERS: &[Row] = &[
    Row {
        words: "check 5 lease=60 usage=Sign count=2",
        operation: Operation::Check,
        payload: "79{94 \"5\",96 l2,2C i1,49 n60}",
    },
    Row {
        words: "attribute-list 5",
        operation: Operation::GetAttributeList,
        payload: "79{94 \"5\"}",
    },
    Row {
        words: "lease 5",
        operation: Operation::ObtainLease,
        payload: "79{94 \"5\"}",
    },
    Row {
        words: "usage-allocation 5 9223372036854775807",
        operation: Operation::GetUsageAllocation,
        payload: "79{94 \"5\",96 l9223372036854775807}",
    },
    Row {
        words: "check 5 count=4294967296",
        operation: Operation::Check,
        payload: "79{94 \"5\",96 l4294967296}",
    },
    Row {
        words: "usage-allocation 5 4294967295",
        operation: Operation::GetUsageAllocation,
        payload: "79{94 \"5\",96 l4294967295}",
    },
    Row {
        words: "archive 5",
        operation: Operation::Archive,
        payload: "79{94 \"5\"}",
    },
    Row {
        words: "recover 5",
        operation: Operation::Recover,
        payload: "79{94 \"5\"}",
    },
    Row {
        words: "validate 5",
        operation: Operation::Validate,
        payload: "79{94 \"5\"}",
    },
    Row {
        words: "validate 5 6 mode=CBC",
        operation: Operation::Validate,
        payload: "79{94 \"5\",94 \"6\",94 \"mode=CBC\"}",
    },
    Row {
        words: "cancel 0A0B",
        operation: Operation::Cancel,
        payload: "79{06 x0A0B}",
    },
    Row {
        words: "poll 0A0B",
        operation: Operation::Poll,
        payload: "79{06 x0A0B}",
    },
];

/// The words of a row ask for its operation, with its payload.
fn is_asked(rt: &impl Abort, alloc: Global, row: &Row) {
    let (operation, payload) = asked(rt, alloc, row.words).expect(rt, row.words);
    assert!(rt; operation == row.operation, "{}", row.words);
    let bytes = write_tree(alloc, &payload).expect(rt, "a wire form");
    let wanted = message(alloc, row.payload).expect(rt, "the notation of messages");
    assert!(rt; bytes.as_slice() == wanted.as_slice(), "{}", row.words);
    drop(payload);
}

#[test]
fn payloads_of_data(rt: HostRuntime) {
    let alloc = rt.alloc();
    for row in ABOUT_DATA {
        is_asked(&rt, alloc, row);
    }
}

#[test]
fn payloads_of_new_objects(rt: HostRuntime) {
    let alloc = rt.alloc();
    for row in NEW_OBJECTS {
        is_asked(&rt, alloc, row);
    }
}

#[test]
fn payloads_of_others(rt: HostRuntime) {
    let alloc = rt.alloc();
    for row in OTHERS {
        is_asked(&rt, alloc, row);
    }
}

/// The words `rekey 4` with this ID are its call, of KMIP 1.2.
fn is_called(rt: &impl Abort, alloc: Global, id: Option<&[u8]>) {
    let call = called(rt, alloc, "rekey 4", id).expect(rt, "a call");
    assert!(rt; call.operation == Operation::Rekey);
    assert!(rt; call.version == Version::V1_2);
    let is_same = match (&call.id, id) {
        (Some(had), Some(id)) => had.as_slice() == id,
        (None, None) => true,
        _ => false,
    };
    assert!(rt; is_same);
    let bytes = write_tree(alloc, &call.payload).expect(rt, "a wire form");
    let wanted = message(alloc, "79{94 \"4\"}").expect(rt, "the notation of messages");
    assert!(rt; bytes.as_slice() == wanted.as_slice());
    drop(call);
}

#[test]
fn a_call_has_its_version_and_id(rt: HostRuntime) {
    let alloc = rt.alloc();
    is_called(&rt, alloc, None);
    let id: &[u8] = b"\x01\x02";
    is_called(&rt, alloc, Some(id));
    assert!(rt; called(&rt, alloc, "rekey", None).is_none());
}

/// Whether each word of a call gives bytes, by the call's name.
const BYTES: &[(&str, &[bool])] = &[
    ("encrypt", &[false, true, false]),
    ("mac-verify", &[false, true, true, false]),
    ("verify", &[false, true, true, false]),
    ("hash", &[true, false]),
    ("derive-key", &[false, false, false]),
    ("rekey", &[false, false]),
    ("rng-seed", &[true, false]),
    ("poll", &[true, false]),
];

#[test]
fn words_that_give_bytes(rt: HostRuntime) {
    for (name, wanted) in BYTES {
        let row = operation_row(name).expect(&rt, name);
        for (index, wanted) in wanted.iter().enumerate() {
            assert!(rt; takes_bytes(row, index) == *wanted, "{name} {index}");
        }
    }
}
