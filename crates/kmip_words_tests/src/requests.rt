//! Calls with options, and their requests. Requests stand in the notation of kmip_test_messages.
use crate::support::{bytes_of, call_if_any, call_of, plain};
use kmip_words::request_of;
use std::alloc::Global;
use std::process::Abort;

/// A call with options, and its request.
#[derive(Clone, Copy)]
struct Asked {
    call: &'static str,
    request: &'static str,
}

/// What each option puts into a request, by the tables of KMIP 1.2, 4 and 9.1.3.2.
const ASKED: &[Asked] = &[
    Asked {
        call: "sign k1 00AA",
        request: r#"REQ2(21, 94 "k1",2B{5F e8,38 e6,28 e4},C2 x00AA)"#,
    },
    Asked {
        call: "sign k1 00AA padding=PSS hash=SHA384",
        request: r#"REQ2(21, 94 "k1",2B{5F eA,38 e7,28 e4},C2 x00AA)"#,
    },
    Asked {
        call: "sign k1 00AA prehashed algorithm=AES",
        request: r#"REQ2(21, 94 "k1",2B{5F e8,28 e3},C2 x00AA)"#,
    },
    Asked {
        call: "revoke k1 reason=KeyCompromise message=lost%20it since=1700000000",
        request: r#"REQ0(13, 94 "k1",81{82 e2,80 "lost it"},21 d1700000000)"#,
    },
    Asked {
        call: "revoke k1 since=0",
        request: r#"REQ0(13, 94 "k1",81{82 e6},21 d0)"#,
    },
    Asked {
        call: "get k1 format=PKCS8",
        request: r#"REQ0(A, 94 "k1",42 e4)"#,
    },
    Asked {
        call: "get k1 wrap=k2 format=Raw",
        request: r#"REQ0(A, 94 "k1",42 e1,47{9E e1,36{94 "k2",2B{11 eD}}})"#,
    },
    Asked {
        call: "locate k1",
        request: r#"REQ0(8, 08{0A "Name",0B{55 "k1",54 e1}})"#,
    },
    Asked {
        call: "locate",
        request: "REQ0(8, )",
    },
    Asked {
        call: "locate state=Active",
        request: r#"REQ0(8, 08{0A "Name",0B{55 "state=Active",54 e1}})"#,
    },
    Asked {
        call: "locate where state=Active",
        request: r#"REQ0(8, 08{0A "State",0B e2})"#,
    },
    Asked {
        call: "locate name=a%3Db state=Active type=PrivateKey",
        request: r#"REQ0(8, 08{0A "Name",0B{55 "a=b",54 e1}},08{0A "State",0B e2},08{0A "Object Type",0B e4})"#,
    },
    Asked {
        call: "locate length=256 algorithm=AES group=g contact=me activation=60",
        request: r#"REQ0(8, 08{0A "Cryptographic Length",0B i256},08{0A "Cryptographic Algorithm",0B e3},08{0A "Object Group",0B "g"},08{0A "Contact Information",0B "me"},08{0A "Activation Date",0B d60})"#,
    },
    Asked {
        call: "attributes k1 State x-a",
        request: r#"REQ0(B, 94 "k1",0A "State",0A "x-a")"#,
    },
    Asked {
        call: "attribute-add k1 group=g",
        request: r#"REQ0(D, 94 "k1",08{0A "Object Group",0B "g"})"#,
    },
    Asked {
        call: "attribute-modify k1 name=new index=1",
        request: r#"REQ0(E, 94 "k1",08{0A "Name",09 i1,0B{55 "new",54 e1}})"#,
    },
    Asked {
        call: "attribute-modify k2 contact=me",
        request: r#"REQ0(E, 94 "k2",08{0A "Contact Information",0B "me"})"#,
    },
    Asked {
        call: "attribute-delete k1 Name",
        request: r#"REQ0(F, 94 "k1",0A "Name")"#,
    },
    Asked {
        call: "attribute-delete k1 x-a index=-1",
        request: r#"REQ0(F, 94 "k1",0A "x-a",09 i-1)"#,
    },
    Asked {
        call: "create AES 256 k1",
        request: r#"REQ0(1, 57 e2,91{08{0A "Name",0B{55 "k1",54 e1}},08{0A "Cryptographic Usage Mask",0B i12},08{0A "Cryptographic Algorithm",0B e3},08{0A "Cryptographic Length",0B i256}})"#,
    },
    Asked {
        call: "create AES 128 k1 usage=MACGenerate,MACVerify,CRLSign,MacGenerate",
        request: r#"REQ0(1, 57 e2,91{08{0A "Name",0B{55 "k1",54 e1}},08{0A "Cryptographic Usage Mask",0B i8576},08{0A "Cryptographic Algorithm",0B e3},08{0A "Cryptographic Length",0B i128}})"#,
    },
    Asked {
        call: "register private CC format=PKCS1 algorithm=RSA length=2048 usage=CRLSign",
        request: r#"REQ0(3, 57 e4,91{08{0A "Cryptographic Usage Mask",0B i8192}},64{40{42 e3,45{43 xCC},28 e4,2A i2048}})"#,
    },
    Asked {
        call: "attribute-add k1 activation=9223372036854775807",
        request: r#"REQ0(D, 94 "k1",08{0A "Activation Date",0B d9223372036854775807})"#,
    },
    Asked {
        call: "locate where activation=4294967296",
        request: r#"REQ0(8, 08{0A "Activation Date",0B d4294967296})"#,
    },
    Asked {
        call: "create TRIPLE_DES 168 k1 usage=WrapKey,UnwrapKey",
        request: r#"REQ0(1, 57 e2,91{08{0A "Name",0B{55 "k1",54 e1}},08{0A "Cryptographic Usage Mask",0B i48},08{0A "Cryptographic Algorithm",0B e2},08{0A "Cryptographic Length",0B i168}})"#,
    },
    Asked {
        call: "create-rsa 2048 a b public-usage=Verify,Encrypt",
        request: r#"REQ0(2, 1F{08{0A "Cryptographic Algorithm",0B e4},08{0A "Cryptographic Length",0B i2048}},65{08{0A "Name",0B{55 "a",54 e1}},08{0A "Cryptographic Usage Mask",0B i1}},6E{08{0A "Name",0B{55 "b",54 e1}},08{0A "Cryptographic Usage Mask",0B i6}})"#,
    },
    Asked {
        call: "register symmetric 00FF format=Raw algorithm=AES length=16 name=k usage=Encrypt",
        request: r#"REQ0(3, 57 e2,91{08{0A "Cryptographic Usage Mask",0B i4},08{0A "Name",0B{55 "k",54 e1}}},8F{40{42 e1,45{43 x00FF},28 e3,2A i16}})"#,
    },
    Asked {
        call: "register private CC format=PKCS1 algorithm=RSA length=2048",
        request: r#"REQ0(3, 57 e4,91{},64{40{42 e3,45{43 xCC},28 e4,2A i2048}})"#,
    },
    Asked {
        call: "register public CC length=2048 format=X509 algorithm=RSA name=p",
        request: r#"REQ0(3, 57 e3,91{08{0A "Name",0B{55 "p",54 e1}}},6D{40{42 e5,45{43 xCC},28 e4,2A i2048}})"#,
    },
];

/// The call's request is the one of its row.
fn is_asked(rt: &impl Abort, alloc: Global, row: &Asked) {
    let call = call_of(rt, alloc, row.call);
    let request = request_of(alloc, &plain(), &call)
        .expect(rt, "memory")
        .expect(rt, "a request");
    let expected = bytes_of(rt, alloc, row.request);
    assert!(rt; request.as_slice() == expected.as_slice(), "{}", row.call);
}

#[test]
fn options_are_asked_for(rt: HostRuntime) {
    for row in ASKED {
        is_asked(&rt, rt.alloc(), row);
    }
}

/// Calls that are none: an option that the call has not, one that is given twice, and a value that
/// is none of the option's.
const NO_CALLS: &[&str] = &[
    "sign k1 00 reason=Superseded",
    "sign k1 00 hash=SHA256 hash=SHA384",
    "sign k1 00 hash=sha384",
    "sign k1 00 hash=",
    "sign k1 00 padding=None2",
    "sign k1 00 prehashed2",
    "sign k1 00 prehashed prehashed",
    "sign k1 0 hash=SHA384",
    "sign k1 hash=SHA384",
    "revoke k1 KeyCompromise",
    "revoke k1 reason=1",
    "revoke k1 since=-1",
    "revoke k1 since=9223372036854775808",
    "locate where activation=99999999999999999999",
    "revoke k1 since=2023-11-14",
    "revoke k1 message=%F",
    "get k1 format=PKCS_8",
    "get k1 wrap=%FF",
    "get k1 k2",
    "locate where color=red",
    "locate where name=a=b",
    "locate state=Active k1",
    "locate where length=many",
    "locate where type=Key",
    "locate where where state=Active",
    "sign k1 00 prehashed hash=SHA256",
    "sign - 00",
    "attribute-modify - contact=me",
    "get k1 wrap=-",
    "attributes k1 %",
    "attribute-add k1",
    "attribute-add k1 group=g group=h",
    "attribute-add k1 group",
    "attribute-modify k1 group=g index=x",
    "attribute-delete k1",
    "attribute-delete k1 Name Name",
    "activate k1 reason=Superseded",
    "create AES 256",
    "create HMAC 256 k1",
    "create AES 256 k1 usage=encrypt",
    "create AES 256 k1 usage=Encrypt,",
    "create AES many k1",
    "create-rsa 2048 a b usage=Sign",
    "register symmetric 00FF format=Raw algorithm=AES",
    "register symmetric 0 format=Raw algorithm=AES length=16",
    "register certificate 00 format=X509 algorithm=RSA length=16",
    "register",
];

#[test]
fn other_options_are_refused(rt: HostRuntime) {
    for line in NO_CALLS {
        let call = call_if_any(&rt, rt.alloc(), line);
        assert!(rt; call.is_none(), "{line}");
    }
}
