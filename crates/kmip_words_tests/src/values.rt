//! Single values of an answer, by their paths. Responses stand in the notation of kmip_test_messages.
use crate::support::answered;
use kmip_wire::Text;
use kmip_words::value_at;
use std::alloc::Global;
use std::process::Abort;

/// A response to `rng 4`.
const RANDOM: &str = "OK2(25, C2 xDEADBEEF)";

/// A response to `discover`: 1.2 and 1.0.
const VERSIONS: &str = "OK1(1E, 69{6A i1,6B i2},69{6A i1,6B i0})";

/// A call, a response to it, a path and whether it leads to hex, and the value there.
#[derive(Clone, Copy)]
struct ValueRow {
    call: &'static str,
    response: &'static str,
    path: &'static str,
    hex: bool,
    value: &'static [u8],
}

/// Bytes of an answer.
const BYTES: ValueRow = ValueRow {
    call: "rng 4",
    response: RANDOM,
    path: "random_bytes",
    hex: true,
    value: &[0xDE, 0xAD, 0xBE, 0xEF],
};

/// A number of an answer.
const NUMBER: ValueRow = ValueRow {
    call: "discover",
    response: VERSIONS,
    path: "supported_versions.0.minor",
    hex: false,
    value: b"2",
};

/// Values that an answer has.
const FOUND: &[ValueRow] = &[
    BYTES,
    NUMBER,
    ValueRow {
        hex: false,
        value: b"DEADBEEF",
        ..BYTES
    },
    ValueRow {
        path: "supported_versions.1.minor",
        value: b"0",
        ..NUMBER
    },
    // the text of the answer, not the one that an unknown item, a header item or another field has
    ValueRow {
        call: "get k1",
        response: "OK0(A, 57 e2,54FFFF\"x\",94\"k1\",8F{40{42 e1,45{43 x0AFF},28 e3,2A i16}})",
        path: "unique_identifier",
        hex: false,
        value: b"k1",
    },
    ValueRow {
        call: "get k1",
        response: "OK0(A, 57 e2,94\"k1\",8F{40{42 e1,45{43 x0AFF},28 e3,2A i16}})",
        path: "cryptographic_object.SymmetricKey.key_block.key_value.key_material.Bytes",
        value: &[0x0A, 0xFF],
        ..BYTES
    },
    ValueRow {
        call: "attributes a\"%01",
        response: "OK0(B, 94\"a\\\"\\x01\",08{0A\"x-flag\",0B o1})",
        path: "unique_identifier",
        hex: false,
        value: b"a\"\x01",
    },
    ValueRow {
        call: "attributes k1",
        response: "OK0(B, 94\"k1\",08{0A\"x-flag\",0B o1})",
        path: "attributes.0.value.Boolean",
        hex: false,
        value: b"true",
    },
    ValueRow {
        call: "rng 0",
        response: "OK2(25, C2 x)",
        value: b"",
        ..BYTES
    },
];

/// Paths to no value, and errors, whose rows have no value.
const NOT_FOUND: &[ValueRow] = &[
    ValueRow { path: "", ..BYTES },
    ValueRow {
        path: "answer.random_bytes",
        ..BYTES
    },
    ValueRow {
        path: "random_bytes.0",
        ..BYTES
    },
    ValueRow {
        path: "random_bytes.",
        ..BYTES
    },
    // an error, and its text
    ValueRow {
        call: "query",
        ..BYTES
    },
    ValueRow {
        call: "query",
        path: "text",
        hex: false,
        ..BYTES
    },
    // a list, an object, and what is no index in the list
    ValueRow {
        path: "supported_versions",
        ..NUMBER
    },
    ValueRow {
        path: "supported_versions.0",
        ..NUMBER
    },
    ValueRow {
        path: "supported_versions.2.minor",
        ..NUMBER
    },
    ValueRow {
        path: "supported_versions.00.minor",
        ..NUMBER
    },
    // a number is no hex
    ValueRow {
        hex: true,
        ..NUMBER
    },
    // an answer about another object
    ValueRow {
        call: "sign k1 00",
        response: "OK2(21, 94\"k2\",C3 x0102)",
        path: "signature_data",
        ..BYTES
    },
];

/// What the answer of a row has at its path.
fn found(rt: &impl Abort, alloc: Global, row: &ValueRow) -> Option<Vec<u8>> {
    let mut line = Text::new(alloc);
    answered(rt, alloc, row.call, row.response, &mut line);
    value_at(alloc, row.path, row.hex, line.as_str()).expect(rt, "memory")
}

#[test]
fn values_are_found_by_their_paths(rt: HostRuntime) {
    for row in FOUND {
        let value = found(&rt, rt.alloc(), row).expect(&rt, row.path);
        assert!(rt; value.as_slice() == row.value, "{}", row.path);
    }
}

#[test]
fn paths_to_no_value_are_refused(rt: HostRuntime) {
    for row in NOT_FOUND {
        let value = found(&rt, rt.alloc(), row);
        assert!(rt; value.is_none(), "{}", row.path);
    }
}
