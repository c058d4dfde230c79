//! Diagnostics and their expansions, in rows worked out by hand: bytes or a text, and what is to be
//! printed for them.
use crate::support::bytes_of;
use kmip_diag::{DiagError, PrettyPrinter};
use std::alloc::Global;
use std::process::Abort;

/// A response of random bytes, as two servers send it: with 4 and with 43 of them.
const RESPONSE: &str = concat!(
    "42007B010000009042007A0100000048420069010000002042006A02000000040000000100000000",
    "42006B020000000400000002000000004200920900000008000000000000000142000D0200000004",
    "000000010000000042000F010000003842005C0500000004000000250000000042007F0500000004",
    "000000000000000042007C01000000104200C20800000004DEADBEEF00000000",
);

const LONGER_RESPONSE: &str = concat!(
    "42007B01000000B842007A0100000048420069010000002042006A02000000040000000100000000",
    "42006B020000000400000002000000004200920900000008000000000000000142000D0200000004",
    "000000010000000042000F010000006042005C0500000004000000250000000042007F0500000004",
    "000000000000000042007C01000000384200C2080000002BABABABABABABABABABABABABABABABAB",
    "ABABABABABABABABABABABABABABABABABABABABABABABABABABAB0000000000",
);

/// A request with a credential, and an item with one of each type.
const REQUEST: &str = concat!(
    "42007801000000D84200770100000080420069010000002042006A02000000040000000100000000",
    "42006B0200000004000000000000000042000C010000004042002301000000384200240500000004",
    "000000010000000042002501000000204200990700000005616C6963650000004200A10700000006",
    "736563726574000042000D0200000004000000010000000042000F010000004842005C0500000004",
    "00000008000000004200790100000030420008010000002842000A070000000B4F626A6563742054",
    "797065000000000042000B05000000040000000400000000",
);

const KINDS: &str = concat!(
    "42007C01000000985400020200000004000000010000000054000303000000080000000000000005",
    "5400040400000008001122334455667754000505000000040000001F000000005400060600000008",
    "0000000000000001540007070000000261620000000000005400080800000003AABBCC0000000000",
    "5400090900000008000000000000000154000A0A000000040000003C0000000042007C0100000000",
);

const CUT_OFF: &str = "42007C01000000084200940700000001";

/// A printer with this prefix, or none.
fn printer_with(prefix: Option<u16>) -> PrettyPrinter {
    let mut printer = PrettyPrinter::new();
    if let Some(prefix) = prefix {
        printer.with_tag_prefix(prefix);
    }
    printer
}

/// The prefix of KMIP's tags, which begin with 42.
const KMIP: Option<u16> = Some(0x4200);

/// What both responses are printed as.
const PRINTED_RESPONSE: &str = "7B[7A[69[6Ai6Bi]92d0Di]0F[5Ce25:7Fe0:7C[C2x]]]";

/// A prefix, bytes, how many of them are printed, and as what.
const PRINTED: &[(Option<u16>, &str, usize, &str)] = &[
    (KMIP, RESPONSE, 0, ""),
    (KMIP, RESPONSE, 7, "!"),
    (KMIP, RESPONSE, 8, "7B[!"),
    (KMIP, RESPONSE, 24, "7B[7A[69[!"),
    (KMIP, RESPONSE, 152, PRINTED_RESPONSE),
    (KMIP, LONGER_RESPONSE, 192, PRINTED_RESPONSE),
    (
        KMIP,
        REQUEST,
        224,
        "78[77[69[6Ai6Bi]0C[23[24e1:25[99tA1t]]]0Di]0F[5Ce8:79[08[0At0Be4:]]]]",
    ),
    (
        KMIP,
        KINDS,
        160,
        "7C[540002i540003l540004b540005e1F:540006o540007t540008x540009d54000An7C[]]",
    ),
    (KMIP, CUT_OFF, 16, "7C[!"),
    (None, CUT_OFF, 16, "42007C[!"),
    (Some(0x5400), CUT_OFF, 16, "42007C[!"),
];

/// The bytes have this diagnostic.
fn is_printed(rt: &impl Abort, alloc: Global, prefix: Option<u16>, front: &[u8], expected: &str) {
    let printer = printer_with(prefix);
    let text = printer.to_diag_string(alloc, front).expect(rt, "memory");
    assert_eq!(rt; text.as_str(), expected);
}

#[test]
fn bytes_have_their_diagnostics(rt: HostRuntime) {
    for (prefix, hex, size, expected) in PRINTED {
        let bytes = bytes_of(&rt, rt.alloc(), hex);
        let front = bytes.get(..*size).expect(&rt, "bytes");
        is_printed(&rt, rt.alloc(), *prefix, front, expected);
    }
}

/// A prefix, a text, and the lines that it expands to; none where it is no diagnostic.
const EXPANDED: &[(Option<u16>, &str, Option<&str>)] = &[
    (KMIP, "", Some("")),
    (
        KMIP,
        "08[0At0Be4:]",
        Some(
            "Tag: Attribute (0x420008), Type: Structure (0x01), Data: \n  Tag: Attribute Name (0x42000A), Type: TextString (0x07), Data: <redacted>\n  Tag: Attribute Value (0x42000B), Type: Enumeration (0x05), Data: 4\n",
        ),
    ),
    (None, "420094t", Some(UNIQUE_IDENTIFIER)),
    (Some(0x5400), "420094t", Some(UNIQUE_IDENTIFIER)),
    (KMIP, "420094t", None),
    (KMIP, "!", None),
    (KMIP, "7B[!", None),
    (KMIP, "7B]", None),
    (KMIP, "]", None),
    (KMIP, "24e1", None),
    (KMIP, "24e1:!", None),
    (KMIP, "7b[]", None),
    (KMIP, "94", None),
    (KMIP, "4200", None),
];

const UNIQUE_IDENTIFIER: &str =
    "Tag: Unique Identifier (0x420094), Type: TextString (0x07), Data: <redacted>\n";

/// The text expands to these lines, or is no diagnostic.
fn is_expanded(
    rt: &impl Abort,
    alloc: Global,
    prefix: Option<u16>,
    text: &str,
    expected: Option<&str>,
) {
    match printer_with(prefix).expand(alloc, text) {
        Ok(lines) => assert!(rt; expected == Some(lines.as_str()), "{text}"),
        Err(error) => {
            let is_refused = error == DiagError::NotADiagnostic;
            assert!(rt; is_refused && expected.is_none(), "{text}");
        }
    }
}

#[test]
fn printed_texts_expand(rt: HostRuntime) {
    for (prefix, text, expected) in EXPANDED {
        is_expanded(&rt, rt.alloc(), *prefix, text, *expected);
    }
}
