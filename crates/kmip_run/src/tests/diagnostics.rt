//! Calls with their diagnostics, and diagnostics that are explained.
use super::Row;

/// Calls with their diagnostics.
pub const DIAGNOSTICS: &[Row] = &[
    Row {
        shows: "the bytes end within a head and within contents",
        words: &["replay", "diag"],
        script: b"rng 16 42007B01000000\nrng 16 42007B0100000090\nrng 16 <OK2(25, C2 xDEADBEEF)>\n",
        written: "> <REQ2(25, C4 i16)>\n>~ 78[77[69[6Ai6Bi]0Di]0F[5Ce25:79[C4i]]]\n<~ !\n- Response read error: end of input\n> <REQ2(25, C4 i16)>\n>~ 78[77[69[6Ai6Bi]0Di]0F[5Ce25:79[C4i]]]\n<~ 7B[!\n- Response read error: end of input\n> <REQ2(25, C4 i16)>\n>~ 78[77[69[6Ai6Bi]0Di]0F[5Ce25:79[C4i]]]\n<~ 7B[7A[69[6Ai6Bi]92d0Di]0F[5Ce25:7Fe0:7C[C2x]]]\n= {random_bytes=x\"DEADBEEF\"}\n",
        status: 1,
    },
    Row {
        shows: "a key is destroyed",
        words: &["replay", "diag"],
        script: b"destroy k1 -\n",
        written: "> <REQ0(14, 94 \"k1\")>\n>~ 78[77[69[6Ai6Bi]0Di]0F[5Ce14:79[94t]]]\n<~ \n- Response read error: end of input\n",
        status: 1,
    },
    Row {
        shows: "the length of a text is not shown",
        words: &["replay", "diag"],
        script: b"destroy k22 -\n",
        written: "> <REQ0(14, 94 \"k22\")>\n>~ 78[77[69[6Ai6Bi]0Di]0F[5Ce14:79[94t]]]\n<~ \n- Response read error: end of input\n",
        status: 1,
    },
    Row {
        shows: "a key is made active",
        words: &["replay", "diag"],
        script: b"activate k1 -\n",
        written: "> <REQ0(12, 94 \"k1\")>\n>~ 78[77[69[6Ai6Bi]0Di]0F[5Ce12:79[94t]]]\n<~ \n- Response read error: end of input\n",
        status: 1,
    },
    Row {
        shows: "the length of bytes is not shown",
        words: &["replay", "diag"],
        script: b"rng 16 <OK2(25, C2 xABABABABABABABABABABABABABABABABABABABABABABABABABABABABABABABABABABABABABABABABABABAB)>\n",
        written: "> <REQ2(25, C4 i16)>\n>~ 78[77[69[6Ai6Bi]0Di]0F[5Ce25:79[C4i]]]\n<~ 7B[7A[69[6Ai6Bi]92d0Di]0F[5Ce25:7Fe0:7C[C2x]]]\n= {random_bytes=x\"ABABABABABABABABABABABABABABABABABABABABABABABABABABABABABABABABABABABABABABABABABABAB\"}\n",
        status: 0,
    },
    Row {
        shows: "the bytes end within a header",
        words: &["replay", "diag"],
        script: b"rng 16 42007B010000009042007A01000000484200690100000020\n",
        written: "> <REQ2(25, C4 i16)>\n>~ 78[77[69[6Ai6Bi]0Di]0F[5Ce25:79[C4i]]]\n<~ 7B[7A[69[!\n- Response read error: end of input\n",
        status: 1,
    },
];

/// Diagnostics that are explained, and lines that are none.
pub const EXPLAINED: &[Row] = &[
    Row {
        shows: "an attribute",
        words: &["explain"],
        script: b"08[0At0Be4:]\n",
        written: "Tag: Attribute (0x420008), Type: Structure (0x01), Data: \n  Tag: Attribute Name (0x42000A), Type: TextString (0x07), Data: <redacted>\n  Tag: Attribute Value (0x42000B), Type: Enumeration (0x05), Data: 4\n",
        status: 0,
    },
    Row {
        shows: "a request with a credential",
        words: &["explain"],
        script: b"78[77[69[6Ai6Bi]0C[23[24e1:25[99tA1t]]]0Di]0F[5Ce8:79[08[0At0Be4:]]]]\n",
        written: "Tag: Request Message (0x420078), Type: Structure (0x01), Data: \n  Tag: Request Header (0x420077), Type: Structure (0x01), Data: \n    Tag: Protocol Version (0x420069), Type: Structure (0x01), Data: \n      Tag: Protocol Version Major (0x42006A), Type: Integer (0x02), Data: <redacted>\n      Tag: Protocol Version Minor (0x42006B), Type: Integer (0x02), Data: <redacted>\n    Tag: Authentication (0x42000C), Type: Structure (0x01), Data: \n      Tag: Credential (0x420023), Type: Structure (0x01), Data: \n        Tag: Credential Type (0x420024), Type: Enumeration (0x05), Data: 1\n        Tag: Credential Value (0x420025), Type: Structure (0x01), Data: \n          Tag: Username (0x420099), Type: TextString (0x07), Data: <redacted>\n          Tag: Password (0x4200A1), Type: TextString (0x07), Data: <redacted>\n    Tag: Batch Count (0x42000D), Type: Integer (0x02), Data: <redacted>\n  Tag: Batch Item (0x42000F), Type: Structure (0x01), Data: \n    Tag: Operation (0x42005C), Type: Enumeration (0x05), Data: 8\n    Tag: Request Payload (0x420079), Type: Structure (0x01), Data: \n      Tag: Attribute (0x420008), Type: Structure (0x01), Data: \n        Tag: Attribute Name (0x42000A), Type: TextString (0x07), Data: <redacted>\n        Tag: Attribute Value (0x42000B), Type: Enumeration (0x05), Data: 4\n",
        status: 0,
    },
    Row {
        shows: "an open bracket",
        words: &["explain"],
        script: b"78[\n",
        written: "! line 1\n",
        status: 2,
    },
    Row {
        shows: "the last tag that has a name",
        words: &["explain"],
        script: b"420124t\n",
        written: "Tag: Replace Existing (0x420124), Type: TextString (0x07), Data: <redacted>\n",
        status: 0,
    },
    Row {
        shows: "a name with two spaces",
        words: &["explain"],
        script: b"1Bt\n",
        written: "Tag: Certificate Subject  Alternative Name (0x42001B), Type: TextString (0x07), Data: <redacted>\n",
        status: 0,
    },
    Row {
        shows: "a tag after the last that has a name",
        words: &["explain"],
        script: b"420125t\n",
        written: "Tag: Unknown (0x420125), Type: TextString (0x07), Data: <redacted>\n",
        status: 0,
    },
    Row {
        shows: "a tag with six digits",
        words: &["explain"],
        script: b"420108t\n",
        written: "Tag: Certificate Subject CN (0x420108), Type: TextString (0x07), Data: <redacted>\n",
        status: 0,
    },
    Row {
        shows: "a tag of an extension",
        words: &["explain"],
        script: b"540001t\n",
        written: "Tag: Unknown (0x540001), Type: TextString (0x07), Data: <redacted>\n",
        status: 0,
    },
    Row {
        shows: "six digits where two are due",
        words: &["explain"],
        script: b"420094t\n",
        written: "! line 1\n",
        status: 2,
    },
    Row {
        shows: "a number with a leading zero",
        words: &["explain"],
        script: b"24e01:\n",
        written: "! line 1\n",
        status: 2,
    },
];
