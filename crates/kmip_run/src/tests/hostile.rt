//! Responses of a hostile server.
use super::Row;

/// False lengths, pads that are not zero, and a script that is no text.
pub const HOSTILE: &[Row] = &[
    Row {
        shows: "a length of nearly 2^32, without a limit",
        words: &["replay"],
        script: b"rng 16 42007B01FFFFFFF8\n",
        written: "> <REQ2(25, C4 i16)>\n- Response read error: end of input\n",
        status: 1,
    },
    Row {
        shows: "a length of nearly 2^32, over the greatest limit",
        words: &["replay", "limit=4294967295"],
        script: b"rng 16 42007B01FFFFFFF8\n",
        written: "> <REQ2(25, C4 i16)>\n- Deserialize error: response size 4294967296 exceeds limit 4294967295\n",
        status: 1,
    },
    Row {
        shows: "an item one byte longer, into its pad",
        words: &["replay"],
        script: b"rng 16 <OK2(25, C2 xDEADBEEF00)>\n",
        written: "> <REQ2(25, C4 i16)>\n= {random_bytes=x\"DEADBEEF00\"}\n",
        status: 0,
    },
    Row {
        shows: "an item past the end of its structure",
        words: &["replay"],
        script: b"rng 16 <OK2(25, !4200C20800000009DEADBEEF00000000)>\n",
        written: "> <REQ2(25, C4 i16)>\n- Deserialize error: malformed TTLV\n",
        status: 1,
    },
    Row {
        shows: "pads that are not zero",
        words: &["replay"],
        script: b"rng 16 <OK2(25, !4200C20800000004DEADBEEFFFFFFFFF)>\n",
        written: "> <REQ2(25, C4 i16)>\n= {random_bytes=x\"DEADBEEF\"}\n",
        status: 0,
    },
    Row {
        shows: "a script of one byte that is not UTF-8",
        words: &["replay"],
        script: b"\xFF",
        written: "! line 1\n",
        status: 2,
    },
];

/// What is written of each cut of `CUT_RESPONSE`.
pub const CUT_WRITTEN: &[u8] = b"> <REQ2(25, C4 i16)>\n- Response read error: end of input\n";

/// A response, of 152 bytes.
pub const CUT_RESPONSE: &[u8] = b"<OK2(25, C2 xDEADBEEF)>";
