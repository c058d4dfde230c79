//! Streams, and what is reported of them.
use crate::helpers::bytes_of;
use kmip_audit::{Entry, Report, audit};
use kmip_wire::Text;
use std::alloc::Global;
use std::process::Abort;

/// Two streams, and what is told of their frames and their ends.
struct Row {
    shows: &'static str,
    sent: &'static str,
    received: &'static str,
    told: &'static str,
}

/// REQ2(25, C4 i16): a request for 16 random bytes.
const REQUEST: &str = "REQ2(25, C4 i16)";

/// OK2(25, C2 xDEADBEEF): an answer to it.
const RESPONSE: &str = "OK2(25, C2 xDEADBEEF)";

/// Each outcome once, and those that fit where two do.
const OUTCOMES: &[Row] = &[
    Row {
        shows: "a response without a request",
        sent: "",
        received: RESPONSE,
        told: "no request >~ - <~ 7B[7A[69[6Ai6Bi]92d0Di]0F[5Ce25:7Fe0:7C[C2x]]]\nsent whole\nreceived whole\n",
    },
    Row {
        shows: "a request that no client writes",
        sent: "78{}",
        received: RESPONSE,
        told: "unread request >~ 78[] <~ 7B[7A[69[6Ai6Bi]92d0Di]0F[5Ce25:7Fe0:7C[C2x]]]\nsent whole\nreceived whole\n",
    },
    Row {
        shows: "that has no response",
        sent: "78{}",
        received: "",
        told: "unread request >~ 78[] <~ -\nsent whole\nreceived whole\n",
    },
    Row {
        shows: "a request without a response",
        sent: REQUEST,
        received: "",
        told: "no response >~ 78[77[69[6Ai6Bi]0Di]0F[5Ce25:79[C4i]]] <~ -\nsent whole\nreceived whole\n",
    },
    Row {
        shows: "a response whose contents are no items",
        sent: REQUEST,
        received: "7B{!FFFFFFFFFFFFFFFF}",
        told: "malformed response >~ 78[77[69[6Ai6Bi]0Di]0F[5Ce25:79[C4i]]] <~ 7B[!\nsent whole\nreceived whole\n",
    },
    Row {
        shows: "an item that is no response message",
        sent: REQUEST,
        received: "7C{}",
        told: "unread response >~ 78[77[69[6Ai6Bi]0Di]0F[5Ce25:79[C4i]]] <~ 7C[]\nsent whole\nreceived whole\n",
    },
    Row {
        shows: "a batch count of 2",
        sent: REQUEST,
        received: "7B{7A{69{6A i1,6B i2},92 d1,0D i2},0F{5C e25,7F e0,7C{C2 xDEADBEEF}}}",
        told: "not one item >~ 78[77[69[6Ai6Bi]0Di]0F[5Ce25:79[C4i]]] <~ 7B[7A[69[6Ai6Bi]92d0Di]0F[5Ce25:7Fe0:7C[C2x]]]\nsent whole\nreceived whole\n",
    },
    Row {
        shows: "two batch items",
        sent: REQUEST,
        received: "7B{7A{69{6A i1,6B i2},92 d1,0D i1},0F{5C e25,7F e0,7C{C2 xDEADBEEF}},0F{5C e25,7F e0,7C{C2 xDEADBEEF}}}",
        told: "not one item >~ 78[77[69[6Ai6Bi]0Di]0F[5Ce25:79[C4i]]] <~ 7B[7A[69[6Ai6Bi]92d0Di]0F[5Ce25:7Fe0:7C[C2x]]0F[5Ce25:7Fe0:7C[C2x]]]\nsent whole\nreceived whole\n",
    },
    Row {
        shows: "a failure with its reason",
        sent: REQUEST,
        received: "RES2(5C e25,7F e1,7E e1,7D \"secret\")",
        told: "failed ItemNotFound >~ 78[77[69[6Ai6Bi]0Di]0F[5Ce25:79[C4i]]] <~ 7B[7A[69[6Ai6Bi]92d0Di]0F[5Ce25:7Fe1:7Ee1:7Dt]]\nsent whole\nreceived whole\n",
    },
    Row {
        shows: "a failure with none, of another operation",
        sent: REQUEST,
        received: "RES2(5C e24,7F e1)",
        told: "failed none >~ 78[77[69[6Ai6Bi]0Di]0F[5Ce25:79[C4i]]] <~ 7B[7A[69[6Ai6Bi]92d0Di]0F[5Ce24:7Fe1:]]\nsent whole\nreceived whole\n",
    },
    Row {
        shows: "an operation that has not ended",
        sent: REQUEST,
        received: "RES2(5C e25,7F e2)",
        told: "pending >~ 78[77[69[6Ai6Bi]0Di]0F[5Ce25:79[C4i]]] <~ 7B[7A[69[6Ai6Bi]92d0Di]0F[5Ce25:7Fe2:]]\nsent whole\nreceived whole\n",
    },
    Row {
        shows: "one that was undone",
        sent: REQUEST,
        received: "RES2(5C e25,7F e3)",
        told: "undone >~ 78[77[69[6Ai6Bi]0Di]0F[5Ce25:79[C4i]]] <~ 7B[7A[69[6Ai6Bi]92d0Di]0F[5Ce25:7Fe3:]]\nsent whole\nreceived whole\n",
    },
    Row {
        shows: "another operation",
        sent: REQUEST,
        received: "RES2(5C e24,7F e0)",
        told: "other operation MACVerify >~ 78[77[69[6Ai6Bi]0Di]0F[5Ce25:79[C4i]]] <~ 7B[7A[69[6Ai6Bi]92d0Di]0F[5Ce24:7Fe0:]]\nsent whole\nreceived whole\n",
    },
    Row {
        shows: "no operation",
        sent: REQUEST,
        received: "RES2(7F e0)",
        told: "other operation none >~ 78[77[69[6Ai6Bi]0Di]0F[5Ce25:79[C4i]]] <~ 7B[7A[69[6Ai6Bi]92d0Di]0F[7Fe0:]]\nsent whole\nreceived whole\n",
    },
    Row {
        shows: "no payload",
        sent: REQUEST,
        received: "RES2(5C e25,7F e0)",
        told: "no payload >~ 78[77[69[6Ai6Bi]0Di]0F[5Ce25:79[C4i]]] <~ 7B[7A[69[6Ai6Bi]92d0Di]0F[5Ce25:7Fe0:]]\nsent whole\nreceived whole\n",
    },
    Row {
        shows: "a payload",
        sent: REQUEST,
        received: RESPONSE,
        told: "answered RNGRetrieve >~ 78[77[69[6Ai6Bi]0Di]0F[5Ce25:79[C4i]]] <~ 7B[7A[69[6Ai6Bi]92d0Di]0F[5Ce25:7Fe0:7C[C2x]]]\nsent whole\nreceived whole\n",
    },
];

/// An exchange, after which both streams are torn.
const TORN: &str =
    "answered RNGRetrieve >~ 78[77[69[6Ai6Bi]0Di]0F[5Ce25:79[C4i]]] <~ 7B[7A[69[6Ai6Bi]92d0Di]0F[5Ce25:7Fe0:7C[C2x]]]\nsent torn at 120\nreceived torn at 152\n";

/// Streams of several frames, of none, and of a frame and the first bytes of the same one.
const STREAMS: &[Row] = &[
    Row {
        shows: "two responses to one request",
        sent: REQUEST,
        received: "OK2(25, C2 xDEADBEEF),OK2(25, C2 xDEADBEEF)",
        told: "answered RNGRetrieve >~ 78[77[69[6Ai6Bi]0Di]0F[5Ce25:79[C4i]]] <~ 7B[7A[69[6Ai6Bi]92d0Di]0F[5Ce25:7Fe0:7C[C2x]]]\nno request >~ - <~ 7B[7A[69[6Ai6Bi]92d0Di]0F[5Ce25:7Fe0:7C[C2x]]]\nsent whole\nreceived whole\n",
    },
    Row {
        shows: "responses in the other order, each beside the request at its place",
        sent: "REQ2(25, C4 i16),REQ0(12, 94 \"k1\")",
        received: "OK0(12, 94 \"k1\"),OK2(25, C2 xDEADBEEF)",
        told: "other operation Activate >~ 78[77[69[6Ai6Bi]0Di]0F[5Ce25:79[C4i]]] <~ 7B[7A[69[6Ai6Bi]92d0Di]0F[5Ce12:7Fe0:7C[94t]]]\nother operation RNGRetrieve >~ 78[77[69[6Ai6Bi]0Di]0F[5Ce12:79[94t]]] <~ 7B[7A[69[6Ai6Bi]92d0Di]0F[5Ce25:7Fe0:7C[C2x]]]\nsent whole\nreceived whole\n",
    },
    Row {
        shows: "an item that is no structure",
        sent: "94 \"k1\"",
        received: "OK2(25, C2 xDEADBEEF),6A i1",
        told: "no request >~ - <~ 7B[7A[69[6Ai6Bi]92d0Di]0F[5Ce25:7Fe0:7C[C2x]]]\nsent torn at 0\nreceived torn at 152\n",
    },
    Row {
        shows: "one byte of a second frame",
        sent: "REQ2(25, C4 i16),!42",
        received: "OK2(25, C2 xDEADBEEF),!42",
        told: TORN,
    },
    Row {
        shows: "2 bytes of a second frame",
        sent: "REQ2(25, C4 i16),!4200",
        received: "OK2(25, C2 xDEADBEEF),!4200",
        told: TORN,
    },
    Row {
        shows: "3 bytes of a second frame",
        sent: "REQ2(25, C4 i16),!420078",
        received: "OK2(25, C2 xDEADBEEF),!42007B",
        told: TORN,
    },
    Row {
        shows: "4 bytes of a second frame",
        sent: "REQ2(25, C4 i16),!42007801",
        received: "OK2(25, C2 xDEADBEEF),!42007B01",
        told: TORN,
    },
    Row {
        shows: "5 bytes of a second frame",
        sent: "REQ2(25, C4 i16),!4200780100",
        received: "OK2(25, C2 xDEADBEEF),!42007B0100",
        told: TORN,
    },
    Row {
        shows: "6 bytes of a second frame",
        sent: "REQ2(25, C4 i16),!420078010000",
        received: "OK2(25, C2 xDEADBEEF),!42007B010000",
        told: TORN,
    },
    Row {
        shows: "7 bytes of a second frame",
        sent: "REQ2(25, C4 i16),!42007801000000",
        received: "OK2(25, C2 xDEADBEEF),!42007B01000000",
        told: TORN,
    },
    Row {
        shows: "8 bytes of a second frame",
        sent: "REQ2(25, C4 i16),!4200780100000070",
        received: "OK2(25, C2 xDEADBEEF),!42007B0100000090",
        told: TORN,
    },
    Row {
        shows: "9 bytes of a second frame",
        sent: "REQ2(25, C4 i16),!420078010000007042",
        received: "OK2(25, C2 xDEADBEEF),!42007B010000009042",
        told: TORN,
    },
    Row {
        shows: "119 bytes of a second frame",
        sent: "REQ2(25, C4 i16),!42007801000000704200770100000038420069010000002042006A0200000004000000010000000042006B0200000004\
000000020000000042000D0200000004000000010000000042000F010000002842005C05000000040000002500000000\
42007901000000104200C4020000000400000010000000",
        received: "OK2(25, C2 xDEADBEEF),!42007B010000009042007A0100000048420069010000002042006A0200000004000000010000000042006B0200000004\
00000002000000004200920900000008000000000000000142000D0200000004000000010000000042000F0100000038\
42005C0500000004000000250000000042007F05000000",
        told: TORN,
    },
];

/// A text, and `-` where there is none.
fn shown(text: &Option<Text>) -> &str {
    match text {
        Some(text) => text.as_str(),
        None => "-",
    }
}

/// Appends the line of an entry.
fn add_line(rt: &impl Abort, alloc: Global, entry: &Entry, text: &mut String) {
    let request = shown(&entry.request);
    let response = shown(&entry.response);
    let line = format!(in alloc; "{} >~ {request} <~ {response}\n", entry.outcome);
    let line = line.expect(rt, "memory");
    text.push_str(line.as_str()).expect(rt, "memory");
}

/// The entries of a report, one a line, and its ends.
fn lines(rt: &impl Abort, alloc: Global, report: &Report) -> String {
    let mut text = String::new(alloc);
    for entry in report.entries.as_slice() {
        add_line(rt, alloc, entry, &mut text);
    }
    let ends = format!(in alloc;
        "sent {}\nreceived {}\n",
        report.sent_end, report.received_end
    );
    let ends = ends.expect(rt, "memory");
    text.push_str(ends.as_str()).expect(rt, "memory");
    text
}

/// What is reported of two streams.
fn reported(rt: &impl Abort, alloc: Global, sent: &str, received: &str) -> String {
    let (sent, received) = (bytes_of(rt, alloc, sent), bytes_of(rt, alloc, received));
    let report = audit(alloc, &sent, &received).expect(rt, "a report");
    let lines = lines(rt, alloc, &report);
    drop(report);
    lines
}

/// Each pair of streams is reported as its row says.
fn rows_hold(rt: &impl Abort, alloc: Global, rows: &[Row]) {
    for row in rows {
        let told = reported(rt, alloc, row.sent, row.received);
        assert!(rt; told.as_str() == row.told, "{}", row.shows);
    }
}

#[test]
fn streams_are_reported(rt: HostRuntime) {
    rows_hold(&rt, rt.alloc(), OUTCOMES);
    rows_hold(&rt, rt.alloc(), STREAMS);
}
