//! The command `make` over sources, sinks and links in memory.
use crate::tests::{run_over, writes};
use kmip_link::MemoryLink;
use std::alloc::Global;
use std::process::Abort;

/// What the program writes for these words, and with which status it ends.
struct Row {
    shows: &'static str,
    words: &'static [&'static str],
    written: &'static str,
    status: u8,
}

const ROWS: &[Row] = &[
    Row {
        shows: "no exchange",
        words: &["make", "0"],
        written: "exchanges 0\nok 0\nerrors 0\nsent 0\ntaken 0\n",
        status: 0,
    },
    Row {
        shows: "random bytes",
        words: &["make", "1"],
        written: "exchanges 1\nok 1\nerrors 0\nsent 120\ntaken 192\n",
        status: 0,
    },
    Row {
        shows: "random bytes, a key not found, two keys activated",
        words: &["make", "4"],
        written: "exchanges 4\nok 3\nerrors 1\nsent 480\ntaken 656\n",
        status: 0,
    },
    Row {
        shows: "the first eight, with a query",
        words: &["make", "8"],
        written: "exchanges 8\nok 7\nerrors 1\nsent 992\ntaken 1328\n",
        status: 0,
    },
    Row {
        shows: "more than the most",
        words: &["make", "100001"],
        written: "! words\n",
        status: 2,
    },
    Row {
        shows: "a number of more than 32 bits",
        words: &["make", "4294967296"],
        written: "! words\n",
        status: 2,
    },
    Row {
        shows: "a leading zero",
        words: &["make", "01"],
        written: "! words\n",
        status: 2,
    },
    Row {
        shows: "a sign",
        words: &["make", "+1"],
        written: "! words\n",
        status: 2,
    },
    Row {
        shows: "no number",
        words: &["make"],
        written: "! words\n",
        status: 2,
    },
    Row {
        shows: "an empty number",
        words: &["make", ""],
        written: "! words\n",
        status: 2,
    },
    Row {
        shows: "a word after the number",
        words: &["make", "1", "1"],
        written: "! words\n",
        status: 2,
    },
];

/// Many exchanges, counted by a separate computation.
const MANY: &[Row] = &[
    Row {
        shows: "a thousand exchanges",
        words: &["make", "1000"],
        written: "exchanges 1000\nok 742\nerrors 258\nsent 128704\ntaken 165296\n",
        status: 0,
    },
    Row {
        shows: "the same again",
        words: &["make", "1000"],
        written: "exchanges 1000\nok 742\nerrors 258\nsent 128704\ntaken 165296\n",
        status: 0,
    },
];

/// The program writes for each row what the row says, and ends with its status.
fn rows_hold(rt: &impl Abort, alloc: Global, rows: &[Row]) {
    for row in rows {
        let expected = (row.written.as_bytes(), row.status);
        writes(rt, alloc, row.words, b"", expected, row.shows);
    }
}

#[test]
fn make_counts_answers_errors_and_bytes(rt: HostRuntime) {
    rows_hold(&rt, rt.alloc(), ROWS);
}

#[test]
fn a_thousand_exchanges_give_the_same_counts_each_time(rt: HostRuntime) {
    rows_hold(&rt, rt.alloc(), MANY);
}

/// The request for 43 random bytes.
const REQUEST: &[u8] = b"\x42\x00\x78\x01\x00\x00\x00\x70\x42\x00\x77\x01\x00\x00\x00\x38\
\x42\x00\x69\x01\x00\x00\x00\x20\
\x42\x00\x6A\x02\x00\x00\x00\x04\x00\x00\x00\x01\x00\x00\x00\x00\
\x42\x00\x6B\x02\x00\x00\x00\x04\x00\x00\x00\x02\x00\x00\x00\x00\
\x42\x00\x0D\x02\x00\x00\x00\x04\x00\x00\x00\x01\x00\x00\x00\x00\x42\x00\x0F\x01\x00\x00\x00\x28\
\x42\x00\x5C\x05\x00\x00\x00\x04\x00\x00\x00\x25\x00\x00\x00\x00\x42\x00\x79\x01\x00\x00\x00\x10\
\x42\x00\xC4\x02\x00\x00\x00\x04\x00\x00\x00\x2B\x00\x00\x00\x00";

/// Runs `make 1` on a link of these pieces, and looks at what it was sent and what is left to read.
fn one_exchange_is_sent(rt: &impl Abort, alloc: Global, pieces: &[usize]) {
    let mut link = MemoryLink::new(alloc);
    let Ok(()) = link.plan_pieces(pieces) else {
        panic!(rt; "no memory");
    };
    let (status, sink) = run_over(rt, alloc, &["make", "1"], b"", (&[], &[]), &mut link);
    let counts = b"exchanges 1\nok 1\nerrors 0\nsent 120\ntaken 192\n";
    assert_eq!(rt; sink.written(), counts.as_slice());
    assert_eq!(rt; status, 0);
    assert_eq!(rt; link.sent(), REQUEST);
    assert_eq!(rt; link.rest().len(), 0);
}

#[test]
fn make_sends_over_the_link_handed_in(rt: HostRuntime) {
    one_exchange_is_sent(&rt, rt.alloc(), &[]);
}

#[test]
fn make_gives_the_same_over_pieces_of_seven_bytes(rt: HostRuntime) {
    one_exchange_is_sent(&rt, rt.alloc(), &[7]);
}

/// Runs the program on `make 4`, where the source fails at its first read and these writes fail:
/// its status, and how many bytes it wrote.
fn made_over_faults(rt: &impl Abort, alloc: Global, failing: &[u64]) -> (u8, usize) {
    let mut link = MemoryLink::new(alloc);
    let (status, sink) = run_over(
        rt,
        alloc,
        &["make", "4"],
        b"query -\n",
        (&[0], failing),
        &mut link,
    );
    (status, sink.written().len())
}

#[test]
fn make_reads_nothing_from_a_source_that_fails(rt: HostRuntime) {
    let (status, written) = made_over_faults(&rt, rt.alloc(), &[]);
    assert_eq!(rt; status, 0);
    assert_eq!(rt; written, 45);
}

#[test]
fn make_ends_with_status_4_where_the_sink_fails(rt: HostRuntime) {
    let (status, written) = made_over_faults(&rt, rt.alloc(), &[0]);
    assert_eq!(rt; status, 4);
    assert_eq!(rt; written, 0);
}
