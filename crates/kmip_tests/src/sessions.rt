//! Sessions over links with planned pieces and faults: what they come to, and what they send.
use crate::client::{has_moved, planned_link};
use crate::helpers::{bytes_of, client_of_alice, client_over, tell};
use kmip_client::{Client, Exchange, Result, exchange_all};
use kmip_link::PlannedLink;
use kmip_request::RequestPayload;
use kmip_shape::ShowItem;
use kmip_types::DataLength;
use kmip_wire::{Config, List, Text};
use std::alloc::Global;
use std::process::Abort;

/// The client of a session: with no settings, with diagnostics, or with a name and a password.
#[derive(Clone, Copy)]
enum Kind {
    Plain,
    Diagnosed,
    OfAlice,
}

/// Requests for 16 random bytes, so many, over a link of such pieces that holds this and fails at
/// this call; the lines that they come to; and how many bytes are then sent and left, and whether
/// the
/// connection was lost.
struct Row {
    shows: &'static str,
    kind: Kind,
    count: u32,
    pieces: usize,
    fed: &'static str,
    call: u64,
    lines: &'static [&'static str],
    sent: usize,
    left: usize,
    lost: u8,
}

/// A response of 152 bytes.
const RESPONSE: &str = "OK2(25, C2 xDEADBEEF)";

/// The requests of three exchanges, of 120 bytes each, and those with the credential, of 192.
const THREE: &str = "REQ2(25, C4 i16),REQ2(25, C4 i16),REQ2(25, C4 i16)";

const THREE_OF_ALICE: &str =
    "78{77{69{6A i1,6B i2},0C{23{24 e1,25{99 \"alice\",A1 \"secret\"}}},0D i1},0F{5C e25,79{C4 i16}}},\
78{77{69{6A i1,6B i2},0C{23{24 e1,25{99 \"alice\",A1 \"secret\"}}},0D i1},0F{5C e25,79{C4 i16}}},\
78{77{69{6A i1,6B i2},0C{23{24 e1,25{99 \"alice\",A1 \"secret\"}}},0D i1},0F{5C e25,79{C4 i16}}}";

/// The response, the same with a text at the end of its batch item that is not UTF-8, and the
/// response: 472 bytes.
const FED: &str =
    "OK2(25, C2 xDEADBEEF),RES2(5C e25,7F e0,7C{C2 xDEADBEEF},!5400010700000001FF00000000000000),OK2(25, C2 xDEADBEEF)";

/// No link comes to this call.
const NEVER: u64 = 1000000;

/// How an exchange is told without diagnostics.
const ANSWERED: &str = "RNGRetrieve{random_bytes=x\"DEADBEEF\"} | - | -\n";

const REFUSED: &str = "Deserialize error: malformed TTLV | - | -\n";

const ENDED: &str = "Response read error: end of input | - | -\n";

const UNSENT: &str = "Request send error: link failed | - | -\n";

const UNREAD: &str = "Response read error: link failed | - | -\n";

/// How it is told with them.
const ANSWERED_DIAGNOSED: &str =
    "RNGRetrieve{random_bytes=x\"DEADBEEF\"} | 78[77[69[6Ai6Bi]0Di]0F[5Ce25:79[C4i]]] | 7B[7A[69[6Ai6Bi]92d0Di]0F[5Ce25:7Fe0:7C[C2x]]]\n";

const REFUSED_DIAGNOSED: &str =
    "Deserialize error: malformed TTLV | 78[77[69[6Ai6Bi]0Di]0F[5Ce25:79[C4i]]] | 7B[7A[69[6Ai6Bi]92d0Di]0F[5Ce25:7Fe0:7C[C2x]!\n";

const UNSENT_DIAGNOSED: &str =
    "Request send error: link failed | 78[77[69[6Ai6Bi]0Di]0F[5Ce25:79[C4i]]] | -\n";

const UNREAD_DIAGNOSED: &str =
    "Response read error: link failed | 78[77[69[6Ai6Bi]0Di]0F[5Ce25:79[C4i]]] | \n";

const ROWS: &[Row] = &[
    Row {
        shows: "whole, in pieces of 1",
        kind: Kind::Plain,
        count: 3,
        pieces: 1,
        fed: FED,
        call: NEVER,
        lines: &[ANSWERED, REFUSED, ANSWERED],
        sent: 360,
        left: 0,
        lost: 0,
    },
    Row {
        shows: "whole, in pieces of 7",
        kind: Kind::Plain,
        count: 3,
        pieces: 7,
        fed: FED,
        call: NEVER,
        lines: &[ANSWERED, REFUSED, ANSWERED],
        sent: 360,
        left: 0,
        lost: 0,
    },
    Row {
        shows: "whole, in pieces of 65536",
        kind: Kind::Plain,
        count: 3,
        pieces: 65536,
        fed: FED,
        call: NEVER,
        lines: &[ANSWERED, REFUSED, ANSWERED],
        sent: 360,
        left: 0,
        lost: 0,
    },
    Row {
        shows: "with the credential, in pieces of 1",
        kind: Kind::OfAlice,
        count: 3,
        pieces: 1,
        fed: FED,
        call: NEVER,
        lines: &[ANSWERED, REFUSED, ANSWERED],
        sent: 576,
        left: 0,
        lost: 0,
    },
    Row {
        shows: "with the credential, in pieces of 7",
        kind: Kind::OfAlice,
        count: 3,
        pieces: 7,
        fed: FED,
        call: NEVER,
        lines: &[ANSWERED, REFUSED, ANSWERED],
        sent: 576,
        left: 0,
        lost: 0,
    },
    Row {
        shows: "with the credential, in pieces of 65536",
        kind: Kind::OfAlice,
        count: 3,
        pieces: 65536,
        fed: FED,
        call: NEVER,
        lines: &[ANSWERED, REFUSED, ANSWERED],
        sent: 576,
        left: 0,
        lost: 0,
    },
    Row {
        shows: "the end of input ends a session",
        kind: Kind::Plain,
        count: 3,
        pieces: 65536,
        fed: RESPONSE,
        call: NEVER,
        lines: &[ANSWERED, ENDED],
        sent: 240,
        left: 0,
        lost: 1,
    },
    Row {
        shows: "a link that fails as it is written",
        kind: Kind::Plain,
        count: 3,
        pieces: 40,
        fed: FED,
        call: 17,
        lines: &[ANSWERED, REFUSED, UNSENT],
        sent: 280,
        left: 152,
        lost: 1,
    },
    Row {
        shows: "a link that fails as it is read",
        kind: Kind::Plain,
        count: 3,
        pieces: 40,
        fed: FED,
        call: 19,
        lines: &[ANSWERED, REFUSED, UNREAD],
        sent: 360,
        left: 152,
        lost: 1,
    },
    Row {
        shows: "no request sends nothing",
        kind: Kind::Plain,
        count: 0,
        pieces: 40,
        fed: FED,
        call: NEVER,
        lines: &[],
        sent: 0,
        left: 472,
        lost: 0,
    },
    Row {
        shows: "diagnostics, as a link fails as it is written",
        kind: Kind::Diagnosed,
        count: 3,
        pieces: 40,
        fed: FED,
        call: 17,
        lines: &[ANSWERED_DIAGNOSED, REFUSED_DIAGNOSED, UNSENT_DIAGNOSED],
        sent: 280,
        left: 152,
        lost: 1,
    },
    Row {
        shows: "diagnostics, as it fails as it is read",
        kind: Kind::Diagnosed,
        count: 3,
        pieces: 40,
        fed: FED,
        call: 19,
        lines: &[ANSWERED_DIAGNOSED, REFUSED_DIAGNOSED, UNREAD_DIAGNOSED],
        sent: 360,
        left: 152,
        lost: 1,
    },
    Row {
        shows: "diagnostics of a whole session",
        kind: Kind::Diagnosed,
        count: 3,
        pieces: 40,
        fed: FED,
        call: NEVER,
        lines: &[ANSWERED_DIAGNOSED, REFUSED_DIAGNOSED, ANSWERED_DIAGNOSED],
        sent: 360,
        left: 0,
        lost: 0,
    },
];

/// Requests for 16 random bytes.
fn requests(rt: &impl Abort, alloc: Global, count: u32) -> List<RequestPayload> {
    let mut list = List::new(alloc);
    for _ in 0..count {
        let request = RequestPayload::RNGRetrieve(DataLength(16));
        list.push(request).expect(rt, "memory");
    }
    list
}

/// Appends a diagnostic, or a dash.
fn tell_diag(rt: &impl Abort, diag: &Option<Text>, told: &mut Text) {
    told.push_str(" | ").expect(rt, "memory");
    match diag {
        Some(text) => told.push_str(text.as_str()).expect(rt, "memory"),
        None => told.push_str("-").expect(rt, "memory"),
    }
}

/// What a session came to: for each exchange a line of the payload or the printed error, then both
/// diagnostics.
fn told<P: ShowItem + Drop>(
    rt: &impl Abort,
    alloc: Global,
    answers: Result<List<Exchange<P>>>,
) -> Text {
    let mut told = Text::new(alloc);
    let exchanges = answers.expect(rt, "exchanges");
    for exchange in exchanges.as_slice() {
        tell(rt, alloc, &exchange.answer, &mut told);
        tell_diag(rt, &exchange.req_diag, &mut told);
        tell_diag(rt, &exchange.res_diag, &mut told);
        told.push_str("\n").expect(rt, "memory");
    }
    drop(exchanges);
    told
}

/// The exchanges of these requests over a client.
fn exchanges(
    alloc: Global,
    client: &mut Client<PlannedLink>,
    requests: List<RequestPayload>,
) -> Result<List<Exchange>> {
    exchange_all(alloc, client, requests)
}

/// These lines, one after the other.
fn joined(rt: &impl Abort, alloc: Global, lines: &[&str]) -> Text {
    let mut joined = Text::new(alloc);
    for line in lines {
        joined.push_str(line).expect(rt, "memory");
    }
    joined
}

/// How many bytes were sent over the link of a client.
fn sent_len(client: &mut Client<PlannedLink>) -> usize {
    client.inner().inner().sent().len()
}

/// Whether what was sent is a first part of three requests, with the credential or without.
fn is_first_part(
    rt: &impl Abort,
    alloc: Global,
    kind: Kind,
    client: &mut Client<PlannedLink>,
) -> bool {
    let requests = match kind {
        Kind::OfAlice => THREE_OF_ALICE,
        _ => THREE,
    };
    let requests = bytes_of(rt, alloc, requests);
    requests.starts_with(client.inner().inner().sent())
}

/// The client of a row.
fn client_of(rt: &impl Abort, alloc: Global, row: &Row) -> Client<PlannedLink> {
    let link = planned_link(rt, alloc, row.fed, row.pieces, &[row.call]);
    match row.kind {
        Kind::Plain => client_over(link, Config::new()),
        Kind::Diagnosed => client_over(link, Config::new().with_read_buf()),
        Kind::OfAlice => client_of_alice(rt, alloc, link),
    }
}

/// The session of a row comes to what it says.
fn row_holds(rt: &impl Abort, alloc: Global, row: &Row) {
    let mut client = client_of(rt, alloc, row);
    let requests = requests(rt, alloc, row.count);
    let told = told(rt, alloc, exchanges(alloc, &mut client, requests));
    let expected = joined(rt, alloc, row.lines);
    assert!(rt; told.as_str() == expected.as_str(), "{}", row.shows);
    drop(told);
    drop(expected);
    assert!(rt;
        client.connection_error_count() == row.lost,
        "{}",
        row.shows
    );
    has_moved(rt, &mut client, row.sent, row.left, row.shows);
    assert!(rt;
        is_first_part(rt, alloc, row.kind, &mut client),
        "{}",
        row.shows
    );
    drop(client);
}

#[test]
fn sessions_come_to_their_lines(rt: HostRuntime) {
    for row in ROWS {
        row_holds(&rt, rt.alloc(), row);
    }
}

/// Whether there are answers.
fn is_whole<A: Drop, E: Drop>(answers: std::result::Result<A, E>) -> bool {
    answers.is_ok()
}

/// `tools/refuse_memory.py` runs this with each request for memory refused in turn.
#[test]
fn what_is_sent_as_memory_runs_out(rt: HostRuntime) {
    let alloc = rt.alloc();
    let link = planned_link(&rt, alloc, FED, 40, &[]);
    let mut client = client_over(link, Config::new().with_read_buf());
    let requests = requests(&rt, alloc, 3);
    let whole = is_whole(exchanges(alloc, &mut client, requests));
    let is_first = is_first_part(&rt, alloc, Kind::Plain, &mut client);
    assert!(&rt; is_first, "sent otherwise");
    assert!(&rt; !whole || sent_len(&mut client) == 360, "sent otherwise");
    drop(client);
}
