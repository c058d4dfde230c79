//! The client over links with planned faults, and over a link of this file's own.
use crate::helpers::{client_over, is_copied, link_fed, text, told};
use kmip_client::{Client, Error};
use kmip_link::{Link, LinkError, PlannedLink};
use kmip_request::{Attribute, RequestPayload};
use kmip_types::{AttributeName, AttributeValue};
use kmip_wire::{Blob, Config, List, Text};
use std::alloc::Global;
use std::process::Abort;

/// A response to a request for random bytes: 152 bytes, of which the last item holds four.
const RESPONSE: &str = "OK2(25, C2 xDEADBEEF)";

/// What the request is answered by the response, and by a link that fails as it is written or read.
const ANSWERED: &str = "{random_bytes=x\"DEADBEEF\"}";

const UNSENT: &str = "Request send error: link failed";

const UNREAD: &str = "Response read error: link failed";

/// A link of pieces of so many bytes that holds these bytes and fails at these calls.
pub fn planned_link(
    rt: &impl Abort,
    alloc: Global,
    fed: &str,
    pieces: usize,
    failing: &[u64],
) -> PlannedLink {
    let mut memory = link_fed(rt, alloc, fed);
    memory.plan_pieces(&[pieces]).expect(rt, "memory");
    PlannedLink::new(alloc, memory, failing).expect(rt, "memory")
}

/// What a request for random bytes is answered.
fn random_bytes<L: Link>(rt: &impl Abort, alloc: Global, client: &mut Client<L>) -> Text {
    told(rt, alloc, client.rng_retrieve(alloc, 16))
}

/// So many bytes were sent over the link of a client, and are left in it.
pub fn has_moved(
    rt: &impl Abort,
    client: &mut Client<PlannedLink>,
    sent: usize,
    left: usize,
    shows: &str,
) {
    let link = client.inner().inner();
    assert!(rt; link.sent().len() == sent, "{shows}: sent");
    assert!(rt; link.rest().len() == left, "{shows}: left");
}

/// A call at which a link fails, the answer, and how many bytes are then sent and left.
type Fault = (&'static str, u64, &'static str, usize, usize);

/// A request for random bytes over a link of pieces of 40 bytes, which holds the response.
const FAULTS: &[Fault] = &[
    ("at 0", 0, UNSENT, 0, 152),
    ("at 1", 1, UNSENT, 40, 152),
    ("at 2", 2, UNSENT, 80, 152),
    ("at 3", 3, UNREAD, 120, 152),
    ("at 4", 4, UNREAD, 120, 144),
    ("at 5", 5, UNREAD, 120, 104),
    ("at 6", 6, UNREAD, 120, 64),
    ("at 7", 7, UNREAD, 120, 24),
    ("at 8", 8, ANSWERED, 120, 0),
];

/// What a client with diagnostics says of its last call.
fn is_last_call<L: Link>(rt: &impl Abort, client: &Client<L>, answer: &str, shows: &str) {
    let lost = if answer == ANSWERED { 0 } else { 1 };
    assert!(rt; client.connection_error_count() == lost, "{shows}");
    let request = "78[77[69[6Ai6Bi]0Di]0F[5Ce25:79[C4i]]]";
    assert!(rt; client.last_req_diag_str() == Some(request), "{shows}");
    let is_unread = client.last_res_diag_str().is_none();
    assert!(rt; is_unread == (answer == UNSENT), "{shows}");
}

/// A link that fails so has this outcome.
fn planned_fault(rt: &impl Abort, alloc: Global, row: &Fault) {
    let (shows, call, expected, sent, left) = row;
    let link = planned_link(rt, alloc, RESPONSE, 40, &[*call]);
    let mut client = client_over(link, Config::new().with_read_buf());
    let answer = random_bytes(rt, alloc, &mut client);
    assert!(rt; answer.as_str() == *expected, "{shows}");
    drop(answer);
    is_last_call(rt, &client, expected, shows);
    has_moved(rt, &mut client, *sent, *left, shows);
    drop(client);
}

#[test]
fn planned_faults(rt: HostRuntime) {
    for row in FAULTS {
        planned_fault(&rt, rt.alloc(), row);
    }
}

/// A link that tells nothing, gives eight bytes, and keeps how often it was read, and the room that
/// the first and the last read offered.
#[derive(Drop)]
struct Watched {
    reads: u32,
    first: usize,
    last: usize,
}

impl Link for Watched {
    ghost use Rattle.kmip_link.specs.State.{silent_link};

    ghost state = { λ _. silent_link 0 };

    fn read(&mut self, into: &mut [u8]) -> Result<usize, LinkError> {
        let is_first = self.reads == 0;
        self.reads = self.reads.wrapping_add(1);
        self.last = into.len();
        if is_first {
            self.first = into.len();
        }
        if is_first && into.len() == 8 {
            into.copy_from_slice(b"\x42\x00\x7B\x01\xFF\xFF\xFF\xF8");
            return Ok(8);
        }
        Ok(0)
    }

    fn write(&mut self, bytes: &[u8]) -> Result<usize, LinkError> {
        Ok(bytes.len())
    }
}

/// How often a watched link was read, and the room that the first and the last read offered.
fn rooms(client: &mut Client<Watched>) -> (u32, usize, usize) {
    let link = client.inner();
    (link.reads, link.first, link.last)
}

#[test]
fn a_false_length_takes_room_piece_by_piece(rt: HostRuntime) {
    let link = Watched {
        reads: 0,
        first: 0,
        last: 0,
    };
    let mut client = client_over(link, Config::new());
    let answer = random_bytes(&rt, rt.alloc(), &mut client);
    assert!(&rt; answer.as_str() == "Response read error: end of input");
    drop(answer);
    assert!(&rt; rooms(&mut client) == (2, 8, 65536));
    drop(client);
}

/// The error is printed so, and has a copy that equals it.
fn is_error(rt: &impl Abort, alloc: Global, error: Error, expected: &str) {
    let printed = error.to_string(alloc).expect(rt, "memory");
    assert!(rt; printed.as_str() == expected, "{expected}");
    is_copied::<Error>(rt, alloc, &error);
    drop(error);
}

/// The other kinds are printed in the tests above and in those of operations.
#[test]
fn errors_are_printed_and_cloned(rt: HostRuntime) {
    let alloc = rt.alloc();
    let error = Error::ConfigurationError(text(&rt, alloc, "x"));
    is_error(&rt, alloc, error, "Configuration error: x");
    let error = Error::Unknown(text(&rt, alloc, "x"));
    is_error(&rt, alloc, error, "Unknown error: x");
    is_error(&rt, alloc, Error::OutOfMemory, "Out of memory");
}

/// A request that has no wire form: a Big Integer of seven bytes.
fn unformed(rt: &impl Abort, alloc: Global) -> RequestPayload {
    let name = AttributeName(text(rt, alloc, "x-a"));
    let number = Blob::of(alloc, b"\0\0\0\0\0\0\0").expect(rt, "memory");
    let attribute = Attribute(name, None, AttributeValue::BigInteger(number));
    let mut attributes = List::new(alloc);
    attributes.push(attribute).expect(rt, "memory");
    RequestPayload::Locate(attributes)
}

/// What the request without a form is answered.
fn unformed_answer(rt: &impl Abort, alloc: Global, client: &mut Client<PlannedLink>) -> Text {
    told(rt, alloc, client.do_request(alloc, unformed(rt, alloc)))
}

#[test]
fn a_request_without_a_form_is_not_sent(rt: HostRuntime) {
    let alloc = rt.alloc();
    let link = planned_link(&rt, alloc, RESPONSE, 40, &[]);
    let mut client = client_over(link, Config::new().with_read_buf());
    let answer = unformed_answer(&rt, alloc, &mut client);
    assert!(&rt; answer.as_str() == "Serialize error: request has no wire form");
    drop(answer);
    assert!(&rt; client.last_req_diag_str().is_none());
    assert!(&rt; client.last_res_diag_str().is_none());
    has_moved(&rt, &mut client, 0, 152, "without a form");
    drop(client);
}
