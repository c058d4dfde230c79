//! One call over a link in memory: what it sends, and what its response answers.
use crate::helpers::{bytes_of, client_over, link_fed, tree_of};
use kmip_client::{Client, Error, OperationRequest, Result, Version};
use kmip_enums::Operation;
use kmip_link::MemoryLink;
use kmip_wire::{Config, Tree, write_tree};
use std::alloc::Global;
use std::process::Abort;

/// What is called: an Encrypt, which KMIP's tables have no payload for, in a version and perhaps
/// with a Unique Batch Item ID, or a whole message of the caller's.
#[derive(Clone, Copy)]
pub enum Call<'a> {
    Encrypt(Version, Option<&'a [u8]>),
    Message,
}

/// A call, the payload or the message that it is made with, and the request that is sent.
#[derive(Clone, Copy)]
pub struct Ask<'a> {
    pub call: Call<'a>,
    pub tree: &'a str,
    pub sent: &'a str,
}

/// What a call answers: the tree of these items, or an error that is printed so.
#[derive(Clone, Copy)]
pub enum Answer<'a> {
    Gives(&'a str),
    Fails(&'a str),
}

/// A response, and what it answers.
pub type Row = (&'static str, Answer<'static>);

/// What a call with this tree is answered.
fn answer_to(
    alloc: Global,
    client: &mut Client<MemoryLink>,
    call: &Call<'_>,
    tree: &Tree,
) -> Result<Tree> {
    match call {
        Call::Encrypt(version, id) => {
            let request = OperationRequest {
                operation: Operation::Encrypt,
                version: *version,
                id: *id,
                payload: tree,
            };
            client.do_operation(alloc, &request)
        }
        Call::Message => client.do_message(alloc, tree),
    }
}

/// The tree is that of these items.
fn is_tree(rt: &impl Abort, alloc: Global, tree: Tree, expected: &Answer<'_>, response: &str) {
    let Answer::Gives(notation) = expected else {
        panic!(rt; "{response}: a tree");
    };
    let written = write_tree(alloc, &tree).expect(rt, response);
    drop(tree);
    let expected = bytes_of(rt, alloc, notation);
    assert!(rt; written.as_slice() == expected.as_slice(), "{response}");
}

/// The error is printed so.
fn is_error(rt: &impl Abort, alloc: Global, error: Error, expected: &Answer<'_>, response: &str) {
    let printed = error.to_string(alloc).expect(rt, response);
    drop(error);
    let Answer::Fails(text) = expected else {
        panic!(rt; "{response}: {printed}");
    };
    assert!(rt; printed.as_str() == *text, "{response}: {printed}");
}

/// The answer to this response is this one.
pub fn is_answer(
    rt: &impl Abort,
    alloc: Global,
    answer: Result<Tree>,
    expected: &Answer<'_>,
    response: &str,
) {
    match answer {
        Ok(tree) => is_tree(rt, alloc, tree, expected, response),
        Err(error) => is_error(rt, alloc, error, expected, response),
    }
}

/// So much was sent over the link of a client, and is left in it.
fn has_moved(
    rt: &impl Abort,
    alloc: Global,
    client: &mut Client<MemoryLink>,
    sent: &str,
    left: &str,
) {
    let (sent, left) = (bytes_of(rt, alloc, sent), bytes_of(rt, alloc, left));
    let link = client.inner();
    assert!(rt; link.sent() == sent.as_slice());
    assert!(rt; link.rest() == left.as_slice());
}

/// Over this client, whose link holds the response, the call sends its request, takes the response
/// whole and has this answer.
pub fn is_answered(
    rt: &impl Abort,
    alloc: Global,
    mut client: Client<MemoryLink>,
    ask: &Ask<'_>,
    response: &str,
    expected: &Answer<'_>,
) {
    let tree = tree_of(rt, alloc, ask.tree);
    let answer = answer_to(alloc, &mut client, &ask.call, &tree);
    drop(tree);
    is_answer(rt, alloc, answer, expected, response);
    has_moved(rt, alloc, &mut client, ask.sent, "");
    drop(client);
}

/// So is each row, with these settings.
pub fn are_answered(rt: &impl Abort, alloc: Global, config: Config, ask: &Ask<'_>, rows: &[Row]) {
    for (response, expected) in rows {
        let client = client_over(link_fed(rt, alloc, response), config);
        is_answered(rt, alloc, client, ask, response, expected);
    }
}

/// A call with this tree is refused, and nothing is sent or taken.
pub fn is_refused(rt: &impl Abort, alloc: Global, call: &Call<'_>, tree: &Tree) {
    let response = "RES2(7F e0)";
    let mut client = client_over(link_fed(rt, alloc, response), Config::new());
    let answer = answer_to(alloc, &mut client, call, tree);
    let expected = Answer::Fails("Serialize error: request has no wire form");
    is_answer(rt, alloc, answer, &expected, response);
    has_moved(rt, alloc, &mut client, "", response);
    drop(client);
}

/// So is each of these items.
pub fn are_refused(rt: &impl Abort, alloc: Global, call: &Call<'_>, items: &[&str]) {
    for item in items {
        let tree = tree_of(rt, alloc, item);
        is_refused(rt, alloc, call, &tree);
        drop(tree);
    }
}

/// Over a client with diagnostics the call is answered, and its messages have these.
pub fn is_diagnosed(
    rt: &impl Abort,
    alloc: Global,
    ask: &Ask<'_>,
    row: &Row,
    request: &str,
    response: &str,
) {
    let (notation, expected) = row;
    let config = Config::new().with_read_buf();
    let mut client = client_over(link_fed(rt, alloc, notation), config);
    let tree = tree_of(rt, alloc, ask.tree);
    let answer = answer_to(alloc, &mut client, &ask.call, &tree);
    drop(tree);
    is_answer(rt, alloc, answer, expected, notation);
    assert!(rt; client.last_req_diag_str() == Some(request));
    assert!(rt; client.last_res_diag_str() == Some(response));
    assert!(rt; client.connection_error_count() == 0);
    has_moved(rt, alloc, &mut client, ask.sent, "");
    drop(client);
}
