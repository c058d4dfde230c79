//! Calls of a client over a server, and their reports as the tests expect them.
use crate::common::{TestCall, call_of};
use kmip_client::{Client, ClientBuilder, Error, Result};
use kmip_link::Link;
use kmip_server::{Answered, Call, CallAnswer, CallAnswers, ServerLink, call_all};
use kmip_shape::ShowItem;
use kmip_store::{Maker, PlainMaker};
use kmip_wire::{Config, List, Text};
use std::alloc::Global;
use std::process::Abort;

/// What a call returns.
#[derive(Clone, Copy)]
pub enum Returned {
    /// A value that is shown so.
    Value(&'static str),
    /// An error of this kind, with this text.
    Failure(&'static str, &'static str),
    /// Nothing: the call is not made, or its report is lost.
    NoReport,
}

/// A call, and what it returns.
pub type Row<'a> = (TestCall<'a>, Returned);

/// How many bytes a call sent, and the diagnostics of its request and its response.
pub type Sent = (usize, &'static str, &'static str);

/// A link over a server with no objects and the plain maker.
pub fn plain_link(alloc: Global) -> ServerLink<PlainMaker> {
    ServerLink::new(alloc, PlainMaker::new(alloc), 0)
}

/// A client over the link, by these settings.
pub fn client_over<L: Link>(link: L, config: Config) -> Client<L> {
    ClientBuilder::new(link).with_reader_config(config).build()
}

/// One that keeps diagnostics.
pub fn client_with_diagnostics<L: Link>(link: L) -> Client<L> {
    client_over(link, Config::new().with_read_buf())
}

/// The calls of these rows.
pub fn calls_of(rt: &impl Abort, alloc: Global, rows: &[Row<'_>]) -> List<Call> {
    let mut calls = List::new(alloc);
    for row in rows {
        calls.push(call_of(rt, alloc, row.0)).expect(rt, "memory");
    }
    calls
}

fn push_all(rt: &impl Abort, texts: &[&str], shown: &mut Text) {
    for text in texts {
        shown.push_str(text).expect(rt, "memory");
    }
}

/// Adds what a helper returned, as text.
fn show_value(rt: &impl Abort, alloc: Global, value: &Answered, shown: &mut Text) {
    match value {
        Answered::Unit => push_all(rt, &["()"], shown),
        Answered::Pair(first, second) => {
            push_all(rt, &[first.as_str(), " ", second.as_str()], shown);
        }
        Answered::Signed(payload) => payload.show(alloc, shown).expect(rt, "memory"),
        Answered::Renamed(payload) => payload.show(alloc, shown).expect(rt, "memory"),
        _ => panic!(rt; "a value that no row expects"),
    }
}

/// The call returned a value that is shown so.
fn check_value(rt: &impl Abort, alloc: Global, value: &Answered, expected: &str) {
    let mut shown = Text::new(alloc);
    show_value(rt, alloc, value, &mut shown);
    assert_eq!(rt; shown.as_str(), expected, "the value");
}

/// The call returned an error of this kind with this text.
fn check_error(rt: &impl Abort, error: &Error, kind: &str, text: &str) {
    assert_eq!(rt; error.kind(), kind, "the kind of: {text}");
    assert_eq!(rt; error.text(), text, "the text");
}

/// The call returned what was expected.
fn check_answer(rt: &impl Abort, alloc: Global, answer: &Result<Answered>, expected: Returned) {
    match (expected, answer) {
        (Returned::Value(shown), Ok(value)) => check_value(rt, alloc, value, shown),
        (Returned::Failure(kind, text), Err(error)) => check_error(rt, error, kind, text),
        (_, Ok(_)) => panic!(rt; "a value that was not expected"),
        (_, Err(error)) => panic!(rt; "not expected: {}{}", error.kind(), error.text()),
    }
}

/// The calls that were made are the first of the rows, and returned what these say.
fn check_reports(rt: &impl Abort, alloc: Global, reports: &[CallAnswer], rows: &[Row<'_>]) {
    assert!(rt; reports.len() <= rows.len(), "calls made");
    for (place, row) in rows.iter().enumerate() {
        match reports.get(place) {
            Some(report) => check_answer(rt, alloc, &report.answer, row.1),
            None => assert!(rt;
                matches!(row.1, Returned::NoReport),
                "no report of call {place}"
            ),
        }
    }
}

fn or_none(diagnostic: &Option<Text>) -> &str {
    match diagnostic {
        Some(text) => text.as_str(),
        None => "none",
    }
}

/// The first call sent so many bytes, and has these diagnostics.
fn check_sent(rt: &impl Abort, reports: &[CallAnswer], expected: Sent) {
    let report = reports.first().expect(rt, "a call");
    let request = or_none(&report.req_diag);
    let response = or_none(&report.res_diag);
    assert_eq!(rt; report.sent.len(), expected.0, "bytes sent");
    assert_eq!(rt; request, expected.1, "the request's diagnostic");
    assert_eq!(rt; response, expected.2, "the response's diagnostic");
}

/// Makes the calls.
pub fn make_calls<M: Maker>(
    rt: &impl Abort,
    alloc: Global,
    client: &mut Client<ServerLink<M>>,
    calls: List<Call>,
) -> CallAnswers {
    call_all(alloc, client, calls).expect(rt, "memory")
}

/// Makes the calls of the rows, which return what the rows say. The first sent what is said of it.
pub fn check_calls<M: Maker>(
    rt: &impl Abort,
    alloc: Global,
    client: &mut Client<ServerLink<M>>,
    rows: &[Row<'_>],
    first: Option<Sent>,
) {
    let calls = calls_of(rt, alloc, rows);
    let reports = make_calls(rt, alloc, client, calls);
    check_reports(rt, alloc, reports.as_slice(), rows);
    if let Some(sent) = first {
        check_sent(rt, reports.as_slice(), sent);
    }
    drop(reports);
}

/// The link is not faulted, and starved or not.
pub fn check_link<M: Maker>(rt: &impl Abort, client: &mut Client<ServerLink<M>>, starved: bool) {
    let link = client.inner();
    assert!(rt; !link.faulted(), "the link is not faulted");
    assert_eq!(rt; link.starved(), starved, "whether the link is starved");
}
