//! Calls of any operation of KMIP 1.0 to 1.2, by its name and a payload in JSON or XML, and messages
//! in JSON or XML.
//!
//! The typed calls of kmip_words keep to the tables of kmip_request and kmip_response. Here a caller
//! gives the operation's name and its payload as a tree ([`operation_call`]), carries the bytes that
//! the call sends ([`operation_request`]), and has the response's payload as JSON, as a tree or plain
//! ([`operation_answer`]). A whole message goes the same way, and its whole response comes
//! back as a tree ([`message_of`], [`message_request`], [`message_answer`]). What a response answers
//! to a typed call, also past those tables, says [`call_answer`].
#![tactic(auto)]

mod answer;
mod call;
mod fetched;
mod laws;
mod message;
mod objection;
mod refusal;
mod request;

pub use answer::{TreeAnswer, operation_answer};
pub use call::{OperationCall, operation_call, operation_named, version_written};
pub use fetched::call_answer;
pub use kmip_plain::PayloadForm;
pub use laws::{lines_are_json, responses_are_outcomes};
pub use message::{message_answer, message_of, message_request};
pub use refusal::{message_refusal, payload_refusal};
pub use request::operation_request;
