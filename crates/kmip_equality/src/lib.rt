//! Laws that `==` says exactly whether two values are equal: of requests and responses, of all that
//! they are made of, and of a client's errors. Each is the contract of a function that does
//! nothing, called where the law is needed.
//!
//! The law of a list is [`kmip_wire::list_equality`], and that of texts, byte strings and trees
//! [`kmip_wire::equality`].
#![tactic(auto)]

mod errors;
mod requests;
mod responses;
mod values;

pub use errors::client_errors;
pub use requests::{request_fields, request_messages, request_payloads, request_values};
pub use responses::{response_messages, response_payloads, response_values};
pub use values::{code_values, field_values, key_values};
