//! A client of KMIP 1.0, 1.1 and 1.2 over any link.
//!
//! ```rust
//! use kmip_client::ClientBuilder;
//! use kmip_link::StreamLink;
//!
//! let mut client = ClientBuilder::new(StreamLink::new(reader, writer)).build();
//! let (private_key, public_key) =
//!     client.create_rsa_key_pair(alloc, 2048, private_name, public_name)?;
//! client.activate_key(alloc, private_key.as_str())?;
//! let signed = client.sign(alloc, private_key.as_str(), b"message")?;
//! ```
//!
//! Nine helpers make the calls of a signing service; [`Client::do_request`] makes any of the
//! seventeen operations: it writes one request message, reads one response and returns its payload
//! or a named [`Error`]. Its contract says what was sent and read after each outcome, and the cause
//! of each error. [`Client::do_operation`] makes any operation of a payload tree, and
//! [`Client::do_message`] sends any message, with the same contract. [`exchange_all`] makes several
//! calls in order.
#![tactic(auto)]

mod answered;
mod builder;
mod call;
mod call_request;
mod check;
mod client;
mod error;
mod exchange;
mod helpers;
mod identified;
mod laws;
mod message;
mod operation;
mod reading;
mod room;
mod session;
mod transfer;
mod untyped;
mod whole_message;
mod writing;

pub use builder::ClientBuilder;
pub use client::Client;
pub use error::{Error, Result};
pub use identified::is_of_other_item;
pub use kmip_request as request;
pub use kmip_response as response;
pub use laws::{
    diagnostics_of_sessions, later_bytes_play_no_part, messages_are_answered_in_order,
    operation_parses, typed_payload_is_of_the_tree,
};
pub use operation::{OperationRequest, Version};
pub use reading::{Reading, read_operation_response, read_response, read_whole_message};
pub use session::{Answers, Exchange, exchange_all};
pub use writing::{write_operation_request, write_whole_message};
