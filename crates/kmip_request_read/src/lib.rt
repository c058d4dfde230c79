//! Requests read strictly from bytes: only what a client would write is read, and it is read as
//! what was written.
//!
//! Bytes are a request where `kmip_request::to_vec` writes them for a matched payload and a
//! credential (`IsMatched`: each value is of the variant by which it would be read). Items in
//! another order, an item once too often, an item that no request has, another version and padding
//! that is not zero make them `NotCanonical`, and nothing of them is read.
#![tactic(auto)]

mod laws;
mod reading;

pub use laws::{
    one_request, read_request_is_matched, request_is_message, request_is_read, request_parses,
    same_message,
};
pub use reading::{RequestReadError, from_slice};
