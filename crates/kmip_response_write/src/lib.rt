//! Responses, each written as its one canonical message: what a server sends.
//!
//! What is written is the canonical bytes of the message's tree. A settled message, whose choices
//! are those that a reader makes, is read back as it was.
//!
//!     let bytes = to_vec(alloc, &message)?;
//!     let again = from_slice::<ResponseMessage>(alloc, bytes.as_slice())?;
#![tactic(auto)]

mod laws;
mod writing;

pub use laws::{
    one_response, response_is_one_message, response_is_read, settled_is_read, tables_stand,
};
pub use writing::to_vec;
