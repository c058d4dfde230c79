//! A key server in memory that answers the requests of the client's nine helpers, and refuses all
//! others.
//!
//! What it returns for bytes is one function of the definitions, `served`: a step of the object
//! map, and the message that reports it. [`Server::answer`] is that, over any
//! [`Maker`](kmip_store::Maker).
//!
//!     let mut server = Server::new(alloc, PlainMaker::new(alloc), 0);
//!     let response = server.answer(request)?;
#![tactic(auto)]

mod calls;
mod items;
mod keys;
mod laws;
mod message;
mod pair;
mod recognize;
mod request;
mod server;

pub use kmip_store::Call;
pub use laws::{helper_is_matched, own_call, served_is_settled};
pub use request::{call_known, is_request_of, request_of};
pub use server::Server;
