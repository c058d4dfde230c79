//! Calls by words of a client that is joined to a server in memory.
//!
//! The client's link is a [`ServerLink`] over a server with the time stamp 0, whose keys, random
//! bytes and signatures a [`PlainMaker`] makes from their numbers. [`helper_call`] reads the call
//! of a line, and [`exchange`] makes it and writes what it came to, in the form of a call over
//! recorded responses.
#![tactic(auto)]

mod answers;
mod exchanges;
mod lines;
mod made;

pub use exchanges::exchange;
pub use lines::helper_call;
pub use made::joined_link;
