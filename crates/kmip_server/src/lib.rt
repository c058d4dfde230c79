//! A client joined to a server in memory, and the link between them.
//!
//! [`ServerLink`] is a link whose writes a server answers: what was written is cut into messages,
//! and the responses to these are what there is to read. [`call_all`] makes calls of a client over
//! such a link. Its contract says what each call sends and returns and what its diagnostics are,
//! and that over a link that was just made the answers are those of the object map asked directly.
#![tactic(auto)]

mod answers;
mod ask;
mod called;
mod joined;
mod link;
mod messages;

pub use answers::{Answered, CallAnswer, CallAnswers};
pub use joined::call_all;
pub use kmip_server_core::Server;
pub use kmip_store::Call;
pub use link::ServerLink;
