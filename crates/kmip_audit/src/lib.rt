//! An auditor of captured traffic: from the bytes that a client sent and those that it received, it
//! reports exchange by exchange what was asked and what came of it.
//!
//! A capture is cut into messages by their heads alone, so it needs no client and no server. The
//! report shows tags, types, nesting and the numbers of enumerations, operations and reasons for a
//! failure, and no other value.
#![tactic(auto)]

mod auditing;
mod entries;
mod frames;
mod laws;
mod lines;
mod outcomes;
mod reports;
mod responses;

pub use auditing::audit;
pub use laws::{answered_exactly_where_ok, reports_tell_skeletons, sessions_are_reported};
pub use outcomes::Outcome;
pub use reports::{End, Entry, Report};
