//! The payload of a request from items: the fields of its operation in their order, as the rows of
//! `kmip_rows` have them.
#![tactic(auto)]

mod build;
mod item;
mod lacking;
mod laws;
mod places;
mod refusal;
mod strays;

pub use build::payload_of;
pub use item::{Item, Scalar, Value};
pub use lacking::lacks;
pub use laws::{levels_suffice, no_item_is_lost, payloads_are_reached, refusals_tell_no_value};
pub use refusal::{Refusal, push_refusal, refusal_of};
pub use strays::first_stray;
