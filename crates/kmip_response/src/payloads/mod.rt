//! The payloads of responses, one struct for each table of fields.

pub mod attributes;
pub mod cryptography;
pub mod get;
pub mod identifiers;
pub mod query;
pub mod server;
