//! Tests of requests, written and read, and of what they say of objects. They stand above those
//! crates, so that each crate is proved once.
#![tactic(auto)]

#[cfg(test)]
mod attributes;
#[cfg(test)]
mod reading;
#[cfg(test)]
mod requests;
#[cfg(test)]
mod support;
