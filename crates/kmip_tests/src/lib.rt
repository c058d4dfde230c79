//! Tests that stand on several crates, and nothing else.
//!
//! Each public call that takes memory is made once with ample memory: that it comes to its end is
//! no clause's matter, since running out of memory is always allowed. They stand here and not in
//! the crates that have the calls, since a crate with tests is proved twice. So do the tests of
//! kmip_audit.
#![tactic(auto)]

#[cfg(test)]
mod audit;
#[cfg(test)]
mod client;
#[cfg(test)]
mod exchanges;
#[cfg(test)]
mod helpers;
#[cfg(test)]
mod keys;
#[cfg(test)]
mod messages;
#[cfg(test)]
mod operations;
#[cfg(test)]
mod plain;
#[cfg(test)]
mod requests;
#[cfg(test)]
mod responses;
#[cfg(test)]
mod sessions;
