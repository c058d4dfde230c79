//! Tests of a store, of a server's responses, and of a client joined to a server, and nothing else: a
//! crate with tests is proved twice.
#![tactic(auto)]

#[cfg(test)]
mod common;
#[cfg(test)]
mod joined;
#[cfg(test)]
mod links;
#[cfg(test)]
mod many;
#[cfg(test)]
mod reports;
#[cfg(test)]
mod requests;
#[cfg(test)]
mod served;
#[cfg(test)]
mod store;
