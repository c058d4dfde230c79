//! Tests of the crates below typed values: kmip_wire, kmip_link, kmip_tags and kmip_diag. They are
//! in a crate of their own, so that those crates are proved without them.
#![tactic(auto)]

#[cfg(test)]
mod diagnostics;
#[cfg(test)]
mod items;
#[cfg(test)]
mod links;
#[cfg(test)]
mod support;
#[cfg(test)]
mod tags;
