//! Tests of the crates whose types are values of a message: kmip_shape, kmip_enums, kmip_codes,
//! kmip_names, kmip_keys and kmip_types. They stand above those crates, so that each crate is
//! proved once.
#![tactic(auto)]

#[cfg(test)]
mod codes;
#[cfg(test)]
mod enums;
#[cfg(test)]
mod keys;
#[cfg(test)]
mod names;
#[cfg(test)]
mod shape;
#[cfg(test)]
mod support;
#[cfg(test)]
mod types;
