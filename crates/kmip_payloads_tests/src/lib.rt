//! Tests of kmip_payloads.
#![tactic(auto)]

#[cfg(test)]
mod checks;
#[cfg(test)]
mod requests;
#[cfg(test)]
mod support;
