//! Tests of kmip_encodings: messages as bytes and as JSON, both written by hand.
#![tactic(auto)]

#[cfg(test)]
mod json;
#[cfg(test)]
mod messages;
#[cfg(test)]
mod offsets;
#[cfg(test)]
mod refusals;
#[cfg(test)]
mod sentences;
#[cfg(test)]
mod xml;
