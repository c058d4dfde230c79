//! Tests of kmip_response, kmip_response_objects and kmip_response_write: responses in the notation of kmip_test_messages, what they show as, and the bytes that
//! they are written as. They stand above those crates, so that each crate is proved once.
#![tactic(auto)]

#[cfg(test)]
mod payloads;
#[cfg(test)]
mod written;
