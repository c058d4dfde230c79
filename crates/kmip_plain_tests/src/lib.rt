//! Tests of kmip_plain: payloads in the notation of kmip_test_messages, and their JSON by hand.
#![tactic(auto)]

#[cfg(test)]
mod names;
#[cfg(test)]
mod payloads;
