//! Tests of kmip_pem: keys that openssl made, the examples of RFC 7468, and small texts.
#![tactic(auto)]

#[cfg(test)]
mod cases;
#[cfg(test)]
mod keys;
#[cfg(test)]
mod small;
