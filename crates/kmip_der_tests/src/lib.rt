//! Tests of kmip_der: keys and certificates that openssl made, and small DER written by hand.
#![tactic(auto)]

#[cfg(test)]
mod binary_curves;
#[cfg(test)]
mod keys;
#[cfg(test)]
mod prime_curves;
#[cfg(test)]
mod small;
#[cfg(test)]
mod support;
#[cfg(test)]
mod written;
