//! Tests of kmip_key_files: keys of each kind and curve by openssl, in each format and by parts.
#![tactic(auto)]

#[cfg(test)]
mod curves;
#[cfg(test)]
mod formats;
#[cfg(test)]
mod keys;
#[cfg(test)]
mod parts;
#[cfg(test)]
mod refusals;
#[cfg(test)]
mod rows;
