//! Tests of kmip_rows: payloads and structures that PyKMIP wrote, and payloads by KMIP's sections.
#![tactic(auto)]

#[cfg(test)]
mod sections;
#[cfg(test)]
mod written;
