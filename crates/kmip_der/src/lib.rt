//! Keys and certificates in DER: read to their end, and written.
#![tactic(auto)]

mod certificate;
mod curve_table;
mod curves;
mod element;
mod keys;
mod laws;
mod write;

pub use certificate::{is_certificate, is_private, is_public};
pub use curves::{Curve, curve_named, curve_numbered};
pub use element::{Element, element_in, natural_in, only, tagged};
pub use keys::{
    Known, ec_number, is_point, pkcs8, rsa_private, rsa_public, sec1, sec1_curve, spki,
};
pub use laws::{elements_back, keys_back, private_is_apart};
pub use write::{
    point_der, push_element, push_integer, rsa_private_der, rsa_public_der, sec1_der, size_of,
};
