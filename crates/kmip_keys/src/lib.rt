//! Transparent keys, and key material in the format that its key block names.
#![tactic(auto)]

mod key_material;
mod transparent_keys;

pub use key_material::KeyMaterial;
pub use transparent_keys::{
    TransparentDHPrivateKey, TransparentDHPublicKey, TransparentDSAPrivateKey,
    TransparentDSAPublicKey, TransparentRSAPrivateKey, TransparentRSAPublicKey,
    TransparentSymmetricKey,
};
