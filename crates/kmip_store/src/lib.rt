//! The objects of a key server, in memory, with their states and the calls on them.
//!
//! What a call does is one function of the definitions, `step`: the objects after it and its
//! answer, from the objects before it, the call, and for some calls one answer of a [`Maker`],
//! which makes keys, random bytes and signatures.
//!
//!     let mut store = Store::new(alloc);
//!     let mut maker = PlainMaker::new(alloc);
//!     let (private, public) = store.create_rsa_key_pair(&mut maker, 2048, "priv", "pub")?;
//!     store.activate_key(private.as_str())?;
//!     let signature = store.sign(&mut maker, private.as_str(), b"message")?;
#![tactic(auto)]

mod call;
mod error;
mod laws;
mod maker;
mod memory_maker;
mod object;
mod places;
mod plain_maker;
mod store;

pub use call::Call;
pub use error::StoreError;
pub use laws::{destroyed_stays, identifiers_differ};
pub use maker::{Asked, Made, Maker, MakerError};
pub use memory_maker::MemoryMaker;
pub use object::Object;
pub use plain_maker::PlainMaker;
pub use store::Store;
