//! Keys and certificates of files for KMIP, and files of what KMIP keeps: PEM and DER.
#![tactic(auto)]

mod block;
mod curve_name_table;
mod curve_names;
mod der;
mod formats;
mod forms;
mod laws;
mod refusal;
mod told;
mod writing;

pub use block::{Block, Material, RsaNumbers};
pub use curve_names::curve_called;
pub use der::Der;
pub use formats::{File, in_format};
pub use forms::{key_format, label_of, object_type};
pub use kmip_pem::{Label, NoPem, Secret};
pub use laws::{format_keeps_the_key, private_is_apart, written_is_read};
pub use refusal::{NoFile, NoObject, ReadError, WriteError};
pub use told::{KeyFacts, Object, Told, read_der, read_pem, told_of};
pub use writing::{write_der, write_pem};
