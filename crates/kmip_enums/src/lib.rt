// Written by tables/generate.py from tables/*.toml: change these instead.
//! The enumerations of KMIP in requests, responses and attributes. Those of algorithms and keys are
//! in kmip_codes.
#![tactic(auto)]

mod certificate_type;
mod credential_type;
mod link_type;
mod name_type;
mod object_type;
mod operation;
mod query_function;
mod result_reason;
mod result_status;
mod revocation_reason_code;
mod state;

pub use certificate_type::CertificateType;
pub use credential_type::CredentialType;
pub use kmip_shape::Enumeration;
pub use link_type::LinkType;
pub use name_type::NameType;
pub use object_type::ObjectType;
pub use operation::Operation;
pub use query_function::QueryFunction;
pub use result_reason::ResultReason;
pub use result_status::ResultStatus;
pub use revocation_reason_code::RevocationReasonCode;
pub use state::State;
