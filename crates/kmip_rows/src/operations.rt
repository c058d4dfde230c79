// Written by tables/generate.py from tables/*.toml: change these instead.
//! The operations, with the fields of their payloads.
use crate::rows::{Effect, FieldRow, Mark, OperationRow, Place, ResponseRow, field};
use kmip_enums::Operation;
use kmip_tags::tags;

/// KMIP 1.0, 4.1.
pub(crate) const CREATE: &OperationRow = &OperationRow {
    operation: Operation::Create,
    since: 0,
    effect: Effect::Makes,
    request: &[
        field!(One OBJECT_TYPE, 0, "object_type"),
        field!(One TEMPLATE_ATTRIBUTE, 0, "template_attribute"),
    ],
    response: ResponseRow::Fields(&[
        field!(One OBJECT_TYPE, 0, "object_type"),
        field!(One UNIQUE_IDENTIFIER, 0, "unique_identifier"),
        field!(AtMostOne TEMPLATE_ATTRIBUTE, 0, "template_attribute"),
    ]),
    apart: &[],
};

/// KMIP 1.0, 4.2.
pub(crate) const CREATE_KEY_PAIR: &OperationRow = &OperationRow {
    operation: Operation::CreateKeyPair,
    since: 0,
    effect: Effect::Makes,
    request: &[
        field!(AtMostOne COMMON_TEMPLATE_ATTRIBUTE, 0, "common_template_attribute"),
        field!(AtMostOne PRIVATE_KEY_TEMPLATE_ATTRIBUTE, 0, "private_key_template_attribute"),
        field!(AtMostOne PUBLIC_KEY_TEMPLATE_ATTRIBUTE, 0, "public_key_template_attribute"),
    ],
    response: ResponseRow::Fields(&[
        field!(One PRIVATE_KEY_UNIQUE_IDENTIFIER, 0, "private_key_unique_identifier"),
        field!(One PUBLIC_KEY_UNIQUE_IDENTIFIER, 0, "public_key_unique_identifier"),
        field!(AtMostOne PRIVATE_KEY_TEMPLATE_ATTRIBUTE, 0, "private_key_template_attribute"),
        field!(AtMostOne PUBLIC_KEY_TEMPLATE_ATTRIBUTE, 0, "public_key_template_attribute"),
    ]),
    apart: &[
        tags::PRIVATE_KEY_UNIQUE_IDENTIFIER,
        tags::PUBLIC_KEY_UNIQUE_IDENTIFIER,
    ],
};

/// KMIP 1.0, 4.3.
pub(crate) const REGISTER: &OperationRow = &OperationRow {
    operation: Operation::Register,
    since: 0,
    effect: Effect::Makes,
    request: &[
        field!(One OBJECT_TYPE, 0, "object_type"),
        field!(One TEMPLATE_ATTRIBUTE, 0, "template_attribute"),
        field!(object One, 0, "object"),
    ],
    response: ResponseRow::Fields(&[
        field!(One UNIQUE_IDENTIFIER, 0, "unique_identifier"),
        field!(AtMostOne TEMPLATE_ATTRIBUTE, 0, "template_attribute"),
    ]),
    apart: &[],
};

/// KMIP 1.0, 4.4.
pub(crate) const REKEY: &OperationRow = &OperationRow {
    operation: Operation::Rekey,
    since: 0,
    effect: Effect::Makes,
    request: &[
        field!(AtMostOne UNIQUE_IDENTIFIER, 0, "unique_identifier"),
        field!(AtMostOne OFFSET, 0, "offset"),
        field!(AtMostOne TEMPLATE_ATTRIBUTE, 0, "template_attribute"),
    ],
    response: ResponseRow::Fields(&[
        field!(One UNIQUE_IDENTIFIER, 0, "unique_identifier"),
        field!(AtMostOne TEMPLATE_ATTRIBUTE, 0, "template_attribute"),
    ]),
    apart: &[],
};

/// KMIP 1.0, 4.5.
pub(crate) const DERIVE_KEY: &OperationRow = &OperationRow {
    operation: Operation::DeriveKey,
    since: 0,
    effect: Effect::Makes,
    request: &[
        field!(One OBJECT_TYPE, 0, "object_type"),
        field!(AtLeastOne UNIQUE_IDENTIFIER, 0, "unique_identifiers"),
        field!(One DERIVATION_METHOD, 0, "derivation_method"),
        field!(One DERIVATION_PARAMETERS, 0, "derivation_parameters"),
        field!(One TEMPLATE_ATTRIBUTE, 0, "template_attribute"),
    ],
    response: ResponseRow::Fields(&[
        field!(One UNIQUE_IDENTIFIER, 0, "unique_identifier"),
        field!(AtMostOne TEMPLATE_ATTRIBUTE, 0, "template_attribute"),
    ]),
    apart: &[],
};

/// KMIP 1.0, 4.6.
pub(crate) const CERTIFY: &OperationRow = &OperationRow {
    operation: Operation::Certify,
    since: 0,
    effect: Effect::Makes,
    request: &[
        field!(AtMostOne UNIQUE_IDENTIFIER, 0, "unique_identifier"),
        field!(AtMostOne CERTIFICATE_REQUEST_TYPE, 0, "certificate_request_type"),
        field!(AtMostOne CERTIFICATE_REQUEST, 0, "certificate_request"),
        field!(AtMostOne TEMPLATE_ATTRIBUTE, 0, "template_attribute"),
    ],
    response: ResponseRow::Fields(&[
        field!(One UNIQUE_IDENTIFIER, 0, "unique_identifier"),
        field!(AtMostOne TEMPLATE_ATTRIBUTE, 0, "template_attribute"),
    ]),
    apart: &[],
};

/// KMIP 1.0, 4.7.
pub(crate) const RECERTIFY: &OperationRow = &OperationRow {
    operation: Operation::Recertify,
    since: 0,
    effect: Effect::Makes,
    request: &[
        field!(AtMostOne UNIQUE_IDENTIFIER, 0, "unique_identifier"),
        field!(AtMostOne CERTIFICATE_REQUEST_TYPE, 0, "certificate_request_type"),
        field!(AtMostOne CERTIFICATE_REQUEST, 0, "certificate_request"),
        field!(AtMostOne OFFSET, 0, "offset"),
        field!(AtMostOne TEMPLATE_ATTRIBUTE, 0, "template_attribute"),
    ],
    response: ResponseRow::Fields(&[
        field!(One UNIQUE_IDENTIFIER, 0, "unique_identifier"),
        field!(AtMostOne TEMPLATE_ATTRIBUTE, 0, "template_attribute"),
    ]),
    apart: &[],
};

/// KMIP 1.0, 4.8.
pub(crate) const LOCATE: &OperationRow = &OperationRow {
    operation: Operation::Locate,
    since: 0,
    effect: Effect::Reads,
    request: &[
        field!(AtMostOne MAXIMUM_ITEMS, 0, "maximum_items"),
        field!(AtMostOne STORAGE_STATUS_MASK, 0, "storage_status_mask"),
        field!(AtMostOne OBJECT_GROUP_MEMBER, 1, "object_group_member"),
        field!(AnyNumber ATTRIBUTE, 0, "attributes"),
    ],
    response: ResponseRow::Fields(&[field!(AnyNumber UNIQUE_IDENTIFIER, 0, "unique_identifiers")]),
    apart: &[],
};

/// KMIP 1.0, 4.9.
pub(crate) const CHECK: &OperationRow = &OperationRow {
    operation: Operation::Check,
    since: 0,
    effect: Effect::Reads,
    request: &[
        field!(AtMostOne UNIQUE_IDENTIFIER, 0, "unique_identifier"),
        field!(AtMostOne USAGE_LIMITS_COUNT, 0, "usage_limits_count"),
        field!(AtMostOne CRYPTOGRAPHIC_USAGE_MASK, 0, "cryptographic_usage_mask"),
        field!(AtMostOne LEASE_TIME, 0, "lease_time"),
    ],
    response: ResponseRow::Fields(&[
        field!(same One UNIQUE_IDENTIFIER, 0, "unique_identifier"),
        field!(AtMostOne USAGE_LIMITS_COUNT, 0, "usage_limits_count"),
        field!(AtMostOne CRYPTOGRAPHIC_USAGE_MASK, 0, "cryptographic_usage_mask"),
        field!(AtMostOne LEASE_TIME, 0, "lease_time"),
    ]),
    apart: &[],
};

/// KMIP 1.0, 4.10.
pub(crate) const GET: &OperationRow = &OperationRow {
    operation: Operation::Get,
    since: 0,
    effect: Effect::Reads,
    request: &[
        field!(AtMostOne UNIQUE_IDENTIFIER, 0, "unique_identifier"),
        field!(AtMostOne KEY_FORMAT_TYPE, 0, "key_format_type"),
        field!(AtMostOne KEY_COMPRESSION_TYPE, 0, "key_compression_type"),
        field!(AtMostOne KEY_WRAPPING_SPECIFICATION, 0, "key_wrapping_specification"),
    ],
    response: ResponseRow::Fields(&[
        field!(One OBJECT_TYPE, 0, "object_type"),
        field!(same One UNIQUE_IDENTIFIER, 0, "unique_identifier"),
        field!(object One, 0, "cryptographic_object"),
    ]),
    apart: &[],
};

/// KMIP 1.0, 4.11.
pub(crate) const GET_ATTRIBUTES: &OperationRow = &OperationRow {
    operation: Operation::GetAttributes,
    since: 0,
    effect: Effect::Reads,
    request: &[
        field!(AtMostOne UNIQUE_IDENTIFIER, 0, "unique_identifier"),
        field!(AnyNumber ATTRIBUTE_NAME, 0, "attribute_names"),
    ],
    response: ResponseRow::Fields(&[
        field!(same One UNIQUE_IDENTIFIER, 0, "unique_identifier"),
        field!(AnyNumber ATTRIBUTE, 0, "attributes"),
    ]),
    apart: &[],
};

/// KMIP 1.0, 4.12.
pub(crate) const GET_ATTRIBUTE_LIST: &OperationRow = &OperationRow {
    operation: Operation::GetAttributeList,
    since: 0,
    effect: Effect::Reads,
    request: &[field!(AtMostOne UNIQUE_IDENTIFIER, 0, "unique_identifier")],
    response: ResponseRow::Fields(&[
        field!(same One UNIQUE_IDENTIFIER, 0, "unique_identifier"),
        field!(AtLeastOne ATTRIBUTE_NAME, 0, "attribute_names"),
    ]),
    apart: &[],
};

/// KMIP 1.0, 4.13.
pub(crate) const ADD_ATTRIBUTE: &OperationRow = &OperationRow {
    operation: Operation::AddAttribute,
    since: 0,
    effect: Effect::Changes,
    request: &[
        field!(AtMostOne UNIQUE_IDENTIFIER, 0, "unique_identifier"),
        field!(One ATTRIBUTE, 0, "attribute"),
    ],
    response: ResponseRow::Fields(&[
        field!(same One UNIQUE_IDENTIFIER, 0, "unique_identifier"),
        field!(One ATTRIBUTE, 0, "attribute"),
    ]),
    apart: &[],
};

/// KMIP 1.0, 4.14.
pub(crate) const MODIFY_ATTRIBUTE: &OperationRow = &OperationRow {
    operation: Operation::ModifyAttribute,
    since: 0,
    effect: Effect::Changes,
    request: &[
        field!(AtMostOne UNIQUE_IDENTIFIER, 0, "unique_identifier"),
        field!(One ATTRIBUTE, 0, "attribute"),
    ],
    response: ResponseRow::Fields(&[
        field!(same One UNIQUE_IDENTIFIER, 0, "unique_identifier"),
        field!(One ATTRIBUTE, 0, "attribute"),
    ]),
    apart: &[],
};

/// KMIP 1.0, 4.15.
pub(crate) const DELETE_ATTRIBUTE: &OperationRow = &OperationRow {
    operation: Operation::DeleteAttribute,
    since: 0,
    effect: Effect::Changes,
    request: &[
        field!(AtMostOne UNIQUE_IDENTIFIER, 0, "unique_identifier"),
        field!(One ATTRIBUTE_NAME, 0, "attribute_name"),
        field!(AtMostOne ATTRIBUTE_INDEX, 0, "attribute_index"),
    ],
    response: ResponseRow::Fields(&[
        field!(same One UNIQUE_IDENTIFIER, 0, "unique_identifier"),
        field!(One ATTRIBUTE, 0, "attribute"),
    ]),
    apart: &[],
};

/// KMIP 1.0, 4.16.
pub(crate) const OBTAIN_LEASE: &OperationRow = &OperationRow {
    operation: Operation::ObtainLease,
    since: 0,
    effect: Effect::Changes,
    request: &[field!(AtMostOne UNIQUE_IDENTIFIER, 0, "unique_identifier")],
    response: ResponseRow::Fields(&[
        field!(same One UNIQUE_IDENTIFIER, 0, "unique_identifier"),
        field!(One LEASE_TIME, 0, "lease_time"),
        field!(One LAST_CHANGE_DATE, 0, "last_change_date"),
    ]),
    apart: &[],
};

/// KMIP 1.0, 4.17.
pub(crate) const GET_USAGE_ALLOCATION: &OperationRow = &OperationRow {
    operation: Operation::GetUsageAllocation,
    since: 0,
    effect: Effect::Changes,
    request: &[
        field!(AtMostOne UNIQUE_IDENTIFIER, 0, "unique_identifier"),
        field!(One USAGE_LIMITS_COUNT, 0, "usage_limits_count"),
    ],
    response: ResponseRow::Fields(&[field!(same One UNIQUE_IDENTIFIER, 0, "unique_identifier")]),
    apart: &[],
};

/// KMIP 1.0, 4.18.
pub(crate) const ACTIVATE: &OperationRow = &OperationRow {
    operation: Operation::Activate,
    since: 0,
    effect: Effect::Changes,
    request: &[field!(AtMostOne UNIQUE_IDENTIFIER, 0, "unique_identifier")],
    response: ResponseRow::Fields(&[field!(same One UNIQUE_IDENTIFIER, 0, "unique_identifier")]),
    apart: &[],
};

/// KMIP 1.0, 4.19.
pub(crate) const REVOKE: &OperationRow = &OperationRow {
    operation: Operation::Revoke,
    since: 0,
    effect: Effect::Changes,
    request: &[
        field!(AtMostOne UNIQUE_IDENTIFIER, 0, "unique_identifier"),
        field!(One REVOCATION_REASON, 0, "revocation_reason"),
        field!(AtMostOne COMPROMISE_OCCURRENCE_DATE, 0, "compromise_occurrence_date"),
    ],
    response: ResponseRow::Fields(&[field!(same One UNIQUE_IDENTIFIER, 0, "unique_identifier")]),
    apart: &[],
};

/// KMIP 1.0, 4.20.
pub(crate) const DESTROY: &OperationRow = &OperationRow {
    operation: Operation::Destroy,
    since: 0,
    effect: Effect::Changes,
    request: &[field!(AtMostOne UNIQUE_IDENTIFIER, 0, "unique_identifier")],
    response: ResponseRow::Fields(&[field!(same One UNIQUE_IDENTIFIER, 0, "unique_identifier")]),
    apart: &[],
};

/// KMIP 1.0, 4.21.
pub(crate) const ARCHIVE: &OperationRow = &OperationRow {
    operation: Operation::Archive,
    since: 0,
    effect: Effect::Changes,
    request: &[field!(AtMostOne UNIQUE_IDENTIFIER, 0, "unique_identifier")],
    response: ResponseRow::Fields(&[field!(same One UNIQUE_IDENTIFIER, 0, "unique_identifier")]),
    apart: &[],
};

/// KMIP 1.0, 4.22.
pub(crate) const RECOVER: &OperationRow = &OperationRow {
    operation: Operation::Recover,
    since: 0,
    effect: Effect::Changes,
    request: &[field!(AtMostOne UNIQUE_IDENTIFIER, 0, "unique_identifier")],
    response: ResponseRow::Fields(&[field!(same One UNIQUE_IDENTIFIER, 0, "unique_identifier")]),
    apart: &[],
};

/// KMIP 1.0, 4.23.
pub(crate) const VALIDATE: &OperationRow = &OperationRow {
    operation: Operation::Validate,
    since: 0,
    effect: Effect::Reads,
    request: &[
        field!(AnyNumber CERTIFICATE, 0, "certificates"),
        field!(AnyNumber UNIQUE_IDENTIFIER, 0, "unique_identifiers"),
        field!(AtMostOne VALIDITY_DATE, 0, "validity_date"),
    ],
    response: ResponseRow::Fields(&[field!(One VALIDITY_INDICATOR, 0, "validity_indicator")]),
    apart: &[],
};

/// KMIP 1.0, 4.24.
pub(crate) const QUERY: &OperationRow = &OperationRow {
    operation: Operation::Query,
    since: 0,
    effect: Effect::Reads,
    request: &[field!(AtLeastOne QUERY_FUNCTION, 0, "query_functions")],
    response: ResponseRow::Fields(&[
        field!(AnyNumber OPERATION, 0, "operations"),
        field!(AnyNumber OBJECT_TYPE, 0, "object_types"),
        field!(AtMostOne VENDOR_IDENTIFICATION, 0, "vendor_identification"),
        field!(AtMostOne SERVER_INFORMATION, 0, "server_information"),
        field!(AnyNumber APPLICATION_NAMESPACE, 0, "application_namespaces"),
        field!(AnyNumber EXTENSION_INFORMATION, 1, "extension_information"),
        field!(AnyNumber ATTESTATION_TYPE, 2, "attestation_types"),
    ]),
    apart: &[],
};

/// KMIP 1.0, 4.25.
pub(crate) const CANCEL: &OperationRow = &OperationRow {
    operation: Operation::Cancel,
    since: 0,
    effect: Effect::Changes,
    request: &[field!(One ASYNCHRONOUS_CORRELATION_VALUE, 0, "asynchronous_correlation_value")],
    response: ResponseRow::Fields(&[
        field!(same One ASYNCHRONOUS_CORRELATION_VALUE, 0, "asynchronous_correlation_value"),
        field!(One CANCELLATION_RESULT, 0, "cancellation_result"),
    ]),
    apart: &[],
};

/// KMIP 1.0, 4.26.
pub(crate) const POLL: &OperationRow = &OperationRow {
    operation: Operation::Poll,
    since: 0,
    effect: Effect::Changes,
    request: &[field!(One ASYNCHRONOUS_CORRELATION_VALUE, 0, "asynchronous_correlation_value")],
    response: ResponseRow::OfTheOperation,
    apart: &[],
};

/// KMIP 1.1, 4.5.
pub(crate) const REKEY_KEY_PAIR: &OperationRow = &OperationRow {
    operation: Operation::RekeyKeyPair,
    since: 1,
    effect: Effect::Makes,
    request: &[
        field!(AtMostOne PRIVATE_KEY_UNIQUE_IDENTIFIER, 1, "private_key_unique_identifier"),
        field!(AtMostOne OFFSET, 1, "offset"),
        field!(AtMostOne COMMON_TEMPLATE_ATTRIBUTE, 1, "common_template_attribute"),
        field!(AtMostOne PRIVATE_KEY_TEMPLATE_ATTRIBUTE, 1, "private_key_template_attribute"),
        field!(AtMostOne PUBLIC_KEY_TEMPLATE_ATTRIBUTE, 1, "public_key_template_attribute"),
    ],
    response: ResponseRow::Fields(&[
        field!(One PRIVATE_KEY_UNIQUE_IDENTIFIER, 1, "private_key_unique_identifier"),
        field!(One PUBLIC_KEY_UNIQUE_IDENTIFIER, 1, "public_key_unique_identifier"),
        field!(AtMostOne PRIVATE_KEY_TEMPLATE_ATTRIBUTE, 1, "private_key_template_attribute"),
        field!(AtMostOne PUBLIC_KEY_TEMPLATE_ATTRIBUTE, 1, "public_key_template_attribute"),
    ]),
    apart: &[
        tags::PRIVATE_KEY_UNIQUE_IDENTIFIER,
        tags::PUBLIC_KEY_UNIQUE_IDENTIFIER,
    ],
};

/// KMIP 1.1, 4.26.
pub(crate) const DISCOVER_VERSIONS: &OperationRow = &OperationRow {
    operation: Operation::DiscoverVersions,
    since: 1,
    effect: Effect::Reads,
    request: &[field!(AnyNumber PROTOCOL_VERSION, 1, "protocol_versions")],
    response: ResponseRow::Fields(&[field!(AnyNumber PROTOCOL_VERSION, 1, "supported_versions")]),
    apart: &[],
};

/// KMIP 1.2, 4.29.
pub(crate) const ENCRYPT: &OperationRow = &OperationRow {
    operation: Operation::Encrypt,
    since: 2,
    effect: Effect::Reads,
    request: &[
        field!(AtMostOne UNIQUE_IDENTIFIER, 2, "unique_identifier"),
        field!(AtMostOne CRYPTOGRAPHIC_PARAMETERS, 2, "cryptographic_parameters"),
        field!(One DATA, 2, "data"),
        field!(AtMostOne IV_COUNTER_NONCE, 2, "iv_counter_nonce"),
    ],
    response: ResponseRow::Fields(&[
        field!(same One UNIQUE_IDENTIFIER, 2, "unique_identifier"),
        field!(One DATA, 2, "data"),
        field!(AtMostOne IV_COUNTER_NONCE, 2, "iv_counter_nonce"),
    ]),
    apart: &[],
};

/// KMIP 1.2, 4.30.
pub(crate) const DECRYPT: &OperationRow = &OperationRow {
    operation: Operation::Decrypt,
    since: 2,
    effect: Effect::Reads,
    request: &[
        field!(AtMostOne UNIQUE_IDENTIFIER, 2, "unique_identifier"),
        field!(AtMostOne CRYPTOGRAPHIC_PARAMETERS, 2, "cryptographic_parameters"),
        field!(One DATA, 2, "data"),
        field!(AtMostOne IV_COUNTER_NONCE, 2, "iv_counter_nonce"),
    ],
    response: ResponseRow::Fields(&[
        field!(same One UNIQUE_IDENTIFIER, 2, "unique_identifier"),
        field!(One DATA, 2, "data"),
    ]),
    apart: &[],
};

/// KMIP 1.2, 4.31.
pub(crate) const SIGN: &OperationRow = &OperationRow {
    operation: Operation::Sign,
    since: 2,
    effect: Effect::Reads,
    request: &[
        field!(AtMostOne UNIQUE_IDENTIFIER, 2, "unique_identifier"),
        field!(AtMostOne CRYPTOGRAPHIC_PARAMETERS, 2, "cryptographic_parameters"),
        field!(One DATA, 2, "data"),
    ],
    response: ResponseRow::Fields(&[
        field!(same One UNIQUE_IDENTIFIER, 2, "unique_identifier"),
        field!(One SIGNATURE_DATA, 2, "signature_data"),
    ]),
    apart: &[],
};

/// KMIP 1.2, 4.32.
pub(crate) const SIGNATURE_VERIFY: &OperationRow = &OperationRow {
    operation: Operation::SignatureVerify,
    since: 2,
    effect: Effect::Reads,
    request: &[
        field!(AtMostOne UNIQUE_IDENTIFIER, 2, "unique_identifier"),
        field!(AtMostOne CRYPTOGRAPHIC_PARAMETERS, 2, "cryptographic_parameters"),
        field!(One DATA, 2, "data"),
        field!(One SIGNATURE_DATA, 2, "signature_data"),
    ],
    response: ResponseRow::Fields(&[
        field!(same One UNIQUE_IDENTIFIER, 2, "unique_identifier"),
        field!(One VALIDITY_INDICATOR, 2, "validity_indicator"),
        field!(AtMostOne DATA, 2, "data"),
    ]),
    apart: &[],
};

/// KMIP 1.2, 4.33.
pub(crate) const MAC: &OperationRow = &OperationRow {
    operation: Operation::MAC,
    since: 2,
    effect: Effect::Reads,
    request: &[
        field!(AtMostOne UNIQUE_IDENTIFIER, 2, "unique_identifier"),
        field!(AtMostOne CRYPTOGRAPHIC_PARAMETERS, 2, "cryptographic_parameters"),
        field!(One DATA, 2, "data"),
    ],
    response: ResponseRow::Fields(&[
        field!(same One UNIQUE_IDENTIFIER, 2, "unique_identifier"),
        field!(One MAC_DATA, 2, "mac_data"),
    ]),
    apart: &[],
};

/// KMIP 1.2, 4.34.
pub(crate) const MAC_VERIFY: &OperationRow = &OperationRow {
    operation: Operation::MACVerify,
    since: 2,
    effect: Effect::Reads,
    request: &[
        field!(AtMostOne UNIQUE_IDENTIFIER, 2, "unique_identifier"),
        field!(AtMostOne CRYPTOGRAPHIC_PARAMETERS, 2, "cryptographic_parameters"),
        field!(One DATA, 2, "data"),
        field!(One MAC_DATA, 2, "mac_data"),
    ],
    response: ResponseRow::Fields(&[
        field!(same One UNIQUE_IDENTIFIER, 2, "unique_identifier"),
        field!(One VALIDITY_INDICATOR, 2, "validity_indicator"),
    ]),
    apart: &[],
};

/// KMIP 1.2, 4.35.
pub(crate) const RNG_RETRIEVE: &OperationRow = &OperationRow {
    operation: Operation::RNGRetrieve,
    since: 2,
    effect: Effect::Reads,
    request: &[field!(One DATA_LENGTH, 2, "data_length")],
    response: ResponseRow::Fields(&[field!(One DATA, 2, "random_bytes")]),
    apart: &[],
};

/// KMIP 1.2, 4.36.
pub(crate) const RNG_SEED: &OperationRow = &OperationRow {
    operation: Operation::RNGSeed,
    since: 2,
    effect: Effect::Changes,
    request: &[field!(One DATA, 2, "data")],
    response: ResponseRow::Fields(&[field!(One DATA_LENGTH, 2, "data_length")]),
    apart: &[],
};

/// KMIP 1.2, 4.37.
pub(crate) const HASH: &OperationRow = &OperationRow {
    operation: Operation::Hash,
    since: 2,
    effect: Effect::Reads,
    request: &[
        field!(One CRYPTOGRAPHIC_PARAMETERS, 2, "cryptographic_parameters"),
        field!(One DATA, 2, "data"),
    ],
    response: ResponseRow::Fields(&[field!(One DATA, 2, "data")]),
    apart: &[],
};

/// KMIP 1.2, 4.38.
pub(crate) const CREATE_SPLIT_KEY: &OperationRow = &OperationRow {
    operation: Operation::CreateSplitKey,
    since: 2,
    effect: Effect::Makes,
    request: &[
        field!(One OBJECT_TYPE, 2, "object_type"),
        field!(AtMostOne UNIQUE_IDENTIFIER, 2, "unique_identifier"),
        field!(One SPLIT_KEY_PARTS, 2, "split_key_parts"),
        field!(One SPLIT_KEY_THRESHOLD, 2, "split_key_threshold"),
        field!(One SPLIT_KEY_METHOD, 2, "split_key_method"),
        field!(AtMostOne PRIME_FIELD_SIZE, 2, "prime_field_size"),
        field!(One TEMPLATE_ATTRIBUTE, 2, "template_attribute"),
    ],
    response: ResponseRow::Fields(&[
        field!(AtLeastOne UNIQUE_IDENTIFIER, 2, "unique_identifiers"),
        field!(AtMostOne TEMPLATE_ATTRIBUTE, 2, "template_attribute"),
    ]),
    apart: &[],
};

/// KMIP 1.2, 4.39.
pub(crate) const JOIN_SPLIT_KEY: &OperationRow = &OperationRow {
    operation: Operation::JoinSplitKey,
    since: 2,
    effect: Effect::Makes,
    request: &[
        field!(One OBJECT_TYPE, 2, "object_type"),
        field!(AtLeastOne UNIQUE_IDENTIFIER, 2, "unique_identifiers"),
        field!(AtMostOne SECRET_DATA_TYPE, 2, "secret_data_type"),
        field!(AtMostOne TEMPLATE_ATTRIBUTE, 2, "template_attribute"),
    ],
    response: ResponseRow::Fields(&[
        field!(One UNIQUE_IDENTIFIER, 2, "unique_identifier"),
        field!(AtMostOne TEMPLATE_ATTRIBUTE, 2, "template_attribute"),
    ]),
    apart: &[],
};
