// Written by tables/generate.py from tables/*.toml: change these instead.
//! The structures of the operations, and the tags of managed objects.
use crate::rows::{FieldRow, Mark, Place, StructureRow, field};
use kmip_tags::tags;

/// The structures.
pub(crate) const STRUCTURES: &[StructureRow] = &[
    // KMIP 1.0, 2.1.1
    StructureRow {
        tag: tags::ATTRIBUTE,
        fields: &[
            field!(One ATTRIBUTE_NAME, 0, "name"),
            field!(AtMostOne ATTRIBUTE_INDEX, 0, "index"),
            field!(One ATTRIBUTE_VALUE, 0, "value"),
        ],
    },
    // KMIP 1.0, 2.1.3
    StructureRow {
        tag: tags::KEY_BLOCK,
        fields: &[
            field!(One KEY_FORMAT_TYPE, 0, "key_format_type"),
            field!(AtMostOne KEY_COMPRESSION_TYPE, 0, "key_compression_type"),
            field!(AtMostOne KEY_VALUE, 0, "key_value"),
            field!(AtMostOne CRYPTOGRAPHIC_ALGORITHM, 0, "cryptographic_algorithm"),
            field!(AtMostOne CRYPTOGRAPHIC_LENGTH, 0, "cryptographic_length"),
            field!(AtMostOne KEY_WRAPPING_DATA, 0, "key_wrapping_data"),
        ],
    },
    // KMIP 1.0, 2.1.4
    StructureRow {
        tag: tags::KEY_VALUE,
        fields: &[
            field!(One KEY_MATERIAL, 0, "key_material"),
            field!(AnyNumber ATTRIBUTE, 0, "attributes"),
        ],
    },
    // KMIP 1.0, 2.1.5
    StructureRow {
        tag: tags::KEY_WRAPPING_DATA,
        fields: &[
            field!(One WRAPPING_METHOD, 0, "wrapping_method"),
            field!(AtMostOne ENCRYPTION_KEY_INFORMATION, 0, "encryption_key_information"),
            field!(AtMostOne MAC_SIGNATURE_KEY_INFORMATION, 0, "mac_signature_key_information"),
            field!(AtMostOne MAC_SIGNATURE, 0, "mac_signature"),
            field!(AtMostOne IV_COUNTER_NONCE, 0, "iv_counter_nonce"),
            field!(AtMostOne ENCODING_OPTION, 1, "encoding_option"),
        ],
    },
    // KMIP 1.0, 2.1.5
    StructureRow {
        tag: tags::ENCRYPTION_KEY_INFORMATION,
        fields: &[
            field!(One UNIQUE_IDENTIFIER, 0, "unique_identifier"),
            field!(AtMostOne CRYPTOGRAPHIC_PARAMETERS, 0, "cryptographic_parameters"),
        ],
    },
    // KMIP 1.0, 2.1.5
    StructureRow {
        tag: tags::MAC_SIGNATURE_KEY_INFORMATION,
        fields: &[
            field!(One UNIQUE_IDENTIFIER, 0, "unique_identifier"),
            field!(AtMostOne CRYPTOGRAPHIC_PARAMETERS, 0, "cryptographic_parameters"),
        ],
    },
    // KMIP 1.0, 2.1.6
    StructureRow {
        tag: tags::KEY_WRAPPING_SPECIFICATION,
        fields: &[
            field!(One WRAPPING_METHOD, 0, "wrapping_method"),
            field!(AtMostOne ENCRYPTION_KEY_INFORMATION, 0, "encryption_key_information"),
            field!(AtMostOne MAC_SIGNATURE_KEY_INFORMATION, 0, "mac_signature_key_information"),
            field!(AnyNumber ATTRIBUTE_NAME, 0, "attribute_names"),
            field!(AtMostOne ENCODING_OPTION, 1, "encoding_option"),
        ],
    },
    // KMIP 1.0, 2.1.8
    StructureRow {
        tag: tags::TEMPLATE_ATTRIBUTE,
        fields: &[
            field!(AnyNumber NAME, 0, "names"),
            field!(AnyNumber ATTRIBUTE, 0, "attributes"),
        ],
    },
    // KMIP 1.0, 2.1.8
    StructureRow {
        tag: tags::COMMON_TEMPLATE_ATTRIBUTE,
        fields: &[
            field!(AnyNumber NAME, 0, "names"),
            field!(AnyNumber ATTRIBUTE, 0, "attributes"),
        ],
    },
    // KMIP 1.0, 2.1.8
    StructureRow {
        tag: tags::PRIVATE_KEY_TEMPLATE_ATTRIBUTE,
        fields: &[
            field!(AnyNumber NAME, 0, "names"),
            field!(AnyNumber ATTRIBUTE, 0, "attributes"),
        ],
    },
    // KMIP 1.0, 2.1.8
    StructureRow {
        tag: tags::PUBLIC_KEY_TEMPLATE_ATTRIBUTE,
        fields: &[
            field!(AnyNumber NAME, 0, "names"),
            field!(AnyNumber ATTRIBUTE, 0, "attributes"),
        ],
    },
    // KMIP 1.1, 2.1.9
    StructureRow {
        tag: tags::EXTENSION_INFORMATION,
        fields: &[
            field!(One EXTENSION_NAME, 1, "extension_name"),
            field!(AtMostOne EXTENSION_TAG, 1, "extension_tag"),
            field!(AtMostOne EXTENSION_TYPE, 1, "extension_type"),
        ],
    },
    // KMIP 1.0, 2.2.1
    StructureRow {
        tag: tags::CERTIFICATE,
        fields: &[
            field!(One CERTIFICATE_TYPE, 0, "certificate_type"),
            field!(One CERTIFICATE_VALUE, 0, "certificate_value"),
        ],
    },
    // KMIP 1.0, 2.2.2
    StructureRow {
        tag: tags::SYMMETRIC_KEY,
        fields: &[field!(One KEY_BLOCK, 0, "key_block")],
    },
    // KMIP 1.0, 2.2.3
    StructureRow {
        tag: tags::PUBLIC_KEY,
        fields: &[field!(One KEY_BLOCK, 0, "key_block")],
    },
    // KMIP 1.0, 2.2.4
    StructureRow {
        tag: tags::PRIVATE_KEY,
        fields: &[field!(One KEY_BLOCK, 0, "key_block")],
    },
    // KMIP 1.0, 2.2.5
    StructureRow {
        tag: tags::SPLIT_KEY,
        fields: &[
            field!(One SPLIT_KEY_PARTS, 0, "split_key_parts"),
            field!(One KEY_PART_IDENTIFIER, 0, "key_part_identifier"),
            field!(One SPLIT_KEY_THRESHOLD, 0, "split_key_threshold"),
            field!(One SPLIT_KEY_METHOD, 0, "split_key_method"),
            field!(AtMostOne PRIME_FIELD_SIZE, 0, "prime_field_size"),
            field!(One KEY_BLOCK, 0, "key_block"),
        ],
    },
    // KMIP 1.0, 2.2.6
    StructureRow {
        tag: tags::TEMPLATE,
        fields: &[field!(AtLeastOne ATTRIBUTE, 0, "attributes")],
    },
    // KMIP 1.0, 2.2.7
    StructureRow {
        tag: tags::SECRET_DATA,
        fields: &[
            field!(One SECRET_DATA_TYPE, 0, "secret_data_type"),
            field!(One KEY_BLOCK, 0, "key_block"),
        ],
    },
    // KMIP 1.0, 2.2.8
    StructureRow {
        tag: tags::OPAQUE_OBJECT,
        fields: &[
            field!(One OPAQUE_DATA_TYPE, 0, "opaque_data_type"),
            field!(One OPAQUE_DATA_VALUE, 0, "opaque_data_value"),
        ],
    },
    // KMIP 1.2, 2.2.9
    StructureRow {
        tag: tags::PGP_KEY,
        fields: &[
            field!(One PGP_KEY_VERSION, 2, "pgp_key_version"),
            field!(One KEY_BLOCK, 2, "key_block"),
        ],
    },
    // KMIP 1.0, 3.2
    StructureRow {
        tag: tags::NAME,
        fields: &[
            field!(One NAME_VALUE, 0, "name_value"),
            field!(One NAME_TYPE, 0, "name_type"),
        ],
    },
    // KMIP 1.2, 3.6
    StructureRow {
        tag: tags::CRYPTOGRAPHIC_PARAMETERS,
        fields: &[
            field!(AtMostOne BLOCK_CIPHER_MODE, 0, "block_cipher_mode"),
            field!(AtMostOne PADDING_METHOD, 0, "padding_method"),
            field!(AtMostOne HASHING_ALGORITHM, 0, "hashing_algorithm"),
            field!(AtMostOne KEY_ROLE_TYPE, 0, "key_role_type"),
            field!(AtMostOne DIGITAL_SIGNATURE_ALGORITHM, 2, "digital_signature_algorithm"),
            field!(AtMostOne CRYPTOGRAPHIC_ALGORITHM, 2, "cryptographic_algorithm"),
            field!(AtMostOne RANDOM_IV, 2, "random_iv"),
            field!(AtMostOne IV_LENGTH, 2, "iv_length"),
            field!(AtMostOne TAG_LENGTH, 2, "tag_length"),
            field!(AtMostOne FIXED_FIELD_LENGTH, 2, "fixed_field_length"),
            field!(AtMostOne INVOCATION_FIELD_LENGTH, 2, "invocation_field_length"),
            field!(AtMostOne COUNTER_LENGTH, 2, "counter_length"),
            field!(AtMostOne INITIAL_COUNTER_VALUE, 2, "initial_counter_value"),
        ],
    },
    // KMIP 1.0, 3.7
    StructureRow {
        tag: tags::CRYPTOGRAPHIC_DOMAIN_PARAMETERS,
        fields: &[
            field!(AtMostOne QLENGTH, 0, "qlength"),
            field!(AtMostOne RECOMMENDED_CURVE, 0, "recommended_curve"),
        ],
    },
    // KMIP 1.0, 3.26
    StructureRow {
        tag: tags::REVOCATION_REASON,
        fields: &[
            field!(One REVOCATION_REASON_CODE, 0, "revocation_reason_code"),
            field!(AtMostOne REVOCATION_MESSAGE, 0, "revocation_message"),
        ],
    },
    // KMIP 1.0, 4.5
    StructureRow {
        tag: tags::DERIVATION_PARAMETERS,
        fields: &[
            field!(AtMostOne CRYPTOGRAPHIC_PARAMETERS, 0, "cryptographic_parameters"),
            field!(AtMostOne INITIALIZATION_VECTOR, 0, "initialization_vector"),
            field!(AtMostOne DERIVATION_DATA, 0, "derivation_data"),
            field!(AtMostOne SALT, 0, "salt"),
            field!(AtMostOne ITERATION_COUNT, 0, "iteration_count"),
        ],
    },
    // KMIP 1.0, 6.1
    StructureRow {
        tag: tags::PROTOCOL_VERSION,
        fields: &[
            field!(One PROTOCOL_VERSION_MAJOR, 0, "major"),
            field!(One PROTOCOL_VERSION_MINOR, 0, "minor"),
        ],
    },
];

/// The tags of managed objects.
pub(crate) const OBJECTS: &[u32] = &[
    tags::CERTIFICATE,
    tags::SYMMETRIC_KEY,
    tags::PUBLIC_KEY,
    tags::PRIVATE_KEY,
    tags::SPLIT_KEY,
    tags::TEMPLATE,
    tags::SECRET_DATA,
    tags::OPAQUE_OBJECT,
    tags::PGP_KEY,
];
