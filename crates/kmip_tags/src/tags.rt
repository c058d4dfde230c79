// Written by tables/generate.py from tables/*.toml: change these instead.
//! The tags of KMIP by their names: KMIP 1.0, 9.1.3.1, and the tables of later versions.

/// Activation Date.
pub const ACTIVATION_DATE: u32 = 0x420001;
/// Application Data.
pub const APPLICATION_DATA: u32 = 0x420002;
/// Application Namespace.
pub const APPLICATION_NAMESPACE: u32 = 0x420003;
/// Application Specific Information.
pub const APPLICATION_SPECIFIC_INFORMATION: u32 = 0x420004;
/// Archive Date.
pub const ARCHIVE_DATE: u32 = 0x420005;
/// Asynchronous Correlation Value.
pub const ASYNCHRONOUS_CORRELATION_VALUE: u32 = 0x420006;
/// Asynchronous Indicator.
pub const ASYNCHRONOUS_INDICATOR: u32 = 0x420007;
/// Attribute.
pub const ATTRIBUTE: u32 = 0x420008;
/// Attribute Index.
pub const ATTRIBUTE_INDEX: u32 = 0x420009;
/// Attribute Name.
pub const ATTRIBUTE_NAME: u32 = 0x42000A;
/// Attribute Value.
pub const ATTRIBUTE_VALUE: u32 = 0x42000B;
/// Authentication.
pub const AUTHENTICATION: u32 = 0x42000C;
/// Batch Count.
pub const BATCH_COUNT: u32 = 0x42000D;
/// Batch Error Continuation Option.
pub const BATCH_ERROR_CONTINUATION_OPTION: u32 = 0x42000E;
/// Batch Item.
pub const BATCH_ITEM: u32 = 0x42000F;
/// Batch Order Option.
pub const BATCH_ORDER_OPTION: u32 = 0x420010;
/// Block Cipher Mode.
pub const BLOCK_CIPHER_MODE: u32 = 0x420011;
/// Cancellation Result.
pub const CANCELLATION_RESULT: u32 = 0x420012;
/// Certificate.
pub const CERTIFICATE: u32 = 0x420013;
/// Certificate Identifier.
pub const CERTIFICATE_IDENTIFIER: u32 = 0x420014;
/// Certificate Issuer.
pub const CERTIFICATE_ISSUER: u32 = 0x420015;
/// Certificate Issuer Alternative Name.
pub const CERTIFICATE_ISSUER_ALTERNATIVE_NAME: u32 = 0x420016;
/// Certificate Issuer Distinguished Name.
pub const CERTIFICATE_ISSUER_DISTINGUISHED_NAME: u32 = 0x420017;
/// Certificate Request.
pub const CERTIFICATE_REQUEST: u32 = 0x420018;
/// Certificate Request Type.
pub const CERTIFICATE_REQUEST_TYPE: u32 = 0x420019;
/// Certificate Subject.
pub const CERTIFICATE_SUBJECT: u32 = 0x42001A;
/// Certificate Subject Alternative Name.
pub const CERTIFICATE_SUBJECT_ALTERNATIVE_NAME: u32 = 0x42001B;
/// Certificate Subject Distinguished Name.
pub const CERTIFICATE_SUBJECT_DISTINGUISHED_NAME: u32 = 0x42001C;
/// Certificate Type.
pub const CERTIFICATE_TYPE: u32 = 0x42001D;
/// Certificate Value.
pub const CERTIFICATE_VALUE: u32 = 0x42001E;
/// Common Template-Attribute.
pub const COMMON_TEMPLATE_ATTRIBUTE: u32 = 0x42001F;
/// Compromise Date.
pub const COMPROMISE_DATE: u32 = 0x420020;
/// Compromise Occurrence Date.
pub const COMPROMISE_OCCURRENCE_DATE: u32 = 0x420021;
/// Contact Information.
pub const CONTACT_INFORMATION: u32 = 0x420022;
/// Credential.
pub const CREDENTIAL: u32 = 0x420023;
/// Credential Type.
pub const CREDENTIAL_TYPE: u32 = 0x420024;
/// Credential Value.
pub const CREDENTIAL_VALUE: u32 = 0x420025;
/// Criticality Indicator.
pub const CRITICALITY_INDICATOR: u32 = 0x420026;
/// CRT Coefficient.
pub const CRT_COEFFICIENT: u32 = 0x420027;
/// Cryptographic Algorithm.
pub const CRYPTOGRAPHIC_ALGORITHM: u32 = 0x420028;
/// Cryptographic Domain Parameters.
pub const CRYPTOGRAPHIC_DOMAIN_PARAMETERS: u32 = 0x420029;
/// Cryptographic Length.
pub const CRYPTOGRAPHIC_LENGTH: u32 = 0x42002A;
/// Cryptographic Parameters.
pub const CRYPTOGRAPHIC_PARAMETERS: u32 = 0x42002B;
/// Cryptographic Usage Mask.
pub const CRYPTOGRAPHIC_USAGE_MASK: u32 = 0x42002C;
/// Custom Attribute.
pub const CUSTOM_ATTRIBUTE: u32 = 0x42002D;
/// D.
pub const D: u32 = 0x42002E;
/// Deactivation Date.
pub const DEACTIVATION_DATE: u32 = 0x42002F;
/// Derivation Data.
pub const DERIVATION_DATA: u32 = 0x420030;
/// Derivation Method.
pub const DERIVATION_METHOD: u32 = 0x420031;
/// Derivation Parameters.
pub const DERIVATION_PARAMETERS: u32 = 0x420032;
/// Destroy Date.
pub const DESTROY_DATE: u32 = 0x420033;
/// Digest.
pub const DIGEST: u32 = 0x420034;
/// Digest Value.
pub const DIGEST_VALUE: u32 = 0x420035;
/// Encryption Key Information.
pub const ENCRYPTION_KEY_INFORMATION: u32 = 0x420036;
/// G.
pub const G: u32 = 0x420037;
/// Hashing Algorithm.
pub const HASHING_ALGORITHM: u32 = 0x420038;
/// Initial Date.
pub const INITIAL_DATE: u32 = 0x420039;
/// Initialization Vector.
pub const INITIALIZATION_VECTOR: u32 = 0x42003A;
/// Issuer.
pub const ISSUER: u32 = 0x42003B;
/// Iteration Count.
pub const ITERATION_COUNT: u32 = 0x42003C;
/// IV/Counter/Nonce.
pub const IV_COUNTER_NONCE: u32 = 0x42003D;
/// J.
pub const J: u32 = 0x42003E;
/// Key.
pub const KEY: u32 = 0x42003F;
/// Key Block.
pub const KEY_BLOCK: u32 = 0x420040;
/// Key Compression Type.
pub const KEY_COMPRESSION_TYPE: u32 = 0x420041;
/// Key Format Type.
pub const KEY_FORMAT_TYPE: u32 = 0x420042;
/// Key Material.
pub const KEY_MATERIAL: u32 = 0x420043;
/// Key Part Identifier.
pub const KEY_PART_IDENTIFIER: u32 = 0x420044;
/// Key Value.
pub const KEY_VALUE: u32 = 0x420045;
/// Key Wrapping Data.
pub const KEY_WRAPPING_DATA: u32 = 0x420046;
/// Key Wrapping Specification.
pub const KEY_WRAPPING_SPECIFICATION: u32 = 0x420047;
/// Last Change Date.
pub const LAST_CHANGE_DATE: u32 = 0x420048;
/// Lease Time.
pub const LEASE_TIME: u32 = 0x420049;
/// Link.
pub const LINK: u32 = 0x42004A;
/// Link Type.
pub const LINK_TYPE: u32 = 0x42004B;
/// Linked Object Identifier.
pub const LINKED_OBJECT_IDENTIFIER: u32 = 0x42004C;
/// MAC/Signature.
pub const MAC_SIGNATURE: u32 = 0x42004D;
/// MAC/Signature Key Information.
pub const MAC_SIGNATURE_KEY_INFORMATION: u32 = 0x42004E;
/// Maximum Items.
pub const MAXIMUM_ITEMS: u32 = 0x42004F;
/// Maximum Response Size.
pub const MAXIMUM_RESPONSE_SIZE: u32 = 0x420050;
/// Message Extension.
pub const MESSAGE_EXTENSION: u32 = 0x420051;
/// Modulus.
pub const MODULUS: u32 = 0x420052;
/// Name.
pub const NAME: u32 = 0x420053;
/// Name Type.
pub const NAME_TYPE: u32 = 0x420054;
/// Name Value.
pub const NAME_VALUE: u32 = 0x420055;
/// Object Group.
pub const OBJECT_GROUP: u32 = 0x420056;
/// Object Type.
pub const OBJECT_TYPE: u32 = 0x420057;
/// Offset.
pub const OFFSET: u32 = 0x420058;
/// Opaque Data Type.
pub const OPAQUE_DATA_TYPE: u32 = 0x420059;
/// Opaque Data Value.
pub const OPAQUE_DATA_VALUE: u32 = 0x42005A;
/// Opaque Object.
pub const OPAQUE_OBJECT: u32 = 0x42005B;
/// Operation.
pub const OPERATION: u32 = 0x42005C;
/// Operation Policy Name.
pub const OPERATION_POLICY_NAME: u32 = 0x42005D;
/// P.
pub const P: u32 = 0x42005E;
/// Padding Method.
pub const PADDING_METHOD: u32 = 0x42005F;
/// Prime Exponent P.
pub const PRIME_EXPONENT_P: u32 = 0x420060;
/// Prime Exponent Q.
pub const PRIME_EXPONENT_Q: u32 = 0x420061;
/// Prime Field Size.
pub const PRIME_FIELD_SIZE: u32 = 0x420062;
/// Private Exponent.
pub const PRIVATE_EXPONENT: u32 = 0x420063;
/// Private Key.
pub const PRIVATE_KEY: u32 = 0x420064;
/// Private Key Template-Attribute.
pub const PRIVATE_KEY_TEMPLATE_ATTRIBUTE: u32 = 0x420065;
/// Private Key Unique Identifier.
pub const PRIVATE_KEY_UNIQUE_IDENTIFIER: u32 = 0x420066;
/// Process Start Date.
pub const PROCESS_START_DATE: u32 = 0x420067;
/// Protect Stop Date.
pub const PROTECT_STOP_DATE: u32 = 0x420068;
/// Protocol Version.
pub const PROTOCOL_VERSION: u32 = 0x420069;
/// Protocol Version Major.
pub const PROTOCOL_VERSION_MAJOR: u32 = 0x42006A;
/// Protocol Version Minor.
pub const PROTOCOL_VERSION_MINOR: u32 = 0x42006B;
/// Public Exponent.
pub const PUBLIC_EXPONENT: u32 = 0x42006C;
/// Public Key.
pub const PUBLIC_KEY: u32 = 0x42006D;
/// Public Key Template-Attribute.
pub const PUBLIC_KEY_TEMPLATE_ATTRIBUTE: u32 = 0x42006E;
/// Public Key Unique Identifier.
pub const PUBLIC_KEY_UNIQUE_IDENTIFIER: u32 = 0x42006F;
/// Put Function.
pub const PUT_FUNCTION: u32 = 0x420070;
/// Q.
pub const Q: u32 = 0x420071;
/// Q String.
pub const Q_STRING: u32 = 0x420072;
/// Qlength.
pub const QLENGTH: u32 = 0x420073;
/// Query Function.
pub const QUERY_FUNCTION: u32 = 0x420074;
/// Recommended Curve.
pub const RECOMMENDED_CURVE: u32 = 0x420075;
/// Replaced Unique Identifier.
pub const REPLACED_UNIQUE_IDENTIFIER: u32 = 0x420076;
/// Request Header.
pub const REQUEST_HEADER: u32 = 0x420077;
/// Request Message.
pub const REQUEST_MESSAGE: u32 = 0x420078;
/// Request Payload.
pub const REQUEST_PAYLOAD: u32 = 0x420079;
/// Response Header.
pub const RESPONSE_HEADER: u32 = 0x42007A;
/// Response Message.
pub const RESPONSE_MESSAGE: u32 = 0x42007B;
/// Response Payload.
pub const RESPONSE_PAYLOAD: u32 = 0x42007C;
/// Result Message.
pub const RESULT_MESSAGE: u32 = 0x42007D;
/// Result Reason.
pub const RESULT_REASON: u32 = 0x42007E;
/// Result Status.
pub const RESULT_STATUS: u32 = 0x42007F;
/// Revocation Message.
pub const REVOCATION_MESSAGE: u32 = 0x420080;
/// Revocation Reason.
pub const REVOCATION_REASON: u32 = 0x420081;
/// Revocation Reason Code.
pub const REVOCATION_REASON_CODE: u32 = 0x420082;
/// Key Role Type.
pub const KEY_ROLE_TYPE: u32 = 0x420083;
/// Salt.
pub const SALT: u32 = 0x420084;
/// Secret Data.
pub const SECRET_DATA: u32 = 0x420085;
/// Secret Data Type.
pub const SECRET_DATA_TYPE: u32 = 0x420086;
/// Serial Number.
pub const SERIAL_NUMBER: u32 = 0x420087;
/// Server Information.
pub const SERVER_INFORMATION: u32 = 0x420088;
/// Split Key.
pub const SPLIT_KEY: u32 = 0x420089;
/// Split Key Method.
pub const SPLIT_KEY_METHOD: u32 = 0x42008A;
/// Split Key Parts.
pub const SPLIT_KEY_PARTS: u32 = 0x42008B;
/// Split Key Threshold.
pub const SPLIT_KEY_THRESHOLD: u32 = 0x42008C;
/// State.
pub const STATE: u32 = 0x42008D;
/// Storage Status Mask.
pub const STORAGE_STATUS_MASK: u32 = 0x42008E;
/// Symmetric Key.
pub const SYMMETRIC_KEY: u32 = 0x42008F;
/// Template.
pub const TEMPLATE: u32 = 0x420090;
/// Template-Attribute.
pub const TEMPLATE_ATTRIBUTE: u32 = 0x420091;
/// Time Stamp.
pub const TIME_STAMP: u32 = 0x420092;
/// Unique Batch Item ID.
pub const UNIQUE_BATCH_ITEM_ID: u32 = 0x420093;
/// Unique Identifier.
pub const UNIQUE_IDENTIFIER: u32 = 0x420094;
/// Usage Limits.
pub const USAGE_LIMITS: u32 = 0x420095;
/// Usage Limits Count.
pub const USAGE_LIMITS_COUNT: u32 = 0x420096;
/// Usage Limits Total.
pub const USAGE_LIMITS_TOTAL: u32 = 0x420097;
/// Usage Limits Unit.
pub const USAGE_LIMITS_UNIT: u32 = 0x420098;
/// Username.
pub const USERNAME: u32 = 0x420099;
/// Validity Date.
pub const VALIDITY_DATE: u32 = 0x42009A;
/// Validity Indicator.
pub const VALIDITY_INDICATOR: u32 = 0x42009B;
/// Vendor Extension.
pub const VENDOR_EXTENSION: u32 = 0x42009C;
/// Vendor Identification.
pub const VENDOR_IDENTIFICATION: u32 = 0x42009D;
/// Wrapping Method.
pub const WRAPPING_METHOD: u32 = 0x42009E;
/// X.
pub const X: u32 = 0x42009F;
/// Y.
pub const Y: u32 = 0x4200A0;
/// Password.
pub const PASSWORD: u32 = 0x4200A1;
/// Device Identifier.
pub const DEVICE_IDENTIFIER: u32 = 0x4200A2;
/// Encoding Option.
pub const ENCODING_OPTION: u32 = 0x4200A3;
/// Extension Information.
pub const EXTENSION_INFORMATION: u32 = 0x4200A4;
/// Extension Name.
pub const EXTENSION_NAME: u32 = 0x4200A5;
/// Extension Tag.
pub const EXTENSION_TAG: u32 = 0x4200A6;
/// Extension Type.
pub const EXTENSION_TYPE: u32 = 0x4200A7;
/// Fresh.
pub const FRESH: u32 = 0x4200A8;
/// Machine Identifier.
pub const MACHINE_IDENTIFIER: u32 = 0x4200A9;
/// Media Identifier.
pub const MEDIA_IDENTIFIER: u32 = 0x4200AA;
/// Network Identifier.
pub const NETWORK_IDENTIFIER: u32 = 0x4200AB;
/// Object Group Member.
pub const OBJECT_GROUP_MEMBER: u32 = 0x4200AC;
/// Certificate Length.
pub const CERTIFICATE_LENGTH: u32 = 0x4200AD;
/// Digital Signature Algorithm.
pub const DIGITAL_SIGNATURE_ALGORITHM: u32 = 0x4200AE;
/// Certificate Serial Number.
pub const CERTIFICATE_SERIAL_NUMBER: u32 = 0x4200AF;
/// Device Serial Number.
pub const DEVICE_SERIAL_NUMBER: u32 = 0x4200B0;
/// Issuer Alternative Name.
pub const ISSUER_ALTERNATIVE_NAME: u32 = 0x4200B1;
/// Issuer Distinguished Name.
pub const ISSUER_DISTINGUISHED_NAME: u32 = 0x4200B2;
/// Subject Alternative Name.
pub const SUBJECT_ALTERNATIVE_NAME: u32 = 0x4200B3;
/// Subject Distinguished Name.
pub const SUBJECT_DISTINGUISHED_NAME: u32 = 0x4200B4;
/// X.509 Certificate Identifier.
pub const X_509_CERTIFICATE_IDENTIFIER: u32 = 0x4200B5;
/// X.509 Certificate Issuer.
pub const X_509_CERTIFICATE_ISSUER: u32 = 0x4200B6;
/// X.509 Certificate Subject.
pub const X_509_CERTIFICATE_SUBJECT: u32 = 0x4200B7;
/// Key Value Location.
pub const KEY_VALUE_LOCATION: u32 = 0x4200B8;
/// Key Value Location Value.
pub const KEY_VALUE_LOCATION_VALUE: u32 = 0x4200B9;
/// Key Value Location Type.
pub const KEY_VALUE_LOCATION_TYPE: u32 = 0x4200BA;
/// Key Value Present.
pub const KEY_VALUE_PRESENT: u32 = 0x4200BB;
/// Original Creation Date.
pub const ORIGINAL_CREATION_DATE: u32 = 0x4200BC;
/// PGP Key.
pub const PGP_KEY: u32 = 0x4200BD;
/// PGP Key Version.
pub const PGP_KEY_VERSION: u32 = 0x4200BE;
/// Alternative Name.
pub const ALTERNATIVE_NAME: u32 = 0x4200BF;
/// Alternative Name Value.
pub const ALTERNATIVE_NAME_VALUE: u32 = 0x4200C0;
/// Alternative Name Type.
pub const ALTERNATIVE_NAME_TYPE: u32 = 0x4200C1;
/// Data.
pub const DATA: u32 = 0x4200C2;
/// Signature Data.
pub const SIGNATURE_DATA: u32 = 0x4200C3;
/// Data Length.
pub const DATA_LENGTH: u32 = 0x4200C4;
/// Random IV.
pub const RANDOM_IV: u32 = 0x4200C5;
/// MAC Data.
pub const MAC_DATA: u32 = 0x4200C6;
/// Attestation Type.
pub const ATTESTATION_TYPE: u32 = 0x4200C7;
/// Nonce.
pub const NONCE: u32 = 0x4200C8;
/// Nonce ID.
pub const NONCE_ID: u32 = 0x4200C9;
/// Nonce Value.
pub const NONCE_VALUE: u32 = 0x4200CA;
/// Attestation Measurement.
pub const ATTESTATION_MEASUREMENT: u32 = 0x4200CB;
/// Attestation Assertion.
pub const ATTESTATION_ASSERTION: u32 = 0x4200CC;
/// IV Length.
pub const IV_LENGTH: u32 = 0x4200CD;
/// Tag Length.
pub const TAG_LENGTH: u32 = 0x4200CE;
/// Fixed Field Length.
pub const FIXED_FIELD_LENGTH: u32 = 0x4200CF;
/// Counter Length.
pub const COUNTER_LENGTH: u32 = 0x4200D0;
/// Initial Counter Value.
pub const INITIAL_COUNTER_VALUE: u32 = 0x4200D1;
/// Invocation Field Length.
pub const INVOCATION_FIELD_LENGTH: u32 = 0x4200D2;
/// Attestation Capable Indicator.
pub const ATTESTATION_CAPABLE_INDICATOR: u32 = 0x4200D3;
/// Offset Items.
pub const OFFSET_ITEMS: u32 = 0x4200D4;
/// Located Items.
pub const LOCATED_ITEMS: u32 = 0x4200D5;
/// Correlation Value.
pub const CORRELATION_VALUE: u32 = 0x4200D6;
/// Init Indicator.
pub const INIT_INDICATOR: u32 = 0x4200D7;
/// Final Indicator.
pub const FINAL_INDICATOR: u32 = 0x4200D8;
/// RNG Parameters.
pub const RNG_PARAMETERS: u32 = 0x4200D9;
/// RNG Algorithm.
pub const RNG_ALGORITHM: u32 = 0x4200DA;
/// DRBG Algorithm.
pub const DRBG_ALGORITHM: u32 = 0x4200DB;
/// FIPS186 Variation.
pub const FIPS186_VARIATION: u32 = 0x4200DC;
/// Prediction Resistance.
pub const PREDICTION_RESISTANCE: u32 = 0x4200DD;
/// Random Number Generator.
pub const RANDOM_NUMBER_GENERATOR: u32 = 0x4200DE;
/// Validation Information.
pub const VALIDATION_INFORMATION: u32 = 0x4200DF;
/// Validation Authority Type.
pub const VALIDATION_AUTHORITY_TYPE: u32 = 0x4200E0;
/// Validation Authority Country.
pub const VALIDATION_AUTHORITY_COUNTRY: u32 = 0x4200E1;
/// Validation Authority URI.
pub const VALIDATION_AUTHORITY_URI: u32 = 0x4200E2;
/// Validation Version Major.
pub const VALIDATION_VERSION_MAJOR: u32 = 0x4200E3;
/// Validation Version Minor.
pub const VALIDATION_VERSION_MINOR: u32 = 0x4200E4;
/// Validation Type.
pub const VALIDATION_TYPE: u32 = 0x4200E5;
/// Validation Level.
pub const VALIDATION_LEVEL: u32 = 0x4200E6;
/// Validation Certificate Identifier.
pub const VALIDATION_CERTIFICATE_IDENTIFIER: u32 = 0x4200E7;
/// Validation Certificate URI.
pub const VALIDATION_CERTIFICATE_URI: u32 = 0x4200E8;
/// Validation Vendor URI.
pub const VALIDATION_VENDOR_URI: u32 = 0x4200E9;
/// Validation Profile.
pub const VALIDATION_PROFILE: u32 = 0x4200EA;
/// Profile Information.
pub const PROFILE_INFORMATION: u32 = 0x4200EB;
/// Profile Name.
pub const PROFILE_NAME: u32 = 0x4200EC;
/// Server URI.
pub const SERVER_URI: u32 = 0x4200ED;
/// Server Port.
pub const SERVER_PORT: u32 = 0x4200EE;
/// Streaming Capability.
pub const STREAMING_CAPABILITY: u32 = 0x4200EF;
/// Asynchronous Capability.
pub const ASYNCHRONOUS_CAPABILITY: u32 = 0x4200F0;
/// Attestation Capability.
pub const ATTESTATION_CAPABILITY: u32 = 0x4200F1;
/// Unwrap Mode.
pub const UNWRAP_MODE: u32 = 0x4200F2;
/// Destroy Action.
pub const DESTROY_ACTION: u32 = 0x4200F3;
/// Shredding Algorithm.
pub const SHREDDING_ALGORITHM: u32 = 0x4200F4;
/// RNG Mode.
pub const RNG_MODE: u32 = 0x4200F5;
/// Client Registration Method.
pub const CLIENT_REGISTRATION_METHOD: u32 = 0x4200F6;
/// Capability Information.
pub const CAPABILITY_INFORMATION: u32 = 0x4200F7;
/// Key Wrap Type.
pub const KEY_WRAP_TYPE: u32 = 0x4200F8;
/// Batch Undo Capability.
pub const BATCH_UNDO_CAPABILITY: u32 = 0x4200F9;
/// Batch Continue Capability.
pub const BATCH_CONTINUE_CAPABILITY: u32 = 0x4200FA;
/// PKCS#12 Friendly Name.
pub const PKCS_12_FRIENDLY_NAME: u32 = 0x4200FB;
/// Description.
pub const DESCRIPTION: u32 = 0x4200FC;
/// Comment.
pub const COMMENT: u32 = 0x4200FD;
/// Authenticated Encryption Additional Data.
pub const AUTHENTICATED_ENCRYPTION_ADDITIONAL_DATA: u32 = 0x4200FE;
/// Authenticated Encryption Tag.
pub const AUTHENTICATED_ENCRYPTION_TAG: u32 = 0x4200FF;
/// Salt Length.
pub const SALT_LENGTH: u32 = 0x420100;
/// Mask Generator.
pub const MASK_GENERATOR: u32 = 0x420101;
/// Mask Generator Hashing Algorithm.
pub const MASK_GENERATOR_HASHING_ALGORITHM: u32 = 0x420102;
/// P Source.
pub const P_SOURCE: u32 = 0x420103;
/// Trailer Field.
pub const TRAILER_FIELD: u32 = 0x420104;
/// Client Correlation Value.
pub const CLIENT_CORRELATION_VALUE: u32 = 0x420105;
/// Server Correlation Value.
pub const SERVER_CORRELATION_VALUE: u32 = 0x420106;
/// Digested Data.
pub const DIGESTED_DATA: u32 = 0x420107;
/// Certificate Subject CN.
pub const CERTIFICATE_SUBJECT_CN: u32 = 0x420108;
/// Certificate Subject O.
pub const CERTIFICATE_SUBJECT_O: u32 = 0x420109;
/// Certificate Subject OU.
pub const CERTIFICATE_SUBJECT_OU: u32 = 0x42010A;
/// Certificate Subject Email.
pub const CERTIFICATE_SUBJECT_EMAIL: u32 = 0x42010B;
/// Certificate Subject C.
pub const CERTIFICATE_SUBJECT_C: u32 = 0x42010C;
/// Certificate Subject ST.
pub const CERTIFICATE_SUBJECT_ST: u32 = 0x42010D;
/// Certificate Subject L.
pub const CERTIFICATE_SUBJECT_L: u32 = 0x42010E;
/// Certificate Subject UID.
pub const CERTIFICATE_SUBJECT_UID: u32 = 0x42010F;
/// Certificate Subject Serial Number.
pub const CERTIFICATE_SUBJECT_SERIAL_NUMBER: u32 = 0x420110;
/// Certificate Subject Title.
pub const CERTIFICATE_SUBJECT_TITLE: u32 = 0x420111;
/// Certificate Subject DC.
pub const CERTIFICATE_SUBJECT_DC: u32 = 0x420112;
/// Certificate Subject DN Qualifier.
pub const CERTIFICATE_SUBJECT_DN_QUALIFIER: u32 = 0x420113;
/// Certificate Issuer CN.
pub const CERTIFICATE_ISSUER_CN: u32 = 0x420114;
/// Certificate Issuer O.
pub const CERTIFICATE_ISSUER_O: u32 = 0x420115;
/// Certificate Issuer OU.
pub const CERTIFICATE_ISSUER_OU: u32 = 0x420116;
/// Certificate Issuer Email.
pub const CERTIFICATE_ISSUER_EMAIL: u32 = 0x420117;
/// Certificate Issuer C.
pub const CERTIFICATE_ISSUER_C: u32 = 0x420118;
/// Certificate Issuer ST.
pub const CERTIFICATE_ISSUER_ST: u32 = 0x420119;
/// Certificate Issuer L.
pub const CERTIFICATE_ISSUER_L: u32 = 0x42011A;
/// Certificate Issuer UID.
pub const CERTIFICATE_ISSUER_UID: u32 = 0x42011B;
/// Certificate Issuer Serial Number.
pub const CERTIFICATE_ISSUER_SERIAL_NUMBER: u32 = 0x42011C;
/// Certificate Issuer Title.
pub const CERTIFICATE_ISSUER_TITLE: u32 = 0x42011D;
/// Certificate Issuer DC.
pub const CERTIFICATE_ISSUER_DC: u32 = 0x42011E;
/// Certificate Issuer DN Qualifier.
pub const CERTIFICATE_ISSUER_DN_QUALIFIER: u32 = 0x42011F;
/// Sensitive.
pub const SENSITIVE: u32 = 0x420120;
/// Always Sensitive.
pub const ALWAYS_SENSITIVE: u32 = 0x420121;
/// Extractable.
pub const EXTRACTABLE: u32 = 0x420122;
/// Never Extractable.
pub const NEVER_EXTRACTABLE: u32 = 0x420123;
/// Replace Existing.
pub const REPLACE_EXISTING: u32 = 0x420124;
