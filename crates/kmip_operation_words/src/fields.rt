//! The fields that payloads have: which word gives each, and how it stands among the items.
use crate::rows::{FieldRow, Form, Kind, Place};
use kmip_tags::tags;

/// The identifier of the object.
pub const ID: FieldRow = FieldRow {
    name: "ID",
    place: Place::Word(0),
    tag: tags::UNIQUE_IDENTIFIER,
    kind: Kind::Identifier,
    form: Form::Item,
};

/// The identifier of a second object.
pub const SECOND_ID: FieldRow = FieldRow {
    name: "also=",
    place: Place::Option,
    tag: tags::UNIQUE_IDENTIFIER,
    kind: Kind::Identifier,
    form: Form::Item,
};

/// The identifiers of more objects.
pub const IDS: FieldRow = FieldRow {
    name: "ID",
    place: Place::Words,
    tag: tags::UNIQUE_IDENTIFIER,
    kind: Kind::Identifier,
    form: Form::Item,
};

/// The identifier of a private key.
pub const PRIVATE_ID: FieldRow = FieldRow {
    name: "ID",
    place: Place::Word(0),
    tag: tags::PRIVATE_KEY_UNIQUE_IDENTIFIER,
    kind: Kind::Identifier,
    form: Form::Item,
};

/// How a block cipher is used: KMIP 1.0, 9.1.3.2.13.
pub const MODE: FieldRow = FieldRow {
    name: "mode=",
    place: Place::Option,
    tag: tags::BLOCK_CIPHER_MODE,
    kind: Kind::Name,
    form: Form::Parameter,
};

/// How data is padded: KMIP 1.0, 9.1.3.2.14.
pub const PADDING: FieldRow = FieldRow {
    name: "padding=",
    place: Place::Option,
    tag: tags::PADDING_METHOD,
    kind: Kind::Name,
    form: Form::Parameter,
};

/// The hashing algorithm: KMIP 1.0, 9.1.3.2.15.
pub const HASH: FieldRow = FieldRow {
    name: "hash=",
    place: Place::Option,
    tag: tags::HASHING_ALGORITHM,
    kind: Kind::Name,
    form: Form::Parameter,
};

/// What the key is for: KMIP 1.0, 9.1.3.2.16.
pub const ROLE: FieldRow = FieldRow {
    name: "role=",
    place: Place::Option,
    tag: tags::KEY_ROLE_TYPE,
    kind: Kind::Name,
    form: Form::Parameter,
};

/// The algorithm of a signature, with its hash: KMIP 1.2, 9.1.3.2.7.
pub const SIGNATURE_ALGORITHM: FieldRow = FieldRow {
    name: "signature-algorithm=",
    place: Place::Option,
    tag: tags::DIGITAL_SIGNATURE_ALGORITHM,
    kind: Kind::Name,
    form: Form::Parameter,
};

/// The cryptographic algorithm: KMIP 1.0, 9.1.3.2.12.
pub const ALGORITHM: FieldRow = FieldRow {
    name: "algorithm=",
    place: Place::Option,
    tag: tags::CRYPTOGRAPHIC_ALGORITHM,
    kind: Kind::Name,
    form: Form::Parameter,
};

/// Whether the server makes the initialization vector.
pub const RANDOM_IV: FieldRow = FieldRow {
    name: "random-iv=",
    place: Place::Option,
    tag: tags::RANDOM_IV,
    kind: Kind::Truth,
    form: Form::Parameter,
};

/// The length of the initialization vector, in bits.
pub const IV_LENGTH: FieldRow = FieldRow {
    name: "iv-length=",
    place: Place::Option,
    tag: tags::IV_LENGTH,
    kind: Kind::Int,
    form: Form::Parameter,
};

/// The length of the authentication tag, in bytes.
pub const TAG_LENGTH: FieldRow = FieldRow {
    name: "tag-length=",
    place: Place::Option,
    tag: tags::TAG_LENGTH,
    kind: Kind::Int,
    form: Form::Parameter,
};

/// The length of the fixed part of a counter, in bits.
pub const FIXED_FIELD_LENGTH: FieldRow = FieldRow {
    name: "fixed-field-length=",
    place: Place::Option,
    tag: tags::FIXED_FIELD_LENGTH,
    kind: Kind::Int,
    form: Form::Parameter,
};

/// The length of the invocation part of a counter, in bits.
pub const INVOCATION_FIELD_LENGTH: FieldRow = FieldRow {
    name: "invocation-field-length=",
    place: Place::Option,
    tag: tags::INVOCATION_FIELD_LENGTH,
    kind: Kind::Int,
    form: Form::Parameter,
};

/// The length of the counter, in bits.
pub const COUNTER_LENGTH: FieldRow = FieldRow {
    name: "counter-length=",
    place: Place::Option,
    tag: tags::COUNTER_LENGTH,
    kind: Kind::Int,
    form: Form::Parameter,
};

/// The first value of the counter.
pub const INITIAL_COUNTER: FieldRow = FieldRow {
    name: "initial-counter=",
    place: Place::Option,
    tag: tags::INITIAL_COUNTER_VALUE,
    kind: Kind::Int,
    form: Form::Parameter,
};

/// The data that the object is used on.
pub const OBJECT_DATA: FieldRow = FieldRow {
    name: "DATA",
    place: Place::Word(1),
    tag: tags::DATA,
    kind: Kind::Hex,
    form: Form::Item,
};

/// The initialization vector, the counter or the nonce.
pub const IV: FieldRow = FieldRow {
    name: "iv=",
    place: Place::Option,
    tag: tags::IV_COUNTER_NONCE,
    kind: Kind::Hex,
    form: Form::Item,
};

/// The message authentication code.
pub const MAC: FieldRow = FieldRow {
    name: "MAC",
    place: Place::Word(2),
    tag: tags::MAC_DATA,
    kind: Kind::Hex,
    form: Form::Item,
};

/// The signature.
pub const SIGNATURE: FieldRow = FieldRow {
    name: "SIGNATURE",
    place: Place::Word(2),
    tag: tags::SIGNATURE_DATA,
    kind: Kind::Hex,
    form: Form::Item,
};

/// The hashing algorithm, which is needed.
pub const HASHED_BY: FieldRow = FieldRow {
    name: "hash=",
    place: Place::Needed,
    tag: tags::HASHING_ALGORITHM,
    kind: Kind::Name,
    form: Form::Parameter,
};

/// The data, of no object.
pub const DATA_ALONE: FieldRow = FieldRow {
    name: "DATA",
    place: Place::Word(0),
    tag: tags::DATA,
    kind: Kind::Hex,
    form: Form::Item,
};

/// The type of the new object, a symmetric key where none is given.
pub const TYPE: FieldRow = FieldRow {
    name: "type=",
    place: Place::Usual("SymmetricKey"),
    tag: tags::OBJECT_TYPE,
    kind: Kind::Name,
    form: Form::Item,
};

/// The type of a symmetric key.
pub const SYMMETRIC_KEY: FieldRow = FieldRow {
    name: "type=",
    place: Place::Always("SymmetricKey"),
    tag: tags::OBJECT_TYPE,
    kind: Kind::Name,
    form: Form::Item,
};

/// How a key is derived: KMIP 1.0, 9.1.3.2.20.
pub const METHOD: FieldRow = FieldRow {
    name: "METHOD",
    place: Place::Word(1),
    tag: tags::DERIVATION_METHOD,
    kind: Kind::Name,
    form: Form::Item,
};

/// The algorithm that encrypts in a derivation: KMIP 1.2, 3.6.
pub const CIPHER: FieldRow = FieldRow {
    name: "cipher=",
    place: Place::Option,
    tag: tags::CRYPTOGRAPHIC_ALGORITHM,
    kind: Kind::Name,
    form: Form::Parameter,
};

/// The initialization vector of a derivation: KMIP 1.0, 4.5.
pub const DERIVATION_IV: FieldRow = FieldRow {
    name: "iv=",
    place: Place::Option,
    tag: tags::INITIALIZATION_VECTOR,
    kind: Kind::Hex,
    form: Form::Item,
};

/// The data of a derivation.
pub const DERIVATION_DATA: FieldRow = FieldRow {
    name: "data=",
    place: Place::Option,
    tag: tags::DERIVATION_DATA,
    kind: Kind::Hex,
    form: Form::Item,
};

/// The salt of a derivation.
pub const SALT: FieldRow = FieldRow {
    name: "salt=",
    place: Place::Option,
    tag: tags::SALT,
    kind: Kind::Hex,
    form: Form::Item,
};

/// How often a derivation hashes.
pub const ITERATIONS: FieldRow = FieldRow {
    name: "iterations=",
    place: Place::Option,
    tag: tags::ITERATION_COUNT,
    kind: Kind::Int,
    form: Form::Item,
};

/// The algorithm of the new object: KMIP 1.0, 3.4.
pub const ALGORITHM_ATTRIBUTE: FieldRow = FieldRow {
    name: "algorithm=",
    place: Place::Option,
    tag: tags::CRYPTOGRAPHIC_ALGORITHM,
    kind: Kind::Name,
    form: Form::Attribute("Cryptographic Algorithm"),
};

/// The length of the new object, in bits, which is needed: KMIP 1.0, 3.5.
pub const LENGTH_NEEDED: FieldRow = FieldRow {
    name: "length=",
    place: Place::Needed,
    tag: tags::CRYPTOGRAPHIC_LENGTH,
    kind: Kind::Int,
    form: Form::Attribute("Cryptographic Length"),
};

/// The length of the new keys, in bits: KMIP 1.0, 3.5.
pub const LENGTH: FieldRow = FieldRow {
    name: "length=",
    place: Place::Option,
    tag: tags::CRYPTOGRAPHIC_LENGTH,
    kind: Kind::Int,
    form: Form::Attribute("Cryptographic Length"),
};

/// What the new object is for: KMIP 1.0, 3.14.
pub const USAGE_ATTRIBUTE: FieldRow = FieldRow {
    name: "usage=",
    place: Place::Option,
    tag: tags::CRYPTOGRAPHIC_USAGE_MASK,
    kind: Kind::Uses,
    form: Form::Attribute("Cryptographic Usage Mask"),
};

/// The name of the new object: KMIP 1.0, 3.2.
pub const NAME_GIVEN: FieldRow = FieldRow {
    name: "name=",
    place: Place::Option,
    tag: tags::NAME_VALUE,
    kind: Kind::Text,
    form: Form::Named,
};

/// The time from the new object's first date to its activation: KMIP 1.0, 4.4.
pub const OFFSET: FieldRow = FieldRow {
    name: "offset=",
    place: Place::Option,
    tag: tags::OFFSET,
    kind: Kind::Seconds,
    form: Form::Item,
};

/// The form of a request for a certificate: KMIP 1.0, 9.1.3.2.21.
pub const REQUEST_TYPE: FieldRow = FieldRow {
    name: "request-type=",
    place: Place::Option,
    tag: tags::CERTIFICATE_REQUEST_TYPE,
    kind: Kind::Name,
    form: Form::Item,
};

/// A request for a certificate.
pub const REQUEST: FieldRow = FieldRow {
    name: "request=",
    place: Place::Option,
    tag: tags::CERTIFICATE_REQUEST,
    kind: Kind::Hex,
    form: Form::Item,
};

/// The algorithm of keys on a curve, ECDSA where none is given.
pub const CURVE_ALGORITHM: FieldRow = FieldRow {
    name: "algorithm=",
    place: Place::Usual("ECDSA"),
    tag: tags::CRYPTOGRAPHIC_ALGORITHM,
    kind: Kind::Name,
    form: Form::Attribute("Cryptographic Algorithm"),
};

/// The curve: KMIP 1.0, 9.1.3.2.5.
pub const CURVE: FieldRow = FieldRow {
    name: "CURVE",
    place: Place::Word(0),
    tag: tags::RECOMMENDED_CURVE,
    kind: Kind::Name,
    form: Form::Domain,
};

/// The name of the private key on a curve.
pub const CURVE_PRIVATE_NAME: FieldRow = FieldRow {
    name: "PRIVATE-NAME",
    place: Place::Word(1),
    tag: tags::NAME_VALUE,
    kind: Kind::Text,
    form: Form::Named,
};

/// The name of the public key on a curve.
pub const CURVE_PUBLIC_NAME: FieldRow = FieldRow {
    name: "PUBLIC-NAME",
    place: Place::Word(2),
    tag: tags::NAME_VALUE,
    kind: Kind::Text,
    form: Form::Named,
};

/// What a private key is for, to sign where nothing is given.
pub const PRIVATE_USAGE: FieldRow = FieldRow {
    name: "private-usage=",
    place: Place::Usual("Sign"),
    tag: tags::CRYPTOGRAPHIC_USAGE_MASK,
    kind: Kind::Uses,
    form: Form::Attribute("Cryptographic Usage Mask"),
};

/// What a public key is for, to verify where nothing is given.
pub const PUBLIC_USAGE: FieldRow = FieldRow {
    name: "public-usage=",
    place: Place::Usual("Verify"),
    tag: tags::CRYPTOGRAPHIC_USAGE_MASK,
    kind: Kind::Uses,
    form: Form::Attribute("Cryptographic Usage Mask"),
};

/// The algorithm of the new keys.
pub const KEY_ALGORITHM: FieldRow = FieldRow {
    name: "ALGORITHM",
    place: Place::Word(0),
    tag: tags::CRYPTOGRAPHIC_ALGORITHM,
    kind: Kind::Name,
    form: Form::Attribute("Cryptographic Algorithm"),
};

/// The length of the new keys, in bits.
pub const KEY_BITS: FieldRow = FieldRow {
    name: "BITS",
    place: Place::Word(1),
    tag: tags::CRYPTOGRAPHIC_LENGTH,
    kind: Kind::Int,
    form: Form::Attribute("Cryptographic Length"),
};

/// The name of the private key.
pub const PRIVATE_NAME: FieldRow = FieldRow {
    name: "PRIVATE-NAME",
    place: Place::Word(2),
    tag: tags::NAME_VALUE,
    kind: Kind::Text,
    form: Form::Named,
};

/// The name of the public key.
pub const PUBLIC_NAME: FieldRow = FieldRow {
    name: "PUBLIC-NAME",
    place: Place::Word(3),
    tag: tags::NAME_VALUE,
    kind: Kind::Text,
    form: Form::Named,
};

/// The name of the new key.
pub const KEY_NAME: FieldRow = FieldRow {
    name: "NAME",
    place: Place::Word(2),
    tag: tags::NAME_VALUE,
    kind: Kind::Text,
    form: Form::Named,
};

/// What the new key is for, to encrypt and to decrypt where nothing is given.
pub const KEY_USAGE: FieldRow = FieldRow {
    name: "usage=",
    place: Place::Usual("Encrypt,Decrypt"),
    tag: tags::CRYPTOGRAPHIC_USAGE_MASK,
    kind: Kind::Uses,
    form: Form::Attribute("Cryptographic Usage Mask"),
};

/// How much use is to be left: KMIP 1.0, 4.9.
pub const COUNT_WANTED: FieldRow = FieldRow {
    name: "count=",
    place: Place::Option,
    tag: tags::USAGE_LIMITS_COUNT,
    kind: Kind::Count,
    form: Form::Item,
};

/// The uses that are to be allowed: KMIP 1.0, 4.9.
pub const USAGE_WANTED: FieldRow = FieldRow {
    name: "usage=",
    place: Place::Option,
    tag: tags::CRYPTOGRAPHIC_USAGE_MASK,
    kind: Kind::Uses,
    form: Form::Item,
};

/// The lease that is wanted: KMIP 1.0, 4.9.
pub const LEASE_WANTED: FieldRow = FieldRow {
    name: "lease=",
    place: Place::Option,
    tag: tags::LEASE_TIME,
    kind: Kind::Seconds,
    form: Form::Item,
};

/// How much use is allocated: KMIP 1.0, 4.17.
pub const COUNT: FieldRow = FieldRow {
    name: "COUNT",
    place: Place::Word(1),
    tag: tags::USAGE_LIMITS_COUNT,
    kind: Kind::Count,
    form: Form::Item,
};

/// The value that names an operation that has not ended: KMIP 1.0, 6.8.
pub const CORRELATION: FieldRow = FieldRow {
    name: "HEX",
    place: Place::Word(0),
    tag: tags::ASYNCHRONOUS_CORRELATION_VALUE,
    kind: Kind::Handle,
    form: Form::Item,
};

/// Bytes for the random numbers.
pub const SEED: FieldRow = FieldRow {
    name: "HEX",
    place: Place::Word(0),
    tag: tags::DATA,
    kind: Kind::Hex,
    form: Form::Item,
};

/// Cryptographic Parameters: KMIP 1.2, 3.6.
pub const PARAMETERS: &[FieldRow] = &[
    MODE,
    PADDING,
    HASH,
    ROLE,
    SIGNATURE_ALGORITHM,
    ALGORITHM,
    RANDOM_IV,
    IV_LENGTH,
    TAG_LENGTH,
    FIXED_FIELD_LENGTH,
    INVOCATION_FIELD_LENGTH,
    COUNTER_LENGTH,
    INITIAL_COUNTER,
];
