//! Parameters of a cryptographic operation.

ghost use Rattle.std.specs.Prelude.{◌≡◌, Some};
ghost use Rattle.kmip_types.specs.Parameters.{cryptographic_parameters};
ghost use Rattle.kmip_types.specs.Parameters.{cryptographic_parameters_val};
ghost use Rattle.kmip_types.specs.Parameters.{cryptographic_parameters_same};

use kmip_codes::{
    BlockCipherMode, CryptographicAlgorithm, DigitalSignatureAlgorithm, HashingAlgorithm,
    KeyRoleType, PaddingMethod,
};
use kmip_names::{
    CounterLength, FixedFieldLength, IVLength, InitialCounterValue, InvocationFieldLength,
    RandomIV, TagLength,
};
use kmip_shape::record::{End, Row};
use kmip_shape::row_readers::Opt;
use kmip_shape::{
    Item, Outer, ReadError, ReadItem, ShowItem, TextWriter, WriteItem, fields, fits_record,
    read_record, record_len, show_record, write_record,
};
use kmip_tags::tags::{
    BLOCK_CIPHER_MODE, COUNTER_LENGTH, CRYPTOGRAPHIC_ALGORITHM, DIGITAL_SIGNATURE_ALGORITHM,
    FIXED_FIELD_LENGTH, HASHING_ALGORITHM, INITIAL_COUNTER_VALUE, INVOCATION_FIELD_LENGTH,
    IV_LENGTH, KEY_ROLE_TYPE, PADDING_METHOD, RANDOM_IV, TAG_LENGTH,
};
use kmip_wire::{Buffer, ItemRef, Tag};
use std::alloc::Global;

/// How a key is used in a cryptographic operation: KMIP 1.0, 3.6, and KMIP 1.2, 3.6.
#[derive(Clone, Copy, PartialEq, Eq, Default, Drop)]
pub struct CryptographicParameters {
    /// The mode of a block cipher: KMIP 1.0, 9.1.3.2.13.
    pub block_cipher_mode: Option<BlockCipherMode>,
    /// How a message is padded: KMIP 1.0, 9.1.3.2.14.
    pub padding_method: Option<PaddingMethod>,
    /// The algorithm that makes a digest of the data: KMIP 1.0, 9.1.3.2.15.
    pub hashing_algorithm: Option<HashingAlgorithm>,
    /// The role of the key: KMIP 1.0, 9.1.3.2.16.
    pub key_role_type: Option<KeyRoleType>,
    /// A signing algorithm with its digest (KMIP 1.2).
    pub digital_signature_algorithm: Option<DigitalSignatureAlgorithm>,
    /// The algorithm of the key (KMIP 1.2).
    pub cryptographic_algorithm: Option<CryptographicAlgorithm>,
    /// Whether the server is asked to make the initialization vector (KMIP 1.2).
    pub random_iv: Option<RandomIV>,
    /// The length of the initialization vector in bits (KMIP 1.2).
    pub iv_length: Option<IVLength>,
    /// The length of the authentication tag in bytes (KMIP 1.2).
    pub tag_length: Option<TagLength>,
    /// The length of the fixed field of the initialization vector in bits (KMIP 1.2).
    pub fixed_field_length: Option<FixedFieldLength>,
    /// The length of the invocation field of the initialization vector in bits (KMIP 1.2).
    pub invocation_field_length: Option<InvocationFieldLength>,
    /// The length of the counter of the initialization vector in bits (KMIP 1.2).
    pub counter_length: Option<CounterLength>,
    /// The first value of the counter (KMIP 1.2).
    pub initial_counter_value: Option<InitialCounterValue>,
}

impl CryptographicParameters {
    /// With the mode of a block cipher, and the other twelve fields as they are.
    pub fn with_block_cipher_mode(self, value: BlockCipherMode) -> Self
        ensures { result ≡ record self { block_cipher_mode = Some value } }
    {
        CryptographicParameters {
            block_cipher_mode: Some(value),
            ..self
        }
    }

    /// With a padding method, and the other twelve fields as they are.
    pub fn with_padding_method(self, value: PaddingMethod) -> Self
        ensures { result ≡ record self { padding_method = Some value } }
    {
        CryptographicParameters {
            padding_method: Some(value),
            ..self
        }
    }

    /// With a hashing algorithm, and the other twelve fields as they are.
    pub fn with_hashing_algorithm(self, value: HashingAlgorithm) -> Self
        ensures { result ≡ record self { hashing_algorithm = Some value } }
    {
        CryptographicParameters {
            hashing_algorithm: Some(value),
            ..self
        }
    }

    /// With the role of a key, and the other twelve fields as they are.
    pub fn with_key_role_type(self, value: KeyRoleType) -> Self
        ensures { result ≡ record self { key_role_type = Some value } }
    {
        CryptographicParameters {
            key_role_type: Some(value),
            ..self
        }
    }

    /// With a digital signature algorithm, and the other twelve fields as they are.
    pub fn with_digital_signature_algorithm(self, value: DigitalSignatureAlgorithm) -> Self
        ensures { result ≡ record self { digital_signature_algorithm = Some value } }
    {
        CryptographicParameters {
            digital_signature_algorithm: Some(value),
            ..self
        }
    }

    /// With a cryptographic algorithm, and the other twelve fields as they are.
    pub fn with_cryptographic_algorithm(self, value: CryptographicAlgorithm) -> Self
        ensures { result ≡ record self { cryptographic_algorithm = Some value } }
    {
        CryptographicParameters {
            cryptographic_algorithm: Some(value),
            ..self
        }
    }

    /// With whether the server is asked to make the initialization vector, and the other twelve
    /// fields as they are.
    pub fn with_random_iv(self, value: RandomIV) -> Self
        ensures { result ≡ record self { random_iv = Some value } }
    {
        CryptographicParameters {
            random_iv: Some(value),
            ..self
        }
    }

    /// With a length of the initialization vector in bits, and the other twelve fields as they are.
    pub fn with_iv_length(self, value: IVLength) -> Self
        ensures { result ≡ record self { iv_length = Some value } }
    {
        CryptographicParameters {
            iv_length: Some(value),
            ..self
        }
    }

    /// With a length of the authentication tag in bytes, and the other twelve fields as they are.
    pub fn with_tag_length(self, value: TagLength) -> Self
        ensures { result ≡ record self { tag_length = Some value } }
    {
        CryptographicParameters {
            tag_length: Some(value),
            ..self
        }
    }

    /// With a length of the fixed field of the initialization vector in bits, and the other twelve
    /// fields as they are.
    pub fn with_fixed_field_length(self, value: FixedFieldLength) -> Self
        ensures { result ≡ record self { fixed_field_length = Some value } }
    {
        CryptographicParameters {
            fixed_field_length: Some(value),
            ..self
        }
    }

    /// With a length of the invocation field of the initialization vector in bits, and the other
    /// twelve fields as they are.
    pub fn with_invocation_field_length(self, value: InvocationFieldLength) -> Self
        ensures { result ≡ record self { invocation_field_length = Some value } }
    {
        CryptographicParameters {
            invocation_field_length: Some(value),
            ..self
        }
    }

    /// With a length of the counter of the initialization vector in bits, and the other twelve
    /// fields as they are.
    pub fn with_counter_length(self, value: CounterLength) -> Self
        ensures { result ≡ record self { counter_length = Some value } }
    {
        CryptographicParameters {
            counter_length: Some(value),
            ..self
        }
    }

    /// With a first value of the counter, and the other twelve fields as they are.
    pub fn with_initial_counter_value(self, value: InitialCounterValue) -> Self
        ensures { result ≡ record self { initial_counter_value = Some value } }
    {
        CryptographicParameters {
            initial_counter_value: Some(value),
            ..self
        }
    }
}

type CryptographicParametersRows = Row<
    Opt<BlockCipherMode, BLOCK_CIPHER_MODE>,
    Row<
        Opt<PaddingMethod, PADDING_METHOD>,
        Row<
            Opt<HashingAlgorithm, HASHING_ALGORITHM>,
            Row<
                Opt<KeyRoleType, KEY_ROLE_TYPE>,
                Row<
                    Opt<DigitalSignatureAlgorithm, DIGITAL_SIGNATURE_ALGORITHM>,
                    Row<
                        Opt<CryptographicAlgorithm, CRYPTOGRAPHIC_ALGORITHM>,
                        Row<
                            Opt<RandomIV, RANDOM_IV>,
                            Row<
                                Opt<IVLength, IV_LENGTH>,
                                Row<
                                    Opt<TagLength, TAG_LENGTH>,
                                    Row<
                                        Opt<FixedFieldLength, FIXED_FIELD_LENGTH>,
                                        Row<
                                            Opt<InvocationFieldLength, INVOCATION_FIELD_LENGTH>,
                                            Row<
                                                Opt<CounterLength, COUNTER_LENGTH>,
                                                Row<
                                                    Opt<InitialCounterValue, INITIAL_COUNTER_VALUE>,
                                                    End,
                                                >,
                                            >,
                                        >,
                                    >,
                                >,
                            >,
                        >,
                    >,
                >,
            >,
        >,
    >,
>;

impl Item for CryptographicParameters {
    ghost shape = { cryptographic_parameters };

    ghost val = { cryptographic_parameters_val };

    fn fits(&self) {
        fits_record::<CryptographicParametersRows>(fields![
            &self.block_cipher_mode,
            &self.padding_method,
            &self.hashing_algorithm,
            &self.key_role_type,
            &self.digital_signature_algorithm,
            &self.cryptographic_algorithm,
            &self.random_iv,
            &self.iv_length,
            &self.tag_length,
            &self.fixed_field_length,
            &self.invocation_field_length,
            &self.counter_length,
            &self.initial_counter_value
        ]);
    }

    ghost faithful = { cryptographic_parameters_same };
}

impl WriteItem for CryptographicParameters {
    fn wire_len(&self, _tag: Tag) -> Option<u64> {
        record_len::<CryptographicParametersRows>(fields![
            &self.block_cipher_mode,
            &self.padding_method,
            &self.hashing_algorithm,
            &self.key_role_type,
            &self.digital_signature_algorithm,
            &self.cryptographic_algorithm,
            &self.random_iv,
            &self.iv_length,
            &self.tag_length,
            &self.fixed_field_length,
            &self.invocation_field_length,
            &self.counter_length,
            &self.initial_counter_value
        ])
    }

    fn write_into(&self, tag: Tag, out: &mut Buffer) {
        write_record::<CryptographicParametersRows>(
            fields![
                &self.block_cipher_mode,
                &self.padding_method,
                &self.hashing_algorithm,
                &self.key_role_type,
                &self.digital_signature_algorithm,
                &self.cryptographic_algorithm,
                &self.random_iv,
                &self.iv_length,
                &self.tag_length,
                &self.fixed_field_length,
                &self.invocation_field_length,
                &self.counter_length,
                &self.initial_counter_value
            ],
            tag,
            out,
        );
    }
}

impl ReadItem for CryptographicParameters {
    fn read(alloc: Global, outer: Outer<'_>, item: ItemRef<'_>) -> Result<Self, ReadError> {
        let fields![
            block_cipher_mode,
            padding_method,
            hashing_algorithm,
            key_role_type,
            digital_signature_algorithm,
            cryptographic_algorithm,
            random_iv,
            iv_length,
            tag_length,
            fixed_field_length,
            invocation_field_length,
            counter_length,
            initial_counter_value
        ] = read_record::<CryptographicParametersRows>(alloc, outer, item)?;
        Ok(CryptographicParameters {
            block_cipher_mode,
            padding_method,
            hashing_algorithm,
            key_role_type,
            digital_signature_algorithm,
            cryptographic_algorithm,
            random_iv,
            iv_length,
            tag_length,
            fixed_field_length,
            invocation_field_length,
            counter_length,
            initial_counter_value,
        })
    }
}

impl ShowItem for CryptographicParameters {
    fn show_into(&self, out: &mut TextWriter) {
        show_record::<CryptographicParametersRows>(
            fields![
                &self.block_cipher_mode,
                &self.padding_method,
                &self.hashing_algorithm,
                &self.key_role_type,
                &self.digital_signature_algorithm,
                &self.cryptographic_algorithm,
                &self.random_iv,
                &self.iv_length,
                &self.tag_length,
                &self.fixed_field_length,
                &self.invocation_field_length,
                &self.counter_length,
                &self.initial_counter_value
            ],
            fields![
                "block_cipher_mode",
                "padding_method",
                "hashing_algorithm",
                "key_role_type",
                "digital_signature_algorithm",
                "cryptographic_algorithm",
                "random_iv",
                "iv_length",
                "tag_length",
                "fixed_field_length",
                "invocation_field_length",
                "counter_length",
                "initial_counter_value"
            ],
            out,
        );
    }
}
