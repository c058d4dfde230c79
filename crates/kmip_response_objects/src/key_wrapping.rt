//! How keys were wrapped.

ghost use Rattle.std.specs.Prelude.{◌≡◌};
ghost use Rattle.kmip_tags.specs.Tags as tags;
ghost use Rattle.kmip_response_objects.specs.Tables.{encryption_key_information};
ghost use Rattle.kmip_response_objects.specs.Tables.{mac_or_signature_key_information};
ghost use Rattle.kmip_response_objects.specs.Tables.{key_wrapping_data};
ghost use Rattle.kmip_response_objects.specs.Values.{encryption_key_information_val};
ghost use Rattle.kmip_response_objects.specs.Values.{mac_or_signature_key_information_val};
ghost use Rattle.kmip_response_objects.specs.Values.{key_wrapping_data_val};
ghost use Rattle.kmip_response_objects.specs.Same.{encryption_key_information_same};
ghost use Rattle.kmip_response_objects.specs.Same.{mac_or_signature_key_information_same};
ghost use Rattle.kmip_response_objects.specs.Same.{key_wrapping_data_same};

use kmip_shape::record::{End, Row};
use kmip_shape::row_readers::{One, Opt};
use kmip_shape::{
    Item, Outer, ReadError, ReadItem, ReadRoot, ShowItem, TextWriter, WriteItem, fields,
    fits_record, read_record, record_len, show_record, write_record,
};
use kmip_tags::tags::{
    CRYPTOGRAPHIC_PARAMETERS, ENCRYPTION_KEY_INFORMATION, IV_COUNTER_NONCE, KEY_WRAPPING_DATA,
    MAC_SIGNATURE, MAC_SIGNATURE_KEY_INFORMATION, UNIQUE_IDENTIFIER, WRAPPING_METHOD,
};
use kmip_types::{CryptographicParameters, UniqueIdentifier, WrappingMethod};
use kmip_wire::{Blob, Buffer, ItemRef, OutOfMemory, Tag, TryClone, clone_optional};
use std::alloc::Global;

/// The key that encrypts a wrapped key, and how: KMIP 1.0, 2.1.5.
#[derive(PartialEq, Eq, Drop)]
pub struct EncryptionKeyInformation {
    /// The identifier of the key that encrypts: KMIP 1.0, 3.1.
    pub unique_identifier: UniqueIdentifier,
    /// How it encrypts: KMIP 1.0, 3.6.
    pub cryptographic_parameters: Option<CryptographicParameters>,
}

type EncryptionKeyInformationRows = Row<
    One<UniqueIdentifier, UNIQUE_IDENTIFIER>,
    Row<Opt<CryptographicParameters, CRYPTOGRAPHIC_PARAMETERS>, End>,
>;

impl TryClone for EncryptionKeyInformation {
    fn try_clone(&self, alloc: Global) -> Result<EncryptionKeyInformation, OutOfMemory> {
        Ok(EncryptionKeyInformation {
            unique_identifier: self.unique_identifier.try_clone(alloc)?,
            cryptographic_parameters: self.cryptographic_parameters,
        })
    }
}

impl Item for EncryptionKeyInformation {
    ghost shape = { encryption_key_information };

    ghost val = { encryption_key_information_val };

    fn fits(&self) {
        fits_record::<EncryptionKeyInformationRows>(fields![
            &self.unique_identifier,
            &self.cryptographic_parameters
        ]);
    }

    ghost faithful = { encryption_key_information_same };
}

impl WriteItem for EncryptionKeyInformation {
    fn wire_len(&self, _tag: Tag) -> Option<u64> {
        record_len::<EncryptionKeyInformationRows>(fields![
            &self.unique_identifier,
            &self.cryptographic_parameters
        ])
    }

    fn write_into(&self, tag: Tag, out: &mut Buffer) {
        write_record::<EncryptionKeyInformationRows>(
            fields![&self.unique_identifier, &self.cryptographic_parameters],
            tag,
            out,
        );
    }
}

impl ReadItem for EncryptionKeyInformation {
    fn read(alloc: Global, outer: Outer<'_>, item: ItemRef<'_>) -> Result<Self, ReadError> {
        let fields![unique_identifier, cryptographic_parameters] = read_record::<
            EncryptionKeyInformationRows,
        >(alloc, outer, item)?;
        Ok(EncryptionKeyInformation {
            unique_identifier,
            cryptographic_parameters,
        })
    }
}

impl ReadRoot for EncryptionKeyInformation {
    ghost root_tag = { tags.ENCRYPTION_KEY_INFORMATION };

    fn root_tag() -> Tag {
        Tag::of(ENCRYPTION_KEY_INFORMATION)
    }
}

impl ShowItem for EncryptionKeyInformation {
    fn show_into(&self, out: &mut TextWriter) {
        show_record::<EncryptionKeyInformationRows>(
            fields![&self.unique_identifier, &self.cryptographic_parameters],
            fields!["unique_identifier", "cryptographic_parameters"],
            out,
        );
    }
}

/// The key that makes the MAC or the signature of a wrapped key, and how: KMIP 1.0, 2.1.5.
#[derive(PartialEq, Eq, Drop)]
pub struct MACOrSignatureKeyInformation {
    /// The identifier of the key that makes the MAC or the signature: KMIP 1.0, 3.1.
    pub unique_identifier: UniqueIdentifier,
    /// How it makes it: KMIP 1.0, 3.6.
    pub cryptographic_parameters: Option<CryptographicParameters>,
}

type MACOrSignatureKeyInformationRows = Row<
    One<UniqueIdentifier, UNIQUE_IDENTIFIER>,
    Row<Opt<CryptographicParameters, CRYPTOGRAPHIC_PARAMETERS>, End>,
>;

impl TryClone for MACOrSignatureKeyInformation {
    fn try_clone(&self, alloc: Global) -> Result<MACOrSignatureKeyInformation, OutOfMemory> {
        Ok(MACOrSignatureKeyInformation {
            unique_identifier: self.unique_identifier.try_clone(alloc)?,
            cryptographic_parameters: self.cryptographic_parameters,
        })
    }
}

impl Item for MACOrSignatureKeyInformation {
    ghost shape = { mac_or_signature_key_information };

    ghost val = { mac_or_signature_key_information_val };

    fn fits(&self) {
        fits_record::<MACOrSignatureKeyInformationRows>(fields![
            &self.unique_identifier,
            &self.cryptographic_parameters
        ]);
    }

    ghost faithful = { mac_or_signature_key_information_same };
}

impl WriteItem for MACOrSignatureKeyInformation {
    fn wire_len(&self, _tag: Tag) -> Option<u64> {
        record_len::<MACOrSignatureKeyInformationRows>(fields![
            &self.unique_identifier,
            &self.cryptographic_parameters
        ])
    }

    fn write_into(&self, tag: Tag, out: &mut Buffer) {
        write_record::<MACOrSignatureKeyInformationRows>(
            fields![&self.unique_identifier, &self.cryptographic_parameters],
            tag,
            out,
        );
    }
}

impl ReadItem for MACOrSignatureKeyInformation {
    fn read(alloc: Global, outer: Outer<'_>, item: ItemRef<'_>) -> Result<Self, ReadError> {
        let fields![unique_identifier, cryptographic_parameters] = read_record::<
            MACOrSignatureKeyInformationRows,
        >(alloc, outer, item)?;
        Ok(MACOrSignatureKeyInformation {
            unique_identifier,
            cryptographic_parameters,
        })
    }
}

impl ReadRoot for MACOrSignatureKeyInformation {
    ghost root_tag = { tags.MAC_SIGNATURE_KEY_INFORMATION };

    fn root_tag() -> Tag {
        Tag::of(MAC_SIGNATURE_KEY_INFORMATION)
    }
}

impl ShowItem for MACOrSignatureKeyInformation {
    fn show_into(&self, out: &mut TextWriter) {
        show_record::<MACOrSignatureKeyInformationRows>(
            fields![&self.unique_identifier, &self.cryptographic_parameters],
            fields!["unique_identifier", "cryptographic_parameters"],
            out,
        );
    }
}

/// How a key was wrapped: KMIP 1.0, 2.1.5.
#[derive(PartialEq, Eq, Drop)]
pub struct KeyWrappingData {
    /// Whether the key is encrypted, MACed or signed, or both: KMIP 1.0, 9.1.3.2.4.
    pub wrapping_method: WrappingMethod,
    /// The key that encrypts, where the method encrypts.
    pub encryption_key_information: Option<EncryptionKeyInformation>,
    /// The key that makes the MAC or the signature, where the method has one.
    pub mac_or_signature_key_information: Option<MACOrSignatureKeyInformation>,
    /// The MAC or signature of the key value.
    pub mac_or_signature: Option<Blob>,
    /// The IV, counter or nonce, where the wrapping method takes one.
    pub iv_or_counter_or_nonce: Option<Blob>,
}

type KeyWrappingDataRows = Row<
    One<WrappingMethod, WRAPPING_METHOD>,
    Row<
        Opt<EncryptionKeyInformation, ENCRYPTION_KEY_INFORMATION>,
        Row<
            Opt<MACOrSignatureKeyInformation, MAC_SIGNATURE_KEY_INFORMATION>,
            Row<Opt<Blob, MAC_SIGNATURE>, Row<Opt<Blob, IV_COUNTER_NONCE>, End>>,
        >,
    >,
>;

impl TryClone for KeyWrappingData {
    fn try_clone(&self, alloc: Global) -> Result<KeyWrappingData, OutOfMemory> {
        Ok(KeyWrappingData {
            wrapping_method: self.wrapping_method,
            encryption_key_information: clone_optional(&self.encryption_key_information, alloc)?,
            mac_or_signature_key_information: clone_optional(
                &self.mac_or_signature_key_information,
                alloc,
            )?,
            mac_or_signature: clone_optional(&self.mac_or_signature, alloc)?,
            iv_or_counter_or_nonce: clone_optional(&self.iv_or_counter_or_nonce, alloc)?,
        })
    }
}

impl Item for KeyWrappingData {
    ghost shape = { key_wrapping_data };

    ghost val = { key_wrapping_data_val };

    fn fits(&self) {
        fits_record::<KeyWrappingDataRows>(fields![
            &self.wrapping_method,
            &self.encryption_key_information,
            &self.mac_or_signature_key_information,
            &self.mac_or_signature,
            &self.iv_or_counter_or_nonce
        ]);
    }

    ghost faithful = { key_wrapping_data_same };
}

impl WriteItem for KeyWrappingData {
    fn wire_len(&self, _tag: Tag) -> Option<u64> {
        record_len::<KeyWrappingDataRows>(fields![
            &self.wrapping_method,
            &self.encryption_key_information,
            &self.mac_or_signature_key_information,
            &self.mac_or_signature,
            &self.iv_or_counter_or_nonce
        ])
    }

    fn write_into(&self, tag: Tag, out: &mut Buffer) {
        write_record::<KeyWrappingDataRows>(
            fields![
                &self.wrapping_method,
                &self.encryption_key_information,
                &self.mac_or_signature_key_information,
                &self.mac_or_signature,
                &self.iv_or_counter_or_nonce
            ],
            tag,
            out,
        );
    }
}

impl ReadItem for KeyWrappingData {
    fn read(alloc: Global, outer: Outer<'_>, item: ItemRef<'_>) -> Result<Self, ReadError> {
        let fields![
            wrapping_method,
            encryption_key_information,
            mac_or_signature_key_information,
            mac_or_signature,
            iv_or_counter_or_nonce
        ] = read_record::<KeyWrappingDataRows>(alloc, outer, item)?;
        Ok(KeyWrappingData {
            wrapping_method,
            encryption_key_information,
            mac_or_signature_key_information,
            mac_or_signature,
            iv_or_counter_or_nonce,
        })
    }
}

impl ReadRoot for KeyWrappingData {
    ghost root_tag = { tags.KEY_WRAPPING_DATA };

    fn root_tag() -> Tag {
        Tag::of(KEY_WRAPPING_DATA)
    }
}

impl ShowItem for KeyWrappingData {
    fn show_into(&self, out: &mut TextWriter) {
        show_record::<KeyWrappingDataRows>(
            fields![
                &self.wrapping_method,
                &self.encryption_key_information,
                &self.mac_or_signature_key_information,
                &self.mac_or_signature,
                &self.iv_or_counter_or_nonce
            ],
            fields![
                "wrapping_method",
                "encryption_key_information",
                "mac_or_signature_key_information",
                "mac_or_signature",
                "iv_or_counter_or_nonce"
            ],
            out,
        );
    }
}
