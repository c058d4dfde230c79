//! How keys are wrapped.

ghost use Rattle.std.specs.Prelude.{◌≡◌};
ghost use Rattle.kmip_request_objects.specs.Tables.{attribute, encryption_key_information};
ghost use Rattle.kmip_request_objects.specs.Tables.{mac_or_signature_key_information};
ghost use Rattle.kmip_request_objects.specs.Tables.{key_wrapping_data, key_wrapping_specification};
ghost use Rattle.kmip_request_objects.specs.Values.{encryption_key_information_val};
ghost use Rattle.kmip_request_objects.specs.Values.{mac_or_signature_key_information_val};
ghost use Rattle.kmip_request_objects.specs.Values.{key_wrapping_data_val};
ghost use Rattle.kmip_request_objects.specs.Values.{key_wrapping_specification_val};
ghost use Rattle.kmip_request_objects.specs.Same.{encryption_key_information_same};
ghost use Rattle.kmip_request_objects.specs.Same.{mac_or_signature_key_information_same};
ghost use Rattle.kmip_request_objects.specs.Same.{key_wrapping_data_same};
ghost use Rattle.kmip_request_objects.specs.Same.{key_wrapping_specification_same};

use crate::attribute::Attribute;
use crate::byte_strings::{IVOrCounterOrNonce, MACOrSignature};
use kmip_shape::record::{End, Row};
use kmip_shape::row_readers::{One, Opt, OptMany};
use kmip_shape::{
    Item, Outer, ReadError, ReadItem, WriteItem, fields, fits_record, read_record, record_len,
    write_record,
};
use kmip_tags::tags::{
    ATTRIBUTE, CRYPTOGRAPHIC_PARAMETERS, ENCRYPTION_KEY_INFORMATION, IV_COUNTER_NONCE,
    MAC_SIGNATURE, MAC_SIGNATURE_KEY_INFORMATION, UNIQUE_IDENTIFIER, WRAPPING_METHOD,
};
use kmip_types::{CryptographicParameters, UniqueIdentifier, WrappingMethod};
use kmip_wire::{Buffer, ItemRef, List, OutOfMemory, Tag, TryClone, clone_optional};
use std::alloc::Global;

/// The key that encrypts a wrapped key, and its parameters: KMIP 1.0, 2.1.5.
#[derive(PartialEq, Eq, Drop)]
pub struct EncryptionKeyInformation(pub UniqueIdentifier, pub Option<CryptographicParameters>);

type EncryptionKeyInformationRows = Row<
    One<UniqueIdentifier, UNIQUE_IDENTIFIER>,
    Row<Opt<CryptographicParameters, CRYPTOGRAPHIC_PARAMETERS>, End>,
>;

impl TryClone for EncryptionKeyInformation {
    fn try_clone(&self, alloc: Global) -> Result<EncryptionKeyInformation, OutOfMemory> {
        Ok(EncryptionKeyInformation(self.0.try_clone(alloc)?, self.1))
    }
}

#[tactic(auto, unfolding(crate::specs::Tables::encryption_key_information))]
impl Item for EncryptionKeyInformation {
    ghost shape = { encryption_key_information };

    ghost val = { encryption_key_information_val };

    fn fits(&self) {
        fits_record::<EncryptionKeyInformationRows>(fields![&self.0, &self.1]);
    }

    ghost faithful = { encryption_key_information_same };
}

#[tactic(auto, unfolding(crate::specs::Tables::encryption_key_information))]
impl WriteItem for EncryptionKeyInformation {
    fn wire_len(&self, _tag: Tag) -> Option<u64> {
        record_len::<EncryptionKeyInformationRows>(fields![&self.0, &self.1])
    }

    fn write_into(&self, tag: Tag, out: &mut Buffer) {
        write_record::<EncryptionKeyInformationRows>(fields![&self.0, &self.1], tag, out);
    }
}

#[tactic(auto, unfolding(crate::specs::Tables::encryption_key_information))]
impl ReadItem for EncryptionKeyInformation {
    fn read(alloc: Global, outer: Outer<'_>, item: ItemRef<'_>) -> Result<Self, ReadError> {
        let fields![identifier, parameters] = read_record::<EncryptionKeyInformationRows>(
            alloc, outer, item,
        )?;
        Ok(EncryptionKeyInformation(identifier, parameters))
    }
}

/// The key that MACs or signs a wrapped key, and its parameters: KMIP 1.0, 2.1.5.
#[derive(PartialEq, Eq, Drop)]
pub struct MACOrSignatureKeyInformation(pub UniqueIdentifier, pub Option<CryptographicParameters>);

type MACOrSignatureKeyInformationRows = Row<
    One<UniqueIdentifier, UNIQUE_IDENTIFIER>,
    Row<Opt<CryptographicParameters, CRYPTOGRAPHIC_PARAMETERS>, End>,
>;

impl TryClone for MACOrSignatureKeyInformation {
    fn try_clone(&self, alloc: Global) -> Result<MACOrSignatureKeyInformation, OutOfMemory> {
        Ok(MACOrSignatureKeyInformation(self.0.try_clone(alloc)?, self.1))
    }
}

#[tactic(auto, unfolding(crate::specs::Tables::mac_or_signature_key_information))]
impl Item for MACOrSignatureKeyInformation {
    ghost shape = { mac_or_signature_key_information };

    ghost val = { mac_or_signature_key_information_val };

    fn fits(&self) {
        fits_record::<MACOrSignatureKeyInformationRows>(fields![&self.0, &self.1]);
    }

    ghost faithful = { mac_or_signature_key_information_same };
}

#[tactic(auto, unfolding(crate::specs::Tables::mac_or_signature_key_information))]
impl WriteItem for MACOrSignatureKeyInformation {
    fn wire_len(&self, _tag: Tag) -> Option<u64> {
        record_len::<MACOrSignatureKeyInformationRows>(fields![&self.0, &self.1])
    }

    fn write_into(&self, tag: Tag, out: &mut Buffer) {
        write_record::<MACOrSignatureKeyInformationRows>(fields![&self.0, &self.1], tag, out);
    }
}

#[tactic(auto, unfolding(crate::specs::Tables::mac_or_signature_key_information))]
impl ReadItem for MACOrSignatureKeyInformation {
    fn read(alloc: Global, outer: Outer<'_>, item: ItemRef<'_>) -> Result<Self, ReadError> {
        let fields![identifier, parameters] = read_record::<MACOrSignatureKeyInformationRows>(
            alloc, outer, item,
        )?;
        Ok(MACOrSignatureKeyInformation(identifier, parameters))
    }
}

/// How a key was wrapped: KMIP 1.0, 2.1.5. The attributes at its end are not in KMIP.
#[derive(PartialEq, Eq, Drop)]
pub struct KeyWrappingData(
    pub WrappingMethod,
    pub Option<EncryptionKeyInformation>,
    pub Option<MACOrSignatureKeyInformation>,
    pub Option<MACOrSignature>,
    pub Option<IVOrCounterOrNonce>,
    pub Option<List<Attribute>>,
);

type KeyWrappingDataRows = Row<
    One<WrappingMethod, WRAPPING_METHOD>,
    Row<
        Opt<EncryptionKeyInformation, ENCRYPTION_KEY_INFORMATION>,
        Row<
            Opt<MACOrSignatureKeyInformation, MAC_SIGNATURE_KEY_INFORMATION>,
            Row<
                Opt<MACOrSignature, MAC_SIGNATURE>,
                Row<
                    Opt<IVOrCounterOrNonce, IV_COUNTER_NONCE>,
                    Row<OptMany<Attribute, ATTRIBUTE>, End>,
                >,
            >,
        >,
    >,
>;

impl TryClone for KeyWrappingData {
    fn try_clone(&self, alloc: Global) -> Result<KeyWrappingData, OutOfMemory> {
        Ok(KeyWrappingData(
            self.0,
            clone_optional(&self.1, alloc)?,
            clone_optional(&self.2, alloc)?,
            clone_optional(&self.3, alloc)?,
            clone_optional(&self.4, alloc)?,
            clone_optional(&self.5, alloc)?,
        ))
    }
}

#[tactic(auto, unfolding(crate::specs::Tables::key_wrapping_data))]
impl Item for KeyWrappingData {
    ghost shape = { key_wrapping_data };

    ghost val = { key_wrapping_data_val };

    fn fits(&self) {
        fits_record::<KeyWrappingDataRows>(fields![
            &self.0, &self.1, &self.2, &self.3, &self.4, &self.5
        ]);
    }

    ghost faithful = { key_wrapping_data_same };
}

#[tactic(auto, unfolding(crate::specs::Tables::key_wrapping_data))]
impl WriteItem for KeyWrappingData {
    fn wire_len(&self, _tag: Tag) -> Option<u64> {
        record_len::<KeyWrappingDataRows>(fields![
            &self.0, &self.1, &self.2, &self.3, &self.4, &self.5
        ])
    }

    fn write_into(&self, tag: Tag, out: &mut Buffer) {
        write_record::<KeyWrappingDataRows>(
            fields![&self.0, &self.1, &self.2, &self.3, &self.4, &self.5],
            tag,
            out,
        );
    }
}

#[tactic(auto, unfolding(crate::specs::Tables::key_wrapping_data))]
impl ReadItem for KeyWrappingData {
    fn read(alloc: Global, outer: Outer<'_>, item: ItemRef<'_>) -> Result<Self, ReadError> {
        let fields![method, encryption, signing, signature, nonce, attributes] = read_record::<
            KeyWrappingDataRows,
        >(alloc, outer, item)?;
        Ok(KeyWrappingData(method, encryption, signing, signature, nonce, attributes))
    }
}

/// How a key is to be wrapped: KMIP 1.0, 2.1.6, which has attribute names where this type has
/// attributes.
#[derive(PartialEq, Eq, Drop)]
pub struct KeyWrappingSpecification(
    pub WrappingMethod,
    pub Option<EncryptionKeyInformation>,
    pub Option<MACOrSignatureKeyInformation>,
    pub Option<List<Attribute>>,
);

type KeyWrappingSpecificationRows = Row<
    One<WrappingMethod, WRAPPING_METHOD>,
    Row<
        Opt<EncryptionKeyInformation, ENCRYPTION_KEY_INFORMATION>,
        Row<
            Opt<MACOrSignatureKeyInformation, MAC_SIGNATURE_KEY_INFORMATION>,
            Row<OptMany<Attribute, ATTRIBUTE>, End>,
        >,
    >,
>;

impl TryClone for KeyWrappingSpecification {
    fn try_clone(&self, alloc: Global) -> Result<KeyWrappingSpecification, OutOfMemory> {
        Ok(KeyWrappingSpecification(
            self.0,
            clone_optional(&self.1, alloc)?,
            clone_optional(&self.2, alloc)?,
            clone_optional(&self.3, alloc)?,
        ))
    }
}

#[tactic(auto, unfolding(crate::specs::Tables::key_wrapping_specification))]
impl Item for KeyWrappingSpecification {
    ghost shape = { key_wrapping_specification };

    ghost val = { key_wrapping_specification_val };

    fn fits(&self) {
        fits_record::<KeyWrappingSpecificationRows>(fields![&self.0, &self.1, &self.2, &self.3]);
    }

    ghost faithful = { key_wrapping_specification_same };
}

#[tactic(auto, unfolding(crate::specs::Tables::key_wrapping_specification))]
impl WriteItem for KeyWrappingSpecification {
    fn wire_len(&self, _tag: Tag) -> Option<u64> {
        record_len::<KeyWrappingSpecificationRows>(fields![&self.0, &self.1, &self.2, &self.3])
    }

    fn write_into(&self, tag: Tag, out: &mut Buffer) {
        write_record::<KeyWrappingSpecificationRows>(
            fields![&self.0, &self.1, &self.2, &self.3],
            tag,
            out,
        );
    }
}

#[tactic(auto, unfolding(crate::specs::Tables::key_wrapping_specification))]
impl ReadItem for KeyWrappingSpecification {
    fn read(alloc: Global, outer: Outer<'_>, item: ItemRef<'_>) -> Result<Self, ReadError> {
        let fields![method, encryption, signing, attributes] = read_record::<
            KeyWrappingSpecificationRows,
        >(alloc, outer, item)?;
        Ok(KeyWrappingSpecification(method, encryption, signing, attributes))
    }
}
