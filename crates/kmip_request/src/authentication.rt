//! The authentication of a request: the credential of its client.

ghost use Rattle.std.specs.Prelude.{◌≡◌};
ghost use Rattle.kmip_wire.specs.declared.kind.Kind.TheVariants.{TextString};
ghost use Rattle.kmip_shape.specs.Shape.{Scalar, Choice, OfNumber};
ghost use Rattle.kmip_request.specs.Tables.{authentication, credential, credential_values};
ghost use Rattle.kmip_request.specs.Message.{credential_of};
ghost use Rattle.kmip_request.specs.Values.{username_val, password_val, authentication_val};
ghost use Rattle.kmip_request.specs.Values.{credential_val, credential_value_val};
ghost use Rattle.kmip_request.specs.Same.{username_same, password_same, authentication_same};
ghost use Rattle.kmip_request.specs.Same.{credential_same, credential_value_same};

use kmip_enums::CredentialType;
use kmip_shape::record::{Choosing, End, Row};
use kmip_shape::row_readers::{ChosenOne, One, Opt};
use kmip_shape::{
    Item, Outer, ReadError, ReadItem, WriteItem, fields, fits_record, read_record, record_len,
    write_record,
};
use kmip_tags::tags::{CREDENTIAL, CREDENTIAL_TYPE, CREDENTIAL_VALUE, PASSWORD, USERNAME};
use kmip_types::auth;
use kmip_wire::{Buffer, ItemRef, OutOfMemory, Tag, Text, TryClone, clone_optional};
use std::alloc::Global;

/// The username of a credential: KMIP 1.0, 2.1.2.
#[derive(PartialEq, Eq, Drop)]
pub struct Username(pub Text);

impl TryClone for Username {
    fn try_clone(&self, alloc: Global) -> Result<Username, OutOfMemory> {
        Ok(Username(self.0.try_clone(alloc)?))
    }
}

impl Item for Username {
    ghost shape = { Scalar TextString };

    ghost val = { username_val };

    fn fits(&self) {
        self.0.fits();
    }

    ghost faithful = { username_same };
}

impl WriteItem for Username {
    fn wire_len(&self, tag: Tag) -> Option<u64> {
        self.0.wire_len(tag)
    }

    fn write_into(&self, tag: Tag, out: &mut Buffer) {
        self.0.write_into(tag, out);
    }
}

impl ReadItem for Username {
    fn read(alloc: Global, outer: Outer<'_>, item: ItemRef<'_>) -> Result<Self, ReadError> {
        Ok(Username(Text::read(alloc, outer, item)?))
    }
}

/// The password of a credential: KMIP 1.0, 2.1.2.
#[derive(PartialEq, Eq, Drop)]
pub struct Password(pub Text);

impl TryClone for Password {
    fn try_clone(&self, alloc: Global) -> Result<Password, OutOfMemory> {
        Ok(Password(self.0.try_clone(alloc)?))
    }
}

impl Item for Password {
    ghost shape = { Scalar TextString };

    ghost val = { password_val };

    fn fits(&self) {
        self.0.fits();
    }

    ghost faithful = { password_same };
}

impl WriteItem for Password {
    fn wire_len(&self, tag: Tag) -> Option<u64> {
        self.0.wire_len(tag)
    }

    fn write_into(&self, tag: Tag, out: &mut Buffer) {
        self.0.write_into(tag, out);
    }
}

impl ReadItem for Password {
    fn read(alloc: Global, outer: Outer<'_>, item: ItemRef<'_>) -> Result<Self, ReadError> {
        Ok(Password(Text::read(alloc, outer, item)?))
    }
}

/// The contents of a credential, one variant for each type: KMIP 1.0, 2.1.2.
#[derive(PartialEq, Eq, Drop)]
pub enum CredentialValue {
    /// A username, and a password where there is one.
    UsernameAndPassword(Username, Option<Password>),
}

type UsernameAndPasswordRows = Row<One<Username, USERNAME>, Row<Opt<Password, PASSWORD>, End>>;

impl TryClone for CredentialValue {
    fn try_clone(&self, alloc: Global) -> Result<CredentialValue, OutOfMemory> {
        match self {
            CredentialValue::UsernameAndPassword(username, password) => {
                Ok(CredentialValue::UsernameAndPassword(
                    username.try_clone(alloc)?,
                    clone_optional(password, alloc)?,
                ))
            }
        }
    }
}

impl Item for CredentialValue {
    ghost shape = { Choice OfNumber credential_values };

    ghost val = { credential_value_val };

    fn fits(&self) {
        match self {
            CredentialValue::UsernameAndPassword(username, password) => {
                fits_record::<UsernameAndPasswordRows>(fields![username, password]);
            }
        }
    }

    ghost faithful = { credential_value_same };
}

impl WriteItem for CredentialValue {
    fn wire_len(&self, _tag: Tag) -> Option<u64> {
        match self {
            CredentialValue::UsernameAndPassword(username, password) => {
                record_len::<UsernameAndPasswordRows>(fields![username, password])
            }
        }
    }

    fn write_into(&self, tag: Tag, out: &mut Buffer) {
        match self {
            CredentialValue::UsernameAndPassword(username, password) => {
                write_record::<UsernameAndPasswordRows>(fields![username, password], tag, out);
            }
        }
    }
}

impl ReadItem for CredentialValue {
    fn read(alloc: Global, outer: Outer<'_>, item: ItemRef<'_>) -> Result<Self, ReadError> {
        match outer.number {
            Some(1) => {
                let fields![username, password] = read_record::<UsernameAndPasswordRows>(
                    alloc, outer, item,
                )?;
                Ok(CredentialValue::UsernameAndPassword(username, password))
            }
            _ => Err(ReadError::Unread),
        }
    }
}

/// A credential and its type: KMIP 1.0, 2.1.2.
#[derive(PartialEq, Eq, Drop)]
pub struct Credential(pub CredentialType, pub CredentialValue);

type CredentialRows<'a> = Choosing<
    One<CredentialType, CREDENTIAL_TYPE>,
    Row<ChosenOne<'a, CredentialValue, CREDENTIAL_VALUE>, End>,
>;

impl TryClone for Credential {
    fn try_clone(&self, alloc: Global) -> Result<Credential, OutOfMemory> {
        Ok(Credential(self.0, self.1.try_clone(alloc)?))
    }
}

impl Item for Credential {
    ghost shape = { credential };

    ghost val = { credential_val };

    fn fits(&self) {
        fits_record::<CredentialRows<'_>>(fields![&self.0, &self.1]);
    }

    ghost faithful = { credential_same };
}

impl WriteItem for Credential {
    fn wire_len(&self, _tag: Tag) -> Option<u64> {
        record_len::<CredentialRows<'_>>(fields![&self.0, &self.1])
    }

    fn write_into(&self, tag: Tag, out: &mut Buffer) {
        write_record::<CredentialRows<'_>>(fields![&self.0, &self.1], tag, out);
    }
}

impl ReadItem for Credential {
    fn read(alloc: Global, outer: Outer<'_>, item: ItemRef<'_>) -> Result<Self, ReadError> {
        let fields![credential_type, value] = read_record::<CredentialRows<'_>>(
            alloc, outer, item,
        )?;
        Ok(Credential(credential_type, value))
    }
}

/// The credential of a request: KMIP 1.0, 6.6.
#[derive(PartialEq, Eq, Drop)]
pub struct Authentication(pub Credential);

impl Authentication {
    /// The Authentication that holds this credential. It takes no memory.
    pub fn build(credential: auth::CredentialType) -> Authentication
        ensures { credential_of result ≡ credential }
    {
        match credential {
            auth::CredentialType::UsernameAndPassword(credential) => {
                let username = Username(credential.username);
                let password = credential.password.map(Password);
                Authentication(Credential(
                    CredentialType::UsernameAndPassword,
                    CredentialValue::UsernameAndPassword(username, password),
                ))
            }
        }
    }
}

type AuthenticationRows = Row<One<Credential, CREDENTIAL>, End>;

impl TryClone for Authentication {
    fn try_clone(&self, alloc: Global) -> Result<Authentication, OutOfMemory> {
        Ok(Authentication(self.0.try_clone(alloc)?))
    }
}

impl Item for Authentication {
    ghost shape = { authentication };

    ghost val = { authentication_val };

    fn fits(&self) {
        fits_record::<AuthenticationRows>(fields![&self.0]);
    }

    ghost faithful = { authentication_same };
}

impl WriteItem for Authentication {
    fn wire_len(&self, _tag: Tag) -> Option<u64> {
        record_len::<AuthenticationRows>(fields![&self.0])
    }

    fn write_into(&self, tag: Tag, out: &mut Buffer) {
        write_record::<AuthenticationRows>(fields![&self.0], tag, out);
    }
}

impl ReadItem for Authentication {
    fn read(alloc: Global, outer: Outer<'_>, item: ItemRef<'_>) -> Result<Self, ReadError> {
        let fields![credential] = read_record::<AuthenticationRows>(alloc, outer, item)?;
        Ok(Authentication(credential))
    }
}
