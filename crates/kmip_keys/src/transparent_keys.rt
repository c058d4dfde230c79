//! Transparent keys: each part of a key is an item of its own.
//!
//! Each `Blob` but that of a symmetric key is a Big Integer: two's complement, the highest byte
//! first (KMIP 1.0, 9.1.1.4). Where its length is no multiple of 8 bytes it has no wire form.

ghost use Rattle.std.specs.Prelude.{◌≡◌};
ghost use Rattle.kmip_keys.specs.TransparentKeys.{transparent_symmetric_key};
ghost use Rattle.kmip_keys.specs.TransparentKeys.{transparent_dsa_private_key};
ghost use Rattle.kmip_keys.specs.TransparentKeys.{transparent_dsa_public_key};
ghost use Rattle.kmip_keys.specs.TransparentKeys.{transparent_rsa_private_key};
ghost use Rattle.kmip_keys.specs.TransparentKeys.{transparent_rsa_public_key};
ghost use Rattle.kmip_keys.specs.TransparentKeys.{transparent_dh_private_key};
ghost use Rattle.kmip_keys.specs.TransparentKeys.{transparent_dh_public_key};
ghost use Rattle.kmip_keys.specs.TransparentKeys.{transparent_symmetric_key_val};
ghost use Rattle.kmip_keys.specs.TransparentKeys.{transparent_dsa_private_key_val};
ghost use Rattle.kmip_keys.specs.TransparentKeys.{transparent_dsa_public_key_val};
ghost use Rattle.kmip_keys.specs.TransparentKeys.{transparent_rsa_private_key_val};
ghost use Rattle.kmip_keys.specs.TransparentKeys.{transparent_rsa_public_key_val};
ghost use Rattle.kmip_keys.specs.TransparentKeys.{transparent_dh_private_key_val};
ghost use Rattle.kmip_keys.specs.TransparentKeys.{transparent_dh_public_key_val};
ghost use Rattle.kmip_keys.specs.TransparentKeys.{transparent_symmetric_key_same};
ghost use Rattle.kmip_keys.specs.TransparentKeys.{transparent_dsa_private_key_same};
ghost use Rattle.kmip_keys.specs.TransparentKeys.{transparent_dsa_public_key_same};
ghost use Rattle.kmip_keys.specs.TransparentKeys.{transparent_rsa_private_key_same};
ghost use Rattle.kmip_keys.specs.TransparentKeys.{transparent_rsa_public_key_same};
ghost use Rattle.kmip_keys.specs.TransparentKeys.{transparent_dh_private_key_same};
ghost use Rattle.kmip_keys.specs.TransparentKeys.{transparent_dh_public_key_same};

use kmip_shape::record::{End, Row};
use kmip_shape::row_readers::One;
use kmip_shape::{
    BigOne, BigOpt, Item, Outer, ReadError, ReadItem, ShowItem, TextWriter, WriteItem, fields,
    fits_record, read_record, record_len, show_record, write_record,
};
use kmip_tags::tags::{
    CRT_COEFFICIENT, G, J, KEY, MODULUS, P, PRIME_EXPONENT_P, PRIME_EXPONENT_Q, PRIVATE_EXPONENT,
    PUBLIC_EXPONENT, Q, X, Y,
};
use kmip_wire::{Blob, Buffer, ItemRef, OutOfMemory, Tag, TryClone, clone_optional};
use std::alloc::Global;

/// A symmetric key: KMIP 1.0, 2.1.7.1.
#[derive(PartialEq, Eq, Drop)]
pub struct TransparentSymmetricKey {
    /// The bytes of the key.
    pub key: Blob,
}

type TransparentSymmetricKeyRows = Row<One<Blob, KEY>, End>;

impl TryClone for TransparentSymmetricKey {
    fn try_clone(&self, alloc: Global) -> Result<TransparentSymmetricKey, OutOfMemory> {
        Ok(TransparentSymmetricKey {
            key: self.key.try_clone(alloc)?,
        })
    }
}

impl Item for TransparentSymmetricKey {
    ghost shape = { transparent_symmetric_key };

    ghost val = { transparent_symmetric_key_val };

    fn fits(&self) {
        fits_record::<TransparentSymmetricKeyRows>(fields![&self.key]);
    }

    ghost faithful = { transparent_symmetric_key_same };
}

impl WriteItem for TransparentSymmetricKey {
    fn wire_len(&self, _tag: Tag) -> Option<u64> {
        record_len::<TransparentSymmetricKeyRows>(fields![&self.key])
    }

    fn write_into(&self, tag: Tag, out: &mut Buffer) {
        write_record::<TransparentSymmetricKeyRows>(fields![&self.key], tag, out);
    }
}

impl ReadItem for TransparentSymmetricKey {
    fn read(alloc: Global, outer: Outer<'_>, item: ItemRef<'_>) -> Result<Self, ReadError> {
        let fields![key] = read_record::<TransparentSymmetricKeyRows>(alloc, outer, item)?;
        Ok(TransparentSymmetricKey { key })
    }
}

impl ShowItem for TransparentSymmetricKey {
    fn show_into(&self, out: &mut TextWriter) {
        show_record::<TransparentSymmetricKeyRows>(fields![&self.key], fields!["key"], out);
    }
}

/// A private key of DSA: KMIP 1.0, 2.1.7.2.
#[derive(PartialEq, Eq, Drop)]
pub struct TransparentDSAPrivateKey {
    /// The prime modulus P.
    pub p: Blob,
    /// The prime divisor Q of P - 1.
    pub q: Blob,
    /// The generator G.
    pub g: Blob,
    /// The private exponent X.
    pub x: Blob,
}

type TransparentDSAPrivateKeyRows = Row<
    BigOne<P>,
    Row<BigOne<Q>, Row<BigOne<G>, Row<BigOne<X>, End>>>,
>;

impl TryClone for TransparentDSAPrivateKey {
    fn try_clone(&self, alloc: Global) -> Result<TransparentDSAPrivateKey, OutOfMemory> {
        Ok(TransparentDSAPrivateKey {
            p: self.p.try_clone(alloc)?,
            q: self.q.try_clone(alloc)?,
            g: self.g.try_clone(alloc)?,
            x: self.x.try_clone(alloc)?,
        })
    }
}

impl Item for TransparentDSAPrivateKey {
    ghost shape = { transparent_dsa_private_key };

    ghost val = { transparent_dsa_private_key_val };

    fn fits(&self) {
        fits_record::<TransparentDSAPrivateKeyRows>(fields![&self.p, &self.q, &self.g, &self.x]);
    }

    ghost faithful = { transparent_dsa_private_key_same };
}

impl WriteItem for TransparentDSAPrivateKey {
    fn wire_len(&self, _tag: Tag) -> Option<u64> {
        record_len::<TransparentDSAPrivateKeyRows>(fields![&self.p, &self.q, &self.g, &self.x])
    }

    fn write_into(&self, tag: Tag, out: &mut Buffer) {
        write_record::<TransparentDSAPrivateKeyRows>(
            fields![&self.p, &self.q, &self.g, &self.x],
            tag,
            out,
        );
    }
}

impl ReadItem for TransparentDSAPrivateKey {
    fn read(alloc: Global, outer: Outer<'_>, item: ItemRef<'_>) -> Result<Self, ReadError> {
        let fields![p, q, g, x] = read_record::<TransparentDSAPrivateKeyRows>(alloc, outer, item)?;
        Ok(TransparentDSAPrivateKey { p, q, g, x })
    }
}

impl ShowItem for TransparentDSAPrivateKey {
    fn show_into(&self, out: &mut TextWriter) {
        show_record::<TransparentDSAPrivateKeyRows>(
            fields![&self.p, &self.q, &self.g, &self.x],
            fields!["p", "q", "g", "x"],
            out,
        );
    }
}

/// A public key of DSA: KMIP 1.0, 2.1.7.3.
#[derive(PartialEq, Eq, Drop)]
pub struct TransparentDSAPublicKey {
    /// The prime modulus P.
    pub p: Blob,
    /// The prime divisor Q of P - 1.
    pub q: Blob,
    /// The generator G.
    pub g: Blob,
    /// The public value Y, G to the power X modulo P.
    pub y: Blob,
}

type TransparentDSAPublicKeyRows = Row<
    BigOne<P>,
    Row<BigOne<Q>, Row<BigOne<G>, Row<BigOne<Y>, End>>>,
>;

impl TryClone for TransparentDSAPublicKey {
    fn try_clone(&self, alloc: Global) -> Result<TransparentDSAPublicKey, OutOfMemory> {
        Ok(TransparentDSAPublicKey {
            p: self.p.try_clone(alloc)?,
            q: self.q.try_clone(alloc)?,
            g: self.g.try_clone(alloc)?,
            y: self.y.try_clone(alloc)?,
        })
    }
}

impl Item for TransparentDSAPublicKey {
    ghost shape = { transparent_dsa_public_key };

    ghost val = { transparent_dsa_public_key_val };

    fn fits(&self) {
        fits_record::<TransparentDSAPublicKeyRows>(fields![&self.p, &self.q, &self.g, &self.y]);
    }

    ghost faithful = { transparent_dsa_public_key_same };
}

impl WriteItem for TransparentDSAPublicKey {
    fn wire_len(&self, _tag: Tag) -> Option<u64> {
        record_len::<TransparentDSAPublicKeyRows>(fields![&self.p, &self.q, &self.g, &self.y])
    }

    fn write_into(&self, tag: Tag, out: &mut Buffer) {
        write_record::<TransparentDSAPublicKeyRows>(
            fields![&self.p, &self.q, &self.g, &self.y],
            tag,
            out,
        );
    }
}

impl ReadItem for TransparentDSAPublicKey {
    fn read(alloc: Global, outer: Outer<'_>, item: ItemRef<'_>) -> Result<Self, ReadError> {
        let fields![p, q, g, y] = read_record::<TransparentDSAPublicKeyRows>(alloc, outer, item)?;
        Ok(TransparentDSAPublicKey { p, q, g, y })
    }
}

impl ShowItem for TransparentDSAPublicKey {
    fn show_into(&self, out: &mut TextWriter) {
        show_record::<TransparentDSAPublicKeyRows>(
            fields![&self.p, &self.q, &self.g, &self.y],
            fields!["p", "q", "g", "y"],
            out,
        );
    }
}

/// A private key of RSA: KMIP 1.0, 2.1.7.4.
#[derive(PartialEq, Eq, Drop)]
pub struct TransparentRSAPrivateKey {
    /// The modulus.
    pub modulus: Blob,
    /// The private exponent.
    pub private_exponent: Option<Blob>,
    /// The public exponent.
    pub public_exponent: Option<Blob>,
    /// The first prime factor of the modulus.
    pub p: Option<Blob>,
    /// The second prime factor of the modulus.
    pub q: Option<Blob>,
    /// The private exponent modulo P - 1.
    pub prime_exponent_p: Option<Blob>,
    /// The private exponent modulo Q - 1.
    pub prime_exponent_q: Option<Blob>,
    /// The inverse of Q modulo P.
    pub crt_coefficient: Option<Blob>,
}

type TransparentRSAPrivateKeyRows = Row<
    BigOne<MODULUS>,
    Row<
        BigOpt<PRIVATE_EXPONENT>,
        Row<
            BigOpt<PUBLIC_EXPONENT>,
            Row<
                BigOpt<P>,
                Row<
                    BigOpt<Q>,
                    Row<
                        BigOpt<PRIME_EXPONENT_P>,
                        Row<BigOpt<PRIME_EXPONENT_Q>, Row<BigOpt<CRT_COEFFICIENT>, End>>,
                    >,
                >,
            >,
        >,
    >,
>;

impl TryClone for TransparentRSAPrivateKey {
    fn try_clone(&self, alloc: Global) -> Result<TransparentRSAPrivateKey, OutOfMemory> {
        Ok(TransparentRSAPrivateKey {
            modulus: self.modulus.try_clone(alloc)?,
            private_exponent: clone_optional(&self.private_exponent, alloc)?,
            public_exponent: clone_optional(&self.public_exponent, alloc)?,
            p: clone_optional(&self.p, alloc)?,
            q: clone_optional(&self.q, alloc)?,
            prime_exponent_p: clone_optional(&self.prime_exponent_p, alloc)?,
            prime_exponent_q: clone_optional(&self.prime_exponent_q, alloc)?,
            crt_coefficient: clone_optional(&self.crt_coefficient, alloc)?,
        })
    }
}

impl Item for TransparentRSAPrivateKey {
    ghost shape = { transparent_rsa_private_key };

    ghost val = { transparent_rsa_private_key_val };

    fn fits(&self) {
        fits_record::<TransparentRSAPrivateKeyRows>(fields![
            &self.modulus,
            &self.private_exponent,
            &self.public_exponent,
            &self.p,
            &self.q,
            &self.prime_exponent_p,
            &self.prime_exponent_q,
            &self.crt_coefficient
        ]);
    }

    ghost faithful = { transparent_rsa_private_key_same };
}

impl WriteItem for TransparentRSAPrivateKey {
    fn wire_len(&self, _tag: Tag) -> Option<u64> {
        record_len::<TransparentRSAPrivateKeyRows>(fields![
            &self.modulus,
            &self.private_exponent,
            &self.public_exponent,
            &self.p,
            &self.q,
            &self.prime_exponent_p,
            &self.prime_exponent_q,
            &self.crt_coefficient
        ])
    }

    fn write_into(&self, tag: Tag, out: &mut Buffer) {
        write_record::<TransparentRSAPrivateKeyRows>(
            fields![
                &self.modulus,
                &self.private_exponent,
                &self.public_exponent,
                &self.p,
                &self.q,
                &self.prime_exponent_p,
                &self.prime_exponent_q,
                &self.crt_coefficient
            ],
            tag,
            out,
        );
    }
}

impl ReadItem for TransparentRSAPrivateKey {
    fn read(alloc: Global, outer: Outer<'_>, item: ItemRef<'_>) -> Result<Self, ReadError> {
        let fields![
            modulus,
            private_exponent,
            public_exponent,
            p,
            q,
            prime_exponent_p,
            prime_exponent_q,
            crt_coefficient
        ] = read_record::<TransparentRSAPrivateKeyRows>(alloc, outer, item)?;
        Ok(TransparentRSAPrivateKey {
            modulus,
            private_exponent,
            public_exponent,
            p,
            q,
            prime_exponent_p,
            prime_exponent_q,
            crt_coefficient,
        })
    }
}

impl ShowItem for TransparentRSAPrivateKey {
    fn show_into(&self, out: &mut TextWriter) {
        show_record::<TransparentRSAPrivateKeyRows>(
            fields![
                &self.modulus,
                &self.private_exponent,
                &self.public_exponent,
                &self.p,
                &self.q,
                &self.prime_exponent_p,
                &self.prime_exponent_q,
                &self.crt_coefficient
            ],
            fields![
                "modulus",
                "private_exponent",
                "public_exponent",
                "p",
                "q",
                "prime_exponent_p",
                "prime_exponent_q",
                "crt_coefficient"
            ],
            out,
        );
    }
}

/// A public key of RSA: KMIP 1.0, 2.1.7.5.
#[derive(PartialEq, Eq, Drop)]
pub struct TransparentRSAPublicKey {
    /// The modulus.
    pub modulus: Blob,
    /// The public exponent.
    pub public_exponent: Blob,
}

type TransparentRSAPublicKeyRows = Row<BigOne<MODULUS>, Row<BigOne<PUBLIC_EXPONENT>, End>>;

impl TryClone for TransparentRSAPublicKey {
    fn try_clone(&self, alloc: Global) -> Result<TransparentRSAPublicKey, OutOfMemory> {
        Ok(TransparentRSAPublicKey {
            modulus: self.modulus.try_clone(alloc)?,
            public_exponent: self.public_exponent.try_clone(alloc)?,
        })
    }
}

impl Item for TransparentRSAPublicKey {
    ghost shape = { transparent_rsa_public_key };

    ghost val = { transparent_rsa_public_key_val };

    fn fits(&self) {
        fits_record::<TransparentRSAPublicKeyRows>(fields![&self.modulus, &self.public_exponent]);
    }

    ghost faithful = { transparent_rsa_public_key_same };
}

impl WriteItem for TransparentRSAPublicKey {
    fn wire_len(&self, _tag: Tag) -> Option<u64> {
        record_len::<TransparentRSAPublicKeyRows>(fields![&self.modulus, &self.public_exponent])
    }

    fn write_into(&self, tag: Tag, out: &mut Buffer) {
        write_record::<TransparentRSAPublicKeyRows>(
            fields![&self.modulus, &self.public_exponent],
            tag,
            out,
        );
    }
}

impl ReadItem for TransparentRSAPublicKey {
    fn read(alloc: Global, outer: Outer<'_>, item: ItemRef<'_>) -> Result<Self, ReadError> {
        let fields![modulus, public_exponent] = read_record::<TransparentRSAPublicKeyRows>(
            alloc, outer, item,
        )?;
        Ok(TransparentRSAPublicKey {
            modulus,
            public_exponent,
        })
    }
}

impl ShowItem for TransparentRSAPublicKey {
    fn show_into(&self, out: &mut TextWriter) {
        show_record::<TransparentRSAPublicKeyRows>(
            fields![&self.modulus, &self.public_exponent],
            fields!["modulus", "public_exponent"],
            out,
        );
    }
}

/// A private key of Diffie-Hellman: KMIP 1.0, 2.1.7.6.
#[derive(PartialEq, Eq, Drop)]
pub struct TransparentDHPrivateKey {
    /// The prime modulus P.
    pub p: Blob,
    /// The prime divisor Q of P - 1.
    pub q: Option<Blob>,
    /// The generator G.
    pub g: Blob,
    /// The cofactor J, (P - 1) / Q.
    pub j: Option<Blob>,
    /// The private exponent X.
    pub x: Blob,
}

type TransparentDHPrivateKeyRows = Row<
    BigOne<P>,
    Row<BigOpt<Q>, Row<BigOne<G>, Row<BigOpt<J>, Row<BigOne<X>, End>>>>,
>;

impl TryClone for TransparentDHPrivateKey {
    fn try_clone(&self, alloc: Global) -> Result<TransparentDHPrivateKey, OutOfMemory> {
        Ok(TransparentDHPrivateKey {
            p: self.p.try_clone(alloc)?,
            q: clone_optional(&self.q, alloc)?,
            g: self.g.try_clone(alloc)?,
            j: clone_optional(&self.j, alloc)?,
            x: self.x.try_clone(alloc)?,
        })
    }
}

impl Item for TransparentDHPrivateKey {
    ghost shape = { transparent_dh_private_key };

    ghost val = { transparent_dh_private_key_val };

    fn fits(&self) {
        fits_record::<TransparentDHPrivateKeyRows>(fields![
            &self.p, &self.q, &self.g, &self.j, &self.x
        ]);
    }

    ghost faithful = { transparent_dh_private_key_same };
}

impl WriteItem for TransparentDHPrivateKey {
    fn wire_len(&self, _tag: Tag) -> Option<u64> {
        record_len::<TransparentDHPrivateKeyRows>(fields![
            &self.p, &self.q, &self.g, &self.j, &self.x
        ])
    }

    fn write_into(&self, tag: Tag, out: &mut Buffer) {
        write_record::<TransparentDHPrivateKeyRows>(
            fields![&self.p, &self.q, &self.g, &self.j, &self.x],
            tag,
            out,
        );
    }
}

impl ReadItem for TransparentDHPrivateKey {
    fn read(alloc: Global, outer: Outer<'_>, item: ItemRef<'_>) -> Result<Self, ReadError> {
        let fields![p, q, g, j, x] = read_record::<TransparentDHPrivateKeyRows>(
            alloc, outer, item,
        )?;
        Ok(TransparentDHPrivateKey { p, q, g, j, x })
    }
}

impl ShowItem for TransparentDHPrivateKey {
    fn show_into(&self, out: &mut TextWriter) {
        show_record::<TransparentDHPrivateKeyRows>(
            fields![&self.p, &self.q, &self.g, &self.j, &self.x],
            fields!["p", "q", "g", "j", "x"],
            out,
        );
    }
}

/// A public key of Diffie-Hellman: KMIP 1.0, 2.1.7.7.
#[derive(PartialEq, Eq, Drop)]
pub struct TransparentDHPublicKey {
    /// The prime modulus P.
    pub p: Blob,
    /// The prime divisor Q of P - 1.
    pub q: Option<Blob>,
    /// The generator G.
    pub g: Blob,
    /// The cofactor J, (P - 1) / Q.
    pub j: Option<Blob>,
    /// The public value Y, G to the power X modulo P.
    pub y: Blob,
}

type TransparentDHPublicKeyRows = Row<
    BigOne<P>,
    Row<BigOpt<Q>, Row<BigOne<G>, Row<BigOpt<J>, Row<BigOne<Y>, End>>>>,
>;

impl TryClone for TransparentDHPublicKey {
    fn try_clone(&self, alloc: Global) -> Result<TransparentDHPublicKey, OutOfMemory> {
        Ok(TransparentDHPublicKey {
            p: self.p.try_clone(alloc)?,
            q: clone_optional(&self.q, alloc)?,
            g: self.g.try_clone(alloc)?,
            j: clone_optional(&self.j, alloc)?,
            y: self.y.try_clone(alloc)?,
        })
    }
}

impl Item for TransparentDHPublicKey {
    ghost shape = { transparent_dh_public_key };

    ghost val = { transparent_dh_public_key_val };

    fn fits(&self) {
        fits_record::<TransparentDHPublicKeyRows>(fields![
            &self.p, &self.q, &self.g, &self.j, &self.y
        ]);
    }

    ghost faithful = { transparent_dh_public_key_same };
}

impl WriteItem for TransparentDHPublicKey {
    fn wire_len(&self, _tag: Tag) -> Option<u64> {
        record_len::<TransparentDHPublicKeyRows>(fields![
            &self.p, &self.q, &self.g, &self.j, &self.y
        ])
    }

    fn write_into(&self, tag: Tag, out: &mut Buffer) {
        write_record::<TransparentDHPublicKeyRows>(
            fields![&self.p, &self.q, &self.g, &self.j, &self.y],
            tag,
            out,
        );
    }
}

impl ReadItem for TransparentDHPublicKey {
    fn read(alloc: Global, outer: Outer<'_>, item: ItemRef<'_>) -> Result<Self, ReadError> {
        let fields![p, q, g, j, y] = read_record::<TransparentDHPublicKeyRows>(alloc, outer, item)?;
        Ok(TransparentDHPublicKey { p, q, g, j, y })
    }
}

impl ShowItem for TransparentDHPublicKey {
    fn show_into(&self, out: &mut TextWriter) {
        show_record::<TransparentDHPublicKeyRows>(
            fields![&self.p, &self.q, &self.g, &self.j, &self.y],
            fields!["p", "q", "g", "j", "y"],
            out,
        );
    }
}
