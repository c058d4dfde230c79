//! A key block or a certificate, as a server told it.

/// A managed object that may have a file.
#[derive(Clone, Copy, Drop)]
pub struct Block<'a> {
    /// The number of its Object Type: KMIP 1.0, 9.1.3.2.11.
    pub object_type: u32,
    /// Whether it has Key Wrapping Data: KMIP 1.2, 2.1.5.
    pub is_wrapped: bool,
    /// Its Key Material, or its Certificate Value.
    pub material: Material<'a>,
}

/// Key Material (KMIP 1.2, 2.1.4 and 2.1.7), or a certificate. Numbers are Big Integers.
#[derive(Clone, Copy, Drop)]
pub enum Material<'a> {
    /// Bytes.
    Bytes {
        /// The number of the Key Format Type (KMIP 1.2, 9.1.3.2.3), or of the Certificate Type.
        format: u32,
        /// A Byte String.
        bytes: &'a [u8],
    },
    /// A Transparent RSA Public Key.
    RsaPublic {
        /// The Modulus.
        modulus: &'a [u8],
        /// The Public Exponent.
        exponent: &'a [u8],
    },
    /// A Transparent RSA Private Key.
    RsaPrivate(RsaNumbers<'a>),
    /// A Transparent ECDSA or ECDH Public Key.
    EcPublic {
        /// The number of the Recommended Curve: KMIP 1.2, 9.1.3.2.5.
        curve: u32,
        /// The Q String.
        point: &'a [u8],
    },
    /// A Transparent ECDSA or ECDH Private Key.
    EcPrivate {
        /// The number of the Recommended Curve.
        curve: u32,
        /// D.
        number: &'a [u8],
    },
    /// Parts of another key, for which files have no format.
    Other,
}

/// The numbers of a private key of RSA: KMIP 1.2, 2.1.7.4.
#[derive(Clone, Copy, Drop)]
pub struct RsaNumbers<'a> {
    /// The Modulus.
    pub modulus: &'a [u8],
    /// The Public Exponent.
    pub public_exponent: Option<&'a [u8]>,
    /// The Private Exponent.
    pub private_exponent: Option<&'a [u8]>,
    /// P.
    pub p: Option<&'a [u8]>,
    /// Q.
    pub q: Option<&'a [u8]>,
    /// The Prime Exponent P.
    pub prime_exponent_p: Option<&'a [u8]>,
    /// The Prime Exponent Q.
    pub prime_exponent_q: Option<&'a [u8]>,
    /// The CRT Coefficient.
    pub crt_coefficient: Option<&'a [u8]>,
}
