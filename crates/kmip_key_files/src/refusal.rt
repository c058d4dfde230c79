//! Why a file is no object of KMIP, and why an object has no file. Nothing here shows a key.
use kmip_pem::NoPem;

/// Why a file is not told to KMIP.
#[derive(Clone, Copy, Debug, PartialEq, Eq, Drop)]
pub enum NoObject {
    /// The text has no block that is read.
    NoPem(NoPem),
    /// DER is a key in none of the formats, and no certificate.
    NoKey,
    /// The bytes are not what their label says.
    OtherDer,
    /// KMIP 1.2 has no name for the algorithm, or for the curve.
    NoName,
    /// The key has no bits, or more than a Cryptographic Length can say.
    NoLength,
}

/// Why reading a file gave nothing.
#[derive(Clone, Copy, Debug, PartialEq, Eq, Drop)]
pub enum ReadError {
    /// The file is not told to KMIP.
    NoObject(NoObject),
    /// Memory ran out.
    OutOfMemory,
}

/// Why there is no file of what KMIP keeps.
#[derive(Clone, Copy, Debug, PartialEq, Eq, Drop)]
pub enum NoFile {
    /// It is no key of two and no certificate.
    OtherType,
    /// The key is wrapped.
    Wrapped,
    /// Files have no such format for its Object Type.
    OtherFormat,
    /// The bytes are not what their format says, or KMIP has no name for what they are.
    OtherBytes,
    /// There are no bytes.
    NoBytes,
    /// A number is missing that a private key of RSA has in a file.
    NoNumber,
    /// A number is negative.
    Negative,
    /// A number is wider than its field.
    TooWide,
    /// KMIP 1.2 has no curve with this number.
    NoCurve,
    /// The bytes are no point of the curve.
    NoPoint,
}

/// Why writing a file gave nothing.
#[derive(Clone, Copy, Debug, PartialEq, Eq, Drop)]
pub enum WriteError {
    /// There is no file of it.
    NoFile(NoFile),
    /// Memory ran out.
    OutOfMemory,
}
