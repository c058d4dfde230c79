//! Why a text is not read. Nothing here shows a byte of it.

/// Why a text has no block that is read. Each holds no part of the text, which may be a key.
#[derive(Clone, Copy, Debug, PartialEq, Eq, Drop)]
pub enum NoPem {
    /// No line begins a block, but for blocks of parameters.
    NoBlock,
    /// More than one block begins, blocks of parameters aside.
    Several,
    /// The block is encrypted: PKCS#8 that is, or a key whose first header says so.
    Encrypted,
    /// The block has a label that is none of `Label`.
    OtherLabel,
    /// No line ends the block.
    NoEnd,
    /// What stands in the block is no base64 of whole bytes.
    NoBase64,
}

/// Why reading gave nothing.
#[derive(Clone, Copy, Debug, PartialEq, Eq, Drop)]
pub enum ReadError {
    /// The text is no PEM that is read.
    NoPem(NoPem),
    /// Memory ran out.
    OutOfMemory,
}
