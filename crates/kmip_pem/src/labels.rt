//! The labels of what KMIP keeps, and the lines that begin and end a block.
ghost use Rattle.std.specs.Prelude.{◌≡◌, option_map};
ghost use Rattle.kmip_pem.specs.Labels.{label_text, label_named, is_private, is_public};
ghost use Rattle.kmip_pem.specs.Labels.{before_dashes, begun_by, ended_by, ends, is_of_parameters};

/// What a block holds, by the label in its first and its last line.
#[derive(Clone, Copy, Debug, PartialEq, Eq, Drop)]
pub enum Label {
    /// `RSA PUBLIC KEY`: PKCS#1, RFC 8017, A.1.1.
    RsaPublicKey,
    /// `PUBLIC KEY`: the public key of X.509, RFC 5280, 4.1.2.7.
    PublicKey,
    /// `RSA PRIVATE KEY`: PKCS#1, RFC 8017, A.1.2.
    RsaPrivateKey,
    /// `PRIVATE KEY`: PKCS#8, RFC 5208, 5.
    PrivateKey,
    /// `EC PRIVATE KEY`: ECPrivateKey, RFC 5915, 3.
    EcPrivateKey,
    /// `CERTIFICATE`: RFC 5280, 4.1.
    Certificate,
}

pub(crate) const DASHES: &[u8] = b"-----";

pub(crate) const BEGIN: &[u8] = b"-----BEGIN ";

pub(crate) const END: &[u8] = b"-----END ";

impl Label {
    /// As it stands in a text.
    pub fn text(self) -> &'static [u8]
        ensures { result.now ≡ label_text self }
    {
        match self {
            Label::RsaPublicKey => b"RSA PUBLIC KEY",
            Label::PublicKey => b"PUBLIC KEY",
            Label::RsaPrivateKey => b"RSA PRIVATE KEY",
            Label::PrivateKey => b"PRIVATE KEY",
            Label::EcPrivateKey => b"EC PRIVATE KEY",
            Label::Certificate => b"CERTIFICATE",
        }
    }

    /// The label with this text.
    pub fn named(text: &[u8]) -> Option<Label>
        ensures { result ≡ label_named text.now }
    {
        if text == b"RSA PUBLIC KEY".as_slice() {
            Some(Label::RsaPublicKey)
        } else if text == b"PUBLIC KEY".as_slice() {
            Some(Label::PublicKey)
        } else if text == b"RSA PRIVATE KEY".as_slice() {
            Some(Label::RsaPrivateKey)
        } else if text == b"PRIVATE KEY".as_slice() {
            Some(Label::PrivateKey)
        } else if text == b"EC PRIVATE KEY".as_slice() {
            Some(Label::EcPrivateKey)
        } else if text == b"CERTIFICATE".as_slice() {
            Some(Label::Certificate)
        } else {
            None
        }
    }

    /// Whether a private key has this label.
    pub fn is_private(self) -> bool
        ensures { result ≡ is_private self }
    {
        matches!(
            self,
            Label::RsaPrivateKey | Label::PrivateKey | Label::EcPrivateKey
        )
    }

    /// Whether a public key has this label.
    pub fn is_public(self) -> bool
        ensures { result ≡ is_public self }
    {
        matches!(self, Label::RsaPublicKey | Label::PublicKey)
    }
}

/// What stands before five dashes at the end.
fn before_dashes<'a>(rest: &'a [u8]) -> Option<&'a [u8]>
    ensures { option_map (λ label. label.now) result ≡ before_dashes rest.now }
{
    if rest.ends_with(DASHES) {
        Some(&rest[..rest.len() - 5])
    } else {
        None
    }
}

/// The label of a line that begins a block.
pub(crate) fn begun_by<'a>(line: &'a [u8]) -> Option<&'a [u8]>
    ensures { option_map (λ label. label.now) result ≡ begun_by line.now }
{
    if line.starts_with(BEGIN) {
        before_dashes(&line[11..])
    } else {
        None
    }
}

/// The label of a line that ends a block.
fn ended_by<'a>(line: &'a [u8]) -> Option<&'a [u8]>
    ensures { option_map (λ label. label.now) result ≡ ended_by line.now }
{
    if line.starts_with(END) {
        before_dashes(&line[9..])
    } else {
        None
    }
}

/// Whether a line ends the block of this label.
pub(crate) fn ends(label: &[u8], line: &[u8]) -> bool
    ensures { result ≡ ends label.now line.now }
{
    match ended_by(line) {
        Some(other) => other == label,
        None => false,
    }
}

/// Whether a block of this label has parameters of a curve or of DSA.
pub(crate) fn is_of_parameters(label: &[u8]) -> bool
    ensures { result ≡ is_of_parameters label.now }
{
    label == b"EC PARAMETERS".as_slice() || label == b"DSA PARAMETERS".as_slice()
}
