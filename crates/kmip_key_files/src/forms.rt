//! What a file holds, by its label, in the numbers of KMIP.
ghost use Rattle.std.specs.Prelude.{◌≡◌};
ghost use Rattle.kmip_key_files.specs.Forms.{object_type, format, label_with};

use kmip_pem::Label;

/// The Object Type: KMIP 1.0, 9.1.3.2.11.
pub fn object_type(label: Label) -> u32
    ensures { result ≡ object_type label }
{
    match label {
        Label::RsaPublicKey | Label::PublicKey => 3,
        Label::RsaPrivateKey | Label::PrivateKey | Label::EcPrivateKey => 4,
        Label::Certificate => 1,
    }
}

/// The Key Format Type (KMIP 1.2, 9.1.3.2.3), or of a certificate the Certificate Type.
pub fn key_format(label: Label) -> u32
    ensures { result ≡ format label }
{
    match label {
        Label::RsaPublicKey | Label::RsaPrivateKey => 3,
        Label::PrivateKey => 4,
        Label::PublicKey => 5,
        Label::EcPrivateKey => 6,
        Label::Certificate => 1,
    }
}

/// The label of this Object Type and this format.
pub fn label_of(object_type: u32, format: u32) -> Option<Label>
    ensures { result ≡ label_with object_type format }
{
    if object_type == 3 && format == 3 {
        Some(Label::RsaPublicKey)
    } else if object_type == 3 && format == 5 {
        Some(Label::PublicKey)
    } else if object_type == 4 && format == 3 {
        Some(Label::RsaPrivateKey)
    } else if object_type == 4 && format == 4 {
        Some(Label::PrivateKey)
    } else if object_type == 4 && format == 6 {
        Some(Label::EcPrivateKey)
    } else if object_type == 1 && format == 1 {
        Some(Label::Certificate)
    } else {
        None
    }
}
