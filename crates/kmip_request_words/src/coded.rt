//! Values of enumerations by their names.
ghost use Rattle.std.specs.Prelude.{◌≡◌};
ghost use Rattle.kmip_request_words.specs.Coded.{variant_named, variant_or, variant_of};
ghost use Rattle.kmip_request_words.specs.Options.{value_given};

use crate::options::value_given;
use kmip_shape::Enumeration;
use kmip_types::{CryptographicAlgorithm, KeyFormatType};
use kmip_wire::Text;

/// The cryptographic algorithms: KMIP 1.0, 9.1.3.2.12.
pub const ALGORITHMS: &[CryptographicAlgorithm] = &[
    CryptographicAlgorithm::DES,
    CryptographicAlgorithm::TRIPLE_DES,
    CryptographicAlgorithm::AES,
    CryptographicAlgorithm::RSA,
];

/// The formats of keys: KMIP 1.0, 9.1.3.2.3.
pub const FORMATS: &[KeyFormatType] = &[
    KeyFormatType::Raw,
    KeyFormatType::Opaque,
    KeyFormatType::PKCS1,
    KeyFormatType::PKCS8,
    KeyFormatType::X509,
    KeyFormatType::ECPrivateKey,
    KeyFormatType::TransparentSymmetricKey,
    KeyFormatType::TransparentDSAPrivateKey,
    KeyFormatType::TransparentDSAPublicKey,
    KeyFormatType::TransparentRSAPrivateKey,
    KeyFormatType::TransparentRSAPublicKey,
    KeyFormatType::TransparentDHPrivateKey,
    KeyFormatType::TransparentDHPublicKey,
    KeyFormatType::TransparentECDSAPrivateKey,
    KeyFormatType::TransparentECDSAPublicKey,
    KeyFormatType::TransparentECHDPrivateKey,
    KeyFormatType::TransparentECDHPublicKey,
    KeyFormatType::TransparentECMQVPrivateKey,
    KeyFormatType::TransparentECMQVPublicKey,
];

/// The variant with this name. `variants` are those of the table.
pub fn variant_named<E: Enumeration>(variants: &[E], name: &str) -> Option<E>
    ensures { result ≡ variant_named E.line variants.now name.now }
{
    match variants {
        [] => None,
        [first, rest @ ..] => {
            if first.name() == name {
                Some(*first)
            } else {
                variant_named(rest, name)
            }
        }
    }
}

/// The variant whose name words give to an option, and `default` where they give none. `None` where
/// they give a name that is not of the table.
pub fn coded_given<E: Enumeration>(
    option: &str,
    variants: &[E],
    default: Option<E>,
    words: &[Text],
) -> Option<Option<E>>
    ensures { result ≡
        variant_or E.line variants.now default (value_given option.now words.now) }
{
    match value_given(option, words) {
        Some(name) => Some(Some(variant_named(variants, name)?)),
        None => Some(default),
    }
}

/// The variant whose name words give to an option; `None` where they give none, or a name that is
/// not of the table.
pub fn coded_required<E: Enumeration>(option: &str, variants: &[E], words: &[Text]) -> Option<E>
    ensures { result ≡ variant_of E.line variants.now (value_given option.now words.now) }
{
    variant_named(variants, value_given(option, words)?)
}
