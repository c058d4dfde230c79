//! A row of a table, and what is asked of it.
use kmip_der::{
    Known, is_certificate, is_private, is_public, pkcs8, rsa_private, rsa_public, sec1, spki,
};
use std::alloc::Global;
use std::process::Abort;

/// A format of a key.
#[derive(Clone, Copy, PartialEq, Eq, Drop)]
pub(crate) enum Format {
    RsaPublic,
    RsaPrivate,
    Pkcs8,
    Sec1,
    Spki,
}

const FORMATS: [Format; 5] = [
    Format::RsaPublic,
    Format::RsaPrivate,
    Format::Pkcs8,
    Format::Sec1,
    Format::Spki,
];

/// A key in DER, in hex: its format, its algorithm and its length.
pub(crate) struct Row {
    pub name: &'static str,
    pub format: Format,
    pub hex: &'static str,
    pub algorithm: u32,
    pub len: u128,
}

/// What DER is in a format.
pub(crate) fn known_in(format: Format, der: &[u8]) -> Option<Known> {
    match format {
        Format::RsaPublic => rsa_public(der),
        Format::RsaPrivate => rsa_private(der),
        Format::Pkcs8 => pkcs8(der),
        Format::Sec1 => sec1(der),
        Format::Spki => spki(der),
    }
}

/// Whether a format is that of a public key.
fn is_format_of_public(format: Format) -> bool {
    matches!(format, Format::RsaPublic | Format::Spki)
}

/// The key is one in its format, of its algorithm and length, and in no other; it is private or
/// public, and no certificate.
pub(crate) fn is_of_its_format(rt: &impl Abort, alloc: Global, row: &Row) {
    let der = hex::decode(alloc, row.hex).expect(rt, "hex");
    for format in FORMATS {
        let found = known_in(format, &der);
        if format == row.format {
            let known = found.expect(rt, row.name);
            assert_eq!(rt; known.algorithm, row.algorithm, "{}", row.name);
            assert_eq!(rt; known.len, row.len, "{}", row.name);
        } else {
            assert!(rt; found.is_none(), "{}", row.name);
        }
    }
    let public = is_format_of_public(row.format);
    assert!(rt; is_public(&der) == public, "{}", row.name);
    assert!(rt; is_private(&der) != public, "{}", row.name);
    assert!(rt; !is_certificate(&der), "{}", row.name);
}

/// With a byte more, or one less, it is no key.
pub(crate) fn has_an_end(rt: &impl Abort, alloc: Global, row: &Row) {
    let mut der = hex::decode(alloc, row.hex).expect(rt, "hex");
    der.push(0).expect(rt, "memory");
    assert!(rt; known_in(row.format, &der).is_none(), "{}", row.name);
    der.pop();
    der.pop();
    assert!(rt; known_in(row.format, &der).is_none(), "{}", row.name);
}
