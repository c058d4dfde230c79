//! What is written, by `printf .. | base64 -w 64`.
use kmip_pem::{Label, read, write};
use std::alloc::Global;
use std::process::Abort;

/// Zeros, and what is written of them: a line that is full, and one that is one group more.
const ZEROS: &[(usize, &[u8])] = &[
    (
        0,
        b"-----BEGIN CERTIFICATE-----\n-----END CERTIFICATE-----\n",
    ),
    (
        1,
        b"-----BEGIN CERTIFICATE-----\nAA==\n-----END CERTIFICATE-----\n",
    ),
    (
        47,
        b"-----BEGIN CERTIFICATE-----\n\
AAAAAAAAAAAAAAAAAAAAAAAAAAAAAAAAAAAAAAAAAAAAAAAAAAAAAAAAAAAAAAA=\n\
-----END CERTIFICATE-----\n",
    ),
    (
        48,
        b"-----BEGIN CERTIFICATE-----\n\
AAAAAAAAAAAAAAAAAAAAAAAAAAAAAAAAAAAAAAAAAAAAAAAAAAAAAAAAAAAAAAAA\n\
-----END CERTIFICATE-----\n",
    ),
    (
        49,
        b"-----BEGIN CERTIFICATE-----\n\
AAAAAAAAAAAAAAAAAAAAAAAAAAAAAAAAAAAAAAAAAAAAAAAAAAAAAAAAAAAAAAAA\n\
AA==\n\
-----END CERTIFICATE-----\n",
    ),
];

fn are_written(rt: &impl Abort, alloc: Global, count: usize, wanted: &[u8]) {
    let bytes = vec![in alloc; 0u8; count].expect(rt, "memory");
    let text = write(alloc, Label::Certificate, &bytes).expect(rt, "memory");
    assert!(rt; text.as_slice() == wanted, "{count}");
    let pem = read(alloc, text.as_slice()).expect(rt, "a PEM");
    assert!(rt; pem.bytes.as_slice() == bytes.as_slice(), "{count}");
}

#[test]
fn zeros_are_written_and_read(rt: HostRuntime) {
    for (count, wanted) in ZEROS {
        are_written(&rt, rt.alloc(), *count, *wanted);
    }
}

/// Each label, its text, and whether a private key or a public one has it.
const LABELS: &[(Label, &[u8], bool, bool)] = &[
    (Label::RsaPublicKey, b"RSA PUBLIC KEY", false, true),
    (Label::PublicKey, b"PUBLIC KEY", false, true),
    (Label::RsaPrivateKey, b"RSA PRIVATE KEY", true, false),
    (Label::PrivateKey, b"PRIVATE KEY", true, false),
    (Label::EcPrivateKey, b"EC PRIVATE KEY", true, false),
    (Label::Certificate, b"CERTIFICATE", false, false),
];

#[test]
fn labels_have_their_texts(rt: HostRuntime) {
    for (label, text, private, public) in LABELS {
        assert!(rt; label.text() == *text);
        assert!(rt; Label::named(*text) == Some(*label));
        assert!(rt; label.is_private() == *private);
        assert!(rt; label.is_public() == *public);
    }
    assert!(rt; Label::named(b"X").is_none());
}
