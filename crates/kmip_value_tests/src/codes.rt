use crate::support::has_names;
use bitflags::Flags;
use kmip_codes::{
    BlockCipherMode, CryptographicAlgorithm, CryptographicUsageMask, DigitalSignatureAlgorithm,
    HashingAlgorithm, KeyCompressionType, KeyFormatType, KeyRoleType, PaddingMethod,
    WrappingMethod,
};
use std::process::Abort;

/// The names of variants, in the order of their numbers.
const BLOCK_CIPHER_MODES: &str =
    "CBC ECB PCBC CFB OFB CTR CMAC CCM GCM CBC_MAC XTS AESKeyWrapPadding NISTKeyWrap X9_102_AESKW X9_102_TDKW X9_102_AKW1 X9_102_AKW2";

const CRYPTOGRAPHIC_ALGORITHMS: &str = "DES TRIPLE_DES AES RSA";

const DIGITAL_SIGNATURE_ALGORITHMS: &str =
    "MD2WithRSAEncryption_PKCS1_v1_5 MD5WithRSAEncryption_PKCS1_v1_5 SHA1WithRSAEncryption_PKCS1_v1_5 SHA224WithRSAEncryption_PKCS1_v1_5 SHA256WithRSAEncryption_PKCS1_v1_5 SHA384WithRSAEncryption_PKCS1_v1_5 SHA512WithRSAEncryption_PKCS1_v1_5 RSASSA_PSS_PKCS1_v1_5 DSAWithSHA1 DSAWithSHA224 DSAWithSHA256 ECDSAWithSHA1 ECDSAWithSHA224 ECDSAWithSHA256 ECDSAWithSHA384 ECDSAWithSHA512";

const HASHING_ALGORITHMS: &str =
    "MD2 MD4 MD5 SHA1 SHA224 SHA256 SHA384 SHA512 RIPEMD160 Tiger Whirlpool";

const KEY_COMPRESSION_TYPES: &str =
    "ECPUblicKeyTypeUncompressed ECPUblicKeyTypeX962CompressedPrime ECPUblicKeyTypeX962CompressedChar2 ECPUblicKeyTypeX962Hybrid";

const KEY_FORMAT_TYPES: &str =
    "Raw Opaque PKCS1 PKCS8 X509 ECPrivateKey TransparentSymmetricKey TransparentDSAPrivateKey TransparentDSAPublicKey TransparentRSAPrivateKey TransparentRSAPublicKey TransparentDHPrivateKey TransparentDHPublicKey TransparentECDSAPrivateKey TransparentECDSAPublicKey TransparentECHDPrivateKey TransparentECDHPublicKey TransparentECMQVPrivateKey TransparentECMQVPublicKey";

const KEY_ROLE_TYPES: &str =
    "BDK CVK DEK MKAC MKSMC MKSMI MKDAC MKDN MKCP MKOTH KEK MAC16609 MAC97971 MAC97972 MAC97973 MAC97974 MAC97975 ZPK PVKIBM PVKPVV PVKOTH";

const PADDING_METHODS: &str =
    "None OAEP PKCS5 SSL3 Zeros ANSI_X9_23 ISO_10126 PKCS1_v1_5 X9_31 PSS";

const WRAPPING_METHODS: &str = "Encrypt MACSign EncryptThenMACSign MACSignThenEncrypt TR31";

#[test]
fn codes_have_the_names_of_the_table(rt: HostRuntime) {
    has_names::<BlockCipherMode>(&rt, rt.alloc(), 1..18, BLOCK_CIPHER_MODES);
    has_names::<CryptographicAlgorithm>(&rt, rt.alloc(), 1..5, CRYPTOGRAPHIC_ALGORITHMS);
    has_names::<DigitalSignatureAlgorithm>(&rt, rt.alloc(), 1..17, DIGITAL_SIGNATURE_ALGORITHMS);
    has_names::<HashingAlgorithm>(&rt, rt.alloc(), 1..12, HASHING_ALGORITHMS);
    has_names::<KeyCompressionType>(&rt, rt.alloc(), 1..5, KEY_COMPRESSION_TYPES);
    has_names::<KeyFormatType>(&rt, rt.alloc(), 1..20, KEY_FORMAT_TYPES);
    has_names::<KeyRoleType>(&rt, rt.alloc(), 1..22, KEY_ROLE_TYPES);
    has_names::<PaddingMethod>(&rt, rt.alloc(), 1..11, PADDING_METHODS);
    has_names::<WrappingMethod>(&rt, rt.alloc(), 1..6, WRAPPING_METHODS);
}

/// The names of the mask's bits, from the lowest.
const USES: &str =
    "Sign Verify Encrypt Decrypt WrapKey UnwrapKey Export MacGenerate MacVerify DeriveKey ContentCommitmentNonRepudiation KeyAgreement CertificateSign CrlSign GenerateCryptogram ValidateCryptogram TranslateEncrypt TranslateDecrypt TranslateWrap TranslateUnwrap";

/// The flag of the name is this bit.
fn is_flag(rt: &impl Abort, name: &str, bit: u32) {
    let flag = CryptographicUsageMask::from_name(name).expect(rt, name);
    assert!(rt; flag.bits() == bit, "{name}");
}

#[test]
fn a_usage_mask_has_the_bits_of_the_table(rt: HostRuntime) {
    let mut bit = 1u32;
    for name in USES.split(' ') {
        is_flag(&rt, name, bit);
        bit = bit.rotate_left(1);
    }
    assert!(rt; bit == 0x100000);
}

#[test]
fn a_usage_mask_has_known_bits_alone(rt: HostRuntime) {
    let both = CryptographicUsageMask::Sign.union(CryptographicUsageMask::Verify);
    assert!(rt; both.bits() == 3 && both.contains(CryptographicUsageMask::Verify));
    assert!(rt; !both.contains(CryptographicUsageMask::Encrypt));
    assert!(rt; CryptographicUsageMask::from_bits(0x100000).is_none());
    let all = CryptographicUsageMask::from_bits(0xFFFFF).expect(&rt, "all bits are known");
    assert!(rt; all.bits() == 0xFFFFF);
}
