// Written by tables/generate.py from tables/*.toml: change these instead.
//! The uses of a key.

ghost use Rattle.std.specs.Prelude.{⊤, ◌≡◌};
ghost use Rattle.kmip_codes.specs.UsageMask.{usages, usage_bits};

use bitflags::{Flag, Flags, bitflag_items};

/// What a key may be used for: a set of uses, one bit each (KMIP 1.0, 3.14 and 9.1.3.3.1).
#[derive(Clone, Copy, PartialEq, Eq, Drop)]
pub struct CryptographicUsageMask(u32);

bitflag_items! {
    impl CryptographicUsageMask: u32 {
        const Sign = 0x1;
        const Verify = 0x2;
        const Encrypt = 0x4;
        const Decrypt = 0x8;
        const WrapKey = 0x10;
        const UnwrapKey = 0x20;
        const Export = 0x40;
        const MacGenerate = 0x80;
        const MacVerify = 0x100;
        const DeriveKey = 0x200;
        const ContentCommitmentNonRepudiation = 0x400;
        const KeyAgreement = 0x800;
        const CertificateSign = 0x1000;
        const CrlSign = 0x2000;
        const GenerateCryptogram = 0x4000;
        const ValidateCryptogram = 0x8000;
        const TranslateEncrypt = 0x10000;
        const TranslateDecrypt = 0x20000;
        const TranslateWrap = 0x40000;
        const TranslateUnwrap = 0x80000;
    }
}

impl Flags for CryptographicUsageMask {
    type Bits = u32;

    ghost exact = { ⊤ };

    ghost table = { usages };

    ghost set_of = { usage_bits };

    fn flags<'a>() -> &'a [Flag<CryptographicUsageMask>] {
        CryptographicUsageMask::FLAGS
    }

    fn bits(&self) -> u32 {
        self.0
    }

    fn from_bits_retain(bits: u32) -> CryptographicUsageMask {
        CryptographicUsageMask(bits)
    }
}
