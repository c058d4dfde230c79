// Written by tables/generate.py from tables/*.toml: change these instead.
//! The modes of block ciphers.

ghost use Rattle.std.specs.Prelude.{◌≡◌, Some, refl};
ghost use Rattle.kmip_codes.specs.BlockCipherModes.{block_cipher_mode_line};
ghost use Rattle.kmip_codes.specs.BlockCipherModes.{block_cipher_mode_variants};
ghost use Rattle.kmip_codes.specs.BlockCipherModes.{block_cipher_mode_found};

use kmip_shape::Enumeration;
use std::fmt::{self, Display, Formatter, Write};

/// The mode in which a block cipher is used: KMIP 1.0, 9.1.3.2.13.
#[derive(Clone, Copy, PartialEq, Eq, Drop)]
#[allow(non_camel_case_types)]
pub enum BlockCipherMode {
    CBC = 1,
    ECB = 2,
    PCBC = 3,
    CFB = 4,
    OFB = 5,
    CTR = 6,
    CMAC = 7,
    CCM = 8,
    GCM = 9,
    CBC_MAC = 10,
    XTS = 11,
    AESKeyWrapPadding = 12,
    NISTKeyWrap = 13,
    X9_102_AESKW = 14,
    X9_102_TDKW = 15,
    X9_102_AKW1 = 16,
    X9_102_AKW2 = 17,
}

impl Enumeration for BlockCipherMode {
    ghost line = { block_cipher_mode_line };

    ghost variants = { block_cipher_mode_variants };

    fn number(self) -> u32 {
        self as u32
    }

    fn from_number(number: u32) -> Option<BlockCipherMode> {
        match number {
            1 => Some(BlockCipherMode::CBC),
            2 => Some(BlockCipherMode::ECB),
            3 => Some(BlockCipherMode::PCBC),
            4 => Some(BlockCipherMode::CFB),
            5 => Some(BlockCipherMode::OFB),
            6 => Some(BlockCipherMode::CTR),
            7 => Some(BlockCipherMode::CMAC),
            8 => Some(BlockCipherMode::CCM),
            9 => Some(BlockCipherMode::GCM),
            10 => Some(BlockCipherMode::CBC_MAC),
            11 => Some(BlockCipherMode::XTS),
            12 => Some(BlockCipherMode::AESKeyWrapPadding),
            13 => Some(BlockCipherMode::NISTKeyWrap),
            14 => Some(BlockCipherMode::X9_102_AESKW),
            15 => Some(BlockCipherMode::X9_102_TDKW),
            16 => Some(BlockCipherMode::X9_102_AKW1),
            17 => Some(BlockCipherMode::X9_102_AKW2),
            _ => None,
        }
    }

    fn name(self) -> &'static str {
        match self {
            BlockCipherMode::CBC => "CBC",
            BlockCipherMode::ECB => "ECB",
            BlockCipherMode::PCBC => "PCBC",
            BlockCipherMode::CFB => "CFB",
            BlockCipherMode::OFB => "OFB",
            BlockCipherMode::CTR => "CTR",
            BlockCipherMode::CMAC => "CMAC",
            BlockCipherMode::CCM => "CCM",
            BlockCipherMode::GCM => "GCM",
            BlockCipherMode::CBC_MAC => "CBC_MAC",
            BlockCipherMode::XTS => "XTS",
            BlockCipherMode::AESKeyWrapPadding => "AESKeyWrapPadding",
            BlockCipherMode::NISTKeyWrap => "NISTKeyWrap",
            BlockCipherMode::X9_102_AESKW => "X9_102_AESKW",
            BlockCipherMode::X9_102_TDKW => "X9_102_TDKW",
            BlockCipherMode::X9_102_AKW1 => "X9_102_AKW1",
            BlockCipherMode::X9_102_AKW2 => "X9_102_AKW2",
        }
    }

    ghost found = { block_cipher_mode_found };

    ghost distinct = { refl };
}

impl Display for BlockCipherMode {
    ghost output = { λ x. Some (block_cipher_mode_line x).name };

    fn fmt<W: Write>(&self, f: &mut Formatter<W>) -> fmt::Result {
        f.write_str(self.name())
    }
}
