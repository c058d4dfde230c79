// Written by tables/generate.py from tables/*.toml: change these instead.
//! The roles of keys.

ghost use Rattle.std.specs.Prelude.{◌≡◌, Some, refl};
ghost use Rattle.kmip_codes.specs.KeyRoleTypes.{key_role_type_line, key_role_type_variants};
ghost use Rattle.kmip_codes.specs.KeyRoleTypes.{key_role_type_found};

use kmip_shape::Enumeration;
use std::fmt::{self, Display, Formatter, Write};

/// The role of a key, mostly in payment systems: KMIP 1.0, 9.1.3.2.16.
#[derive(Clone, Copy, PartialEq, Eq, Drop)]
pub enum KeyRoleType {
    /// Base derivation key.
    BDK = 1,
    /// Card verification key.
    CVK = 2,
    /// Data encryption key.
    DEK = 3,
    /// EMV master key: application cryptograms.
    MKAC = 4,
    /// EMV master key: secure messaging for confidentiality.
    MKSMC = 5,
    /// EMV master key: secure messaging for integrity.
    MKSMI = 6,
    /// EMV master key: data authentication code.
    MKDAC = 7,
    /// EMV master key: dynamic numbers.
    MKDN = 8,
    /// EMV master key: card personalization.
    MKCP = 9,
    /// EMV master key: other.
    MKOTH = 10,
    /// Key encryption or wrapping key.
    KEK = 11,
    /// MAC key of ISO 16609, algorithm 1.
    MAC16609 = 12,
    /// MAC key of ISO 9797-1, algorithm 1.
    MAC97971 = 13,
    /// MAC key of ISO 9797-1, algorithm 2.
    MAC97972 = 14,
    /// MAC key of ISO 9797-1, algorithm 3.
    MAC97973 = 15,
    /// MAC key of ISO 9797-1, algorithm 4.
    MAC97974 = 16,
    /// MAC key of ISO 9797-1, algorithm 5.
    MAC97975 = 17,
    /// PIN block encryption key.
    ZPK = 18,
    /// PIN verification key, IBM 3624 algorithm.
    PVKIBM = 19,
    /// PIN verification key, VISA PVV algorithm.
    PVKPVV = 20,
    /// PIN verification key, other algorithm.
    PVKOTH = 21,
}

impl Enumeration for KeyRoleType {
    ghost line = { key_role_type_line };

    ghost variants = { key_role_type_variants };

    fn number(self) -> u32 {
        self as u32
    }

    fn from_number(number: u32) -> Option<KeyRoleType> {
        match number {
            1 => Some(KeyRoleType::BDK),
            2 => Some(KeyRoleType::CVK),
            3 => Some(KeyRoleType::DEK),
            4 => Some(KeyRoleType::MKAC),
            5 => Some(KeyRoleType::MKSMC),
            6 => Some(KeyRoleType::MKSMI),
            7 => Some(KeyRoleType::MKDAC),
            8 => Some(KeyRoleType::MKDN),
            9 => Some(KeyRoleType::MKCP),
            10 => Some(KeyRoleType::MKOTH),
            11 => Some(KeyRoleType::KEK),
            12 => Some(KeyRoleType::MAC16609),
            13 => Some(KeyRoleType::MAC97971),
            14 => Some(KeyRoleType::MAC97972),
            15 => Some(KeyRoleType::MAC97973),
            16 => Some(KeyRoleType::MAC97974),
            17 => Some(KeyRoleType::MAC97975),
            18 => Some(KeyRoleType::ZPK),
            19 => Some(KeyRoleType::PVKIBM),
            20 => Some(KeyRoleType::PVKPVV),
            21 => Some(KeyRoleType::PVKOTH),
            _ => None,
        }
    }

    fn name(self) -> &'static str {
        match self {
            KeyRoleType::BDK => "BDK",
            KeyRoleType::CVK => "CVK",
            KeyRoleType::DEK => "DEK",
            KeyRoleType::MKAC => "MKAC",
            KeyRoleType::MKSMC => "MKSMC",
            KeyRoleType::MKSMI => "MKSMI",
            KeyRoleType::MKDAC => "MKDAC",
            KeyRoleType::MKDN => "MKDN",
            KeyRoleType::MKCP => "MKCP",
            KeyRoleType::MKOTH => "MKOTH",
            KeyRoleType::KEK => "KEK",
            KeyRoleType::MAC16609 => "MAC16609",
            KeyRoleType::MAC97971 => "MAC97971",
            KeyRoleType::MAC97972 => "MAC97972",
            KeyRoleType::MAC97973 => "MAC97973",
            KeyRoleType::MAC97974 => "MAC97974",
            KeyRoleType::MAC97975 => "MAC97975",
            KeyRoleType::ZPK => "ZPK",
            KeyRoleType::PVKIBM => "PVKIBM",
            KeyRoleType::PVKPVV => "PVKPVV",
            KeyRoleType::PVKOTH => "PVKOTH",
        }
    }

    ghost found = { key_role_type_found };

    ghost distinct = { refl };
}

impl Display for KeyRoleType {
    ghost output = { λ x. Some (key_role_type_line x).name };

    fn fmt<W: Write>(&self, f: &mut Formatter<W>) -> fmt::Result {
        f.write_str(self.name())
    }
}
