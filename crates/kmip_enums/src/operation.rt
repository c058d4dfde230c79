// Written by tables/generate.py from tables/*.toml: change these instead.
//! The operations.

ghost use Rattle.std.specs.Prelude.{◌≡◌, Some, refl};
ghost use Rattle.kmip_enums.specs.Operations.{operation_line, operation_variants, operation_found};

use kmip_shape::Enumeration;
use kmip_shape::read::Outer;
use kmip_shape::row_readers::Chooses;
use std::fmt::{self, Display, Formatter, Write};

/// The operation that a request asks for: KMIP 1.0, 9.1.3.2.26, with those that KMIP 1.1 and 1.2
/// add. Each variant has the section of its operation.
#[derive(Clone, Copy, PartialEq, Eq, Drop)]
pub enum Operation {
    /// KMIP 1.0, 4.1.
    Create = 1,
    /// KMIP 1.0, 4.2.
    CreateKeyPair = 2,
    /// KMIP 1.0, 4.3.
    Register = 3,
    /// KMIP 1.0, 4.4.
    Rekey = 4,
    /// KMIP 1.0, 4.5.
    DeriveKey = 5,
    /// KMIP 1.0, 4.6.
    Certify = 6,
    /// KMIP 1.0, 4.7.
    Recertify = 7,
    /// KMIP 1.0, 4.8.
    Locate = 8,
    /// KMIP 1.0, 4.9.
    Check = 9,
    /// KMIP 1.0, 4.10.
    Get = 10,
    /// KMIP 1.0, 4.11.
    GetAttributes = 11,
    /// KMIP 1.0, 4.12.
    GetAttributeList = 12,
    /// KMIP 1.0, 4.13.
    AddAttribute = 13,
    /// KMIP 1.0, 4.14.
    ModifyAttribute = 14,
    /// KMIP 1.0, 4.15.
    DeleteAttribute = 15,
    /// KMIP 1.0, 4.16.
    ObtainLease = 16,
    /// KMIP 1.0, 4.17.
    GetUsageAllocation = 17,
    /// KMIP 1.0, 4.18.
    Activate = 18,
    /// KMIP 1.0, 4.19.
    Revoke = 19,
    /// KMIP 1.0, 4.20.
    Destroy = 20,
    /// KMIP 1.0, 4.21.
    Archive = 21,
    /// KMIP 1.0, 4.22.
    Recover = 22,
    /// KMIP 1.0, 4.23.
    Validate = 23,
    /// KMIP 1.0, 4.24.
    Query = 24,
    /// KMIP 1.0, 4.25.
    Cancel = 25,
    /// KMIP 1.0, 4.26.
    Poll = 26,
    /// KMIP 1.0, 5.1.
    Notify = 27,
    /// KMIP 1.0, 5.2.
    Put = 28,
    /// KMIP 1.1, 4.5.
    RekeyKeyPair = 29,
    /// KMIP 1.1, 4.26.
    DiscoverVersions = 30,
    /// KMIP 1.2, 4.29.
    Encrypt = 31,
    /// KMIP 1.2, 4.30.
    Decrypt = 32,
    /// KMIP 1.2, 4.31.
    Sign = 33,
    /// KMIP 1.2, 4.32.
    SignatureVerify = 34,
    /// KMIP 1.2, 4.33.
    MAC = 35,
    /// KMIP 1.2, 4.34.
    MACVerify = 36,
    /// KMIP 1.2, 4.35.
    RNGRetrieve = 37,
    /// KMIP 1.2, 4.36.
    RNGSeed = 38,
    /// KMIP 1.2, 4.37.
    Hash = 39,
    /// KMIP 1.2, 4.38.
    CreateSplitKey = 40,
    /// KMIP 1.2, 4.39.
    JoinSplitKey = 41,
}

impl Enumeration for Operation {
    ghost line = { operation_line };

    ghost variants = { operation_variants };

    fn number(self) -> u32 {
        self as u32
    }

    fn from_number(number: u32) -> Option<Operation> {
        match number {
            1 => Some(Operation::Create),
            2 => Some(Operation::CreateKeyPair),
            3 => Some(Operation::Register),
            4 => Some(Operation::Rekey),
            5 => Some(Operation::DeriveKey),
            6 => Some(Operation::Certify),
            7 => Some(Operation::Recertify),
            8 => Some(Operation::Locate),
            9 => Some(Operation::Check),
            10 => Some(Operation::Get),
            11 => Some(Operation::GetAttributes),
            12 => Some(Operation::GetAttributeList),
            13 => Some(Operation::AddAttribute),
            14 => Some(Operation::ModifyAttribute),
            15 => Some(Operation::DeleteAttribute),
            16 => Some(Operation::ObtainLease),
            17 => Some(Operation::GetUsageAllocation),
            18 => Some(Operation::Activate),
            19 => Some(Operation::Revoke),
            20 => Some(Operation::Destroy),
            21 => Some(Operation::Archive),
            22 => Some(Operation::Recover),
            23 => Some(Operation::Validate),
            24 => Some(Operation::Query),
            25 => Some(Operation::Cancel),
            26 => Some(Operation::Poll),
            27 => Some(Operation::Notify),
            28 => Some(Operation::Put),
            29 => Some(Operation::RekeyKeyPair),
            30 => Some(Operation::DiscoverVersions),
            31 => Some(Operation::Encrypt),
            32 => Some(Operation::Decrypt),
            33 => Some(Operation::Sign),
            34 => Some(Operation::SignatureVerify),
            35 => Some(Operation::MAC),
            36 => Some(Operation::MACVerify),
            37 => Some(Operation::RNGRetrieve),
            38 => Some(Operation::RNGSeed),
            39 => Some(Operation::Hash),
            40 => Some(Operation::CreateSplitKey),
            41 => Some(Operation::JoinSplitKey),
            _ => None,
        }
    }

    fn name(self) -> &'static str {
        match self {
            Operation::Create => "Create",
            Operation::CreateKeyPair => "CreateKeyPair",
            Operation::Register => "Register",
            Operation::Rekey => "Rekey",
            Operation::DeriveKey => "DeriveKey",
            Operation::Certify => "Certify",
            Operation::Recertify => "Recertify",
            Operation::Locate => "Locate",
            Operation::Check => "Check",
            Operation::Get => "Get",
            Operation::GetAttributes => "GetAttributes",
            Operation::GetAttributeList => "GetAttributeList",
            Operation::AddAttribute => "AddAttribute",
            Operation::ModifyAttribute => "ModifyAttribute",
            Operation::DeleteAttribute => "DeleteAttribute",
            Operation::ObtainLease => "ObtainLease",
            Operation::GetUsageAllocation => "GetUsageAllocation",
            Operation::Activate => "Activate",
            Operation::Revoke => "Revoke",
            Operation::Destroy => "Destroy",
            Operation::Archive => "Archive",
            Operation::Recover => "Recover",
            Operation::Validate => "Validate",
            Operation::Query => "Query",
            Operation::Cancel => "Cancel",
            Operation::Poll => "Poll",
            Operation::Notify => "Notify",
            Operation::Put => "Put",
            Operation::RekeyKeyPair => "RekeyKeyPair",
            Operation::DiscoverVersions => "DiscoverVersions",
            Operation::Encrypt => "Encrypt",
            Operation::Decrypt => "Decrypt",
            Operation::Sign => "Sign",
            Operation::SignatureVerify => "SignatureVerify",
            Operation::MAC => "MAC",
            Operation::MACVerify => "MACVerify",
            Operation::RNGRetrieve => "RNGRetrieve",
            Operation::RNGSeed => "RNGSeed",
            Operation::Hash => "Hash",
            Operation::CreateSplitKey => "CreateSplitKey",
            Operation::JoinSplitKey => "JoinSplitKey",
        }
    }

    ghost found = { operation_found };

    ghost distinct = { refl };
}

impl Display for Operation {
    ghost output = { λ x. Some (operation_line x).name };

    fn fmt<W: Write>(&self, f: &mut Formatter<W>) -> fmt::Result {
        f.write_str(self.name())
    }
}

impl Chooses for Operation {
    fn outer(&self) -> Outer<'_> {
        Outer {
            number: Some(self.number()),
            name: None,
        }
    }
}
