//! The table of calls.
ghost use Rattle.std.specs.Prelude.{◌≡◌, map};
ghost use Rattle.kmip_operation_words.specs.Rows.{row_view};
ghost use Rattle.kmip_operation_words.specs.Table.{calls};

use crate::fields::{
    ALGORITHM_ATTRIBUTE, CIPHER, CORRELATION, COUNT, COUNT_WANTED, CURVE, CURVE_ALGORITHM,
    CURVE_PRIVATE_NAME, CURVE_PUBLIC_NAME, DATA_ALONE, DERIVATION_DATA, DERIVATION_IV, HASH,
    HASHED_BY, ID, IDS, ITERATIONS, IV, KEY_ALGORITHM, KEY_BITS, KEY_NAME, KEY_USAGE, LEASE_WANTED,
    LENGTH, LENGTH_NEEDED, MAC, METHOD, MODE, NAME_GIVEN, OBJECT_DATA, OFFSET, PADDING, PARAMETERS,
    PRIVATE_ID, PRIVATE_NAME, PRIVATE_USAGE, PUBLIC_NAME, PUBLIC_USAGE, REQUEST, REQUEST_TYPE,
    SALT, SECOND_ID, SEED, SIGNATURE, SYMMETRIC_KEY, TYPE, USAGE_ATTRIBUTE, USAGE_WANTED,
};
use crate::rows::{Group, OperationRow, PartRow, Rest};
use kmip_enums::Operation;
use kmip_tags::tags;

/// The object alone.
const OBJECT: PartRow = PartRow {
    group: Group::Payload,
    fields: &[ID],
};

/// How the object is used: KMIP 1.2, 3.6.
const USED: PartRow = PartRow {
    group: Group::Payload,
    fields: PARAMETERS,
};

/// The data, and where the cipher starts.
const DATA_AND_IV: PartRow = PartRow {
    group: Group::Payload,
    fields: &[OBJECT_DATA, IV],
};

/// The name of a new object.
const NAMED: PartRow = PartRow {
    group: Group::Given(tags::TEMPLATE_ATTRIBUTE),
    fields: &[NAME_GIVEN],
};

/// The calls.
const CALLS: &[OperationRow] = &[
    OperationRow {
        name: "encrypt",
        operation: Operation::Encrypt,
        words: 2,
        rest: Rest::Options,
        parts: &[OBJECT, USED, DATA_AND_IV],
    },
    OperationRow {
        name: "decrypt",
        operation: Operation::Decrypt,
        words: 2,
        rest: Rest::Options,
        parts: &[OBJECT, USED, DATA_AND_IV],
    },
    OperationRow {
        name: "mac",
        operation: Operation::MAC,
        words: 2,
        rest: Rest::Options,
        parts: &[
            OBJECT,
            USED,
            PartRow {
                group: Group::Payload,
                fields: &[OBJECT_DATA],
            },
        ],
    },
    OperationRow {
        name: "mac-verify",
        operation: Operation::MACVerify,
        words: 3,
        rest: Rest::Options,
        parts: &[
            OBJECT,
            USED,
            PartRow {
                group: Group::Payload,
                fields: &[OBJECT_DATA, MAC],
            },
        ],
    },
    OperationRow {
        name: "verify",
        operation: Operation::SignatureVerify,
        words: 3,
        rest: Rest::Options,
        parts: &[
            OBJECT,
            USED,
            PartRow {
                group: Group::Payload,
                fields: &[OBJECT_DATA, SIGNATURE],
            },
        ],
    },
    OperationRow {
        name: "hash",
        operation: Operation::Hash,
        words: 1,
        rest: Rest::Options,
        parts: &[PartRow {
            group: Group::Payload,
            fields: &[HASHED_BY, DATA_ALONE],
        }],
    },
    OperationRow {
        name: "derive-key",
        operation: Operation::DeriveKey,
        words: 2,
        rest: Rest::Options,
        parts: &[
            PartRow {
                group: Group::Payload,
                fields: &[TYPE, ID, SECOND_ID, METHOD],
            },
            PartRow {
                group: Group::Needed(tags::DERIVATION_PARAMETERS),
                fields: &[
                    MODE,
                    PADDING,
                    HASH,
                    CIPHER,
                    DERIVATION_IV,
                    DERIVATION_DATA,
                    SALT,
                    ITERATIONS,
                ],
            },
            PartRow {
                group: Group::Given(tags::TEMPLATE_ATTRIBUTE),
                fields: &[
                    ALGORITHM_ATTRIBUTE,
                    LENGTH_NEEDED,
                    USAGE_ATTRIBUTE,
                    NAME_GIVEN,
                ],
            },
        ],
    },
    OperationRow {
        name: "rekey",
        operation: Operation::Rekey,
        words: 1,
        rest: Rest::Options,
        parts: &[PartRow {
            group: Group::Payload,
            fields: &[ID, OFFSET],
        }],
    },
    OperationRow {
        name: "rekey-pair",
        operation: Operation::RekeyKeyPair,
        words: 1,
        rest: Rest::Options,
        parts: &[PartRow {
            group: Group::Payload,
            fields: &[PRIVATE_ID, OFFSET],
        }],
    },
    OperationRow {
        name: "certify",
        operation: Operation::Certify,
        words: 1,
        rest: Rest::Options,
        parts: &[
            PartRow {
                group: Group::Payload,
                fields: &[ID, REQUEST_TYPE, REQUEST],
            },
            NAMED,
        ],
    },
    OperationRow {
        name: "recertify",
        operation: Operation::Recertify,
        words: 1,
        rest: Rest::Options,
        parts: &[
            PartRow {
                group: Group::Payload,
                fields: &[ID, REQUEST_TYPE, REQUEST, OFFSET],
            },
            NAMED,
        ],
    },
    OperationRow {
        name: "create-ec",
        operation: Operation::CreateKeyPair,
        words: 3,
        rest: Rest::Options,
        parts: &[
            PartRow {
                group: Group::Given(tags::COMMON_TEMPLATE_ATTRIBUTE),
                fields: &[CURVE_ALGORITHM, LENGTH, CURVE],
            },
            PartRow {
                group: Group::Given(tags::PRIVATE_KEY_TEMPLATE_ATTRIBUTE),
                fields: &[CURVE_PRIVATE_NAME, PRIVATE_USAGE],
            },
            PartRow {
                group: Group::Given(tags::PUBLIC_KEY_TEMPLATE_ATTRIBUTE),
                fields: &[CURVE_PUBLIC_NAME, PUBLIC_USAGE],
            },
        ],
    },
    OperationRow {
        name: "create-pair",
        operation: Operation::CreateKeyPair,
        words: 4,
        rest: Rest::Options,
        parts: &[
            PartRow {
                group: Group::Given(tags::COMMON_TEMPLATE_ATTRIBUTE),
                fields: &[KEY_ALGORITHM, KEY_BITS],
            },
            PartRow {
                group: Group::Given(tags::PRIVATE_KEY_TEMPLATE_ATTRIBUTE),
                fields: &[PRIVATE_NAME, PRIVATE_USAGE],
            },
            PartRow {
                group: Group::Given(tags::PUBLIC_KEY_TEMPLATE_ATTRIBUTE),
                fields: &[PUBLIC_NAME, PUBLIC_USAGE],
            },
        ],
    },
    OperationRow {
        name: "create-key",
        operation: Operation::Create,
        words: 3,
        rest: Rest::Options,
        parts: &[
            PartRow {
                group: Group::Payload,
                fields: &[SYMMETRIC_KEY],
            },
            PartRow {
                group: Group::Given(tags::TEMPLATE_ATTRIBUTE),
                fields: &[KEY_ALGORITHM, KEY_BITS, KEY_NAME, KEY_USAGE],
            },
        ],
    },
    OperationRow {
        name: "check",
        operation: Operation::Check,
        words: 1,
        rest: Rest::Options,
        parts: &[PartRow {
            group: Group::Payload,
            fields: &[ID, COUNT_WANTED, USAGE_WANTED, LEASE_WANTED],
        }],
    },
    OperationRow {
        name: "attribute-list",
        operation: Operation::GetAttributeList,
        words: 1,
        rest: Rest::Options,
        parts: &[OBJECT],
    },
    OperationRow {
        name: "lease",
        operation: Operation::ObtainLease,
        words: 1,
        rest: Rest::Options,
        parts: &[OBJECT],
    },
    OperationRow {
        name: "usage-allocation",
        operation: Operation::GetUsageAllocation,
        words: 2,
        rest: Rest::Options,
        parts: &[PartRow {
            group: Group::Payload,
            fields: &[ID, COUNT],
        }],
    },
    OperationRow {
        name: "archive",
        operation: Operation::Archive,
        words: 1,
        rest: Rest::Options,
        parts: &[OBJECT],
    },
    OperationRow {
        name: "recover",
        operation: Operation::Recover,
        words: 1,
        rest: Rest::Options,
        parts: &[OBJECT],
    },
    OperationRow {
        name: "validate",
        operation: Operation::Validate,
        words: 1,
        rest: Rest::Words,
        parts: &[PartRow {
            group: Group::Payload,
            fields: &[ID, IDS],
        }],
    },
    OperationRow {
        name: "cancel",
        operation: Operation::Cancel,
        words: 1,
        rest: Rest::Options,
        parts: &[PartRow {
            group: Group::Payload,
            fields: &[CORRELATION],
        }],
    },
    OperationRow {
        name: "poll",
        operation: Operation::Poll,
        words: 1,
        rest: Rest::Options,
        parts: &[PartRow {
            group: Group::Payload,
            fields: &[CORRELATION],
        }],
    },
    OperationRow {
        name: "rng-seed",
        operation: Operation::RNGSeed,
        words: 1,
        rest: Rest::Options,
        parts: &[PartRow {
            group: Group::Payload,
            fields: &[SEED],
        }],
    },
];

/// The table, which is that of specs.
pub fn operation_calls() -> &'static [OperationRow]
    ensures { map row_view result.now ≡ calls }
{
    CALLS
}
