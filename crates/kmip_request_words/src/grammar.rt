//! The grammar of calls: one table, by which calls are explained and refused.
//!
//! What a call asks for stands with what reads it, in `asked.rt` and `keys.rt`, and in kmip_words.
ghost use Rattle.std.specs.Prelude.{◌≡◌, map, option_map};
ghost use Rattle.kmip_request_words.specs.Grammar.{attributes, calls, call_view, option_view, row_in, row_of};

/// What a word of a call is, or the value of an option.
#[derive(Clone, Copy, PartialEq, Eq, Drop)]
pub enum Kind {
    /// The identifier of an object: a text that is not empty.
    Identifier,
    /// A text.
    Text,
    /// A number from -2^31 to 2^31 - 1.
    Int,
    /// A date, in seconds since 1970-01-01 UTC, from 0 to 2^63 - 1.
    Seconds,
    /// Bytes, in hex digits.
    Hex,
    /// The bytes of a request, in hex digits.
    Request,
    /// The name of a cryptographic algorithm: KMIP 1.0, 9.1.3.2.12.
    Algorithm,
    /// The name of a format of keys: KMIP 1.0, 9.1.3.2.3.
    Format,
    /// The name of a hashing algorithm: KMIP 1.0, 9.1.3.2.15.
    Hash,
    /// The name of a padding method: KMIP 1.0, 9.1.3.2.14.
    Padding,
    /// The name of a reason for a revocation: KMIP 1.0, 9.1.3.2.18.
    Reason,
    /// The name of a type of objects: KMIP 1.0, 9.1.3.2.11.
    ObjectType,
    /// The name of a state of objects: KMIP 1.0, 9.1.3.2.17.
    State,
    /// `public`, `private` or `symmetric`.
    KeyKind,
    /// Names of uses, with `,` between two: KMIP 1.2, 9.1.3.3.1.
    Uses,
    /// Nothing: the option is given by its name alone.
    Flag,
    /// An attribute with its value, as `state=Active`.
    Attribute,
    /// The name of an operation.
    Operation,
    /// A version of KMIP.
    Version,
    /// The payload of a request, in JSON.
    Payload,
    /// A whole message, in JSON.
    Message,
}

/// What stands after the words of a call.
#[derive(Clone, Copy, PartialEq, Eq, Drop)]
pub enum Rest {
    /// Its options, in any order, each at most once.
    Options,
    /// Any number of names of attributes.
    Names,
    /// Nothing; but in place of the word there may be any number of attributes.
    Attributes,
    /// Nothing: its options stand before its last word.
    Nothing,
}

/// A word of a call.
#[derive(Clone, Copy, Drop)]
pub struct WordRow {
    /// What it is called.
    pub name: &'static str,
    /// What it is.
    pub kind: Kind,
}

/// An option of a call.
#[derive(Clone, Copy, Drop)]
pub struct OptionRow {
    /// What stands before its value, as `hash=`; or the whole option, as `prehashed`.
    pub name: &'static str,
    /// What its value is.
    pub kind: Kind,
    /// Whether the call is none without it.
    pub is_needed: bool,
}

/// A call.
#[derive(Clone, Copy, Drop)]
pub struct CallRow {
    /// Its name.
    pub name: &'static str,
    /// Its words.
    pub words: &'static [WordRow],
    /// What stands after them.
    pub rest: Rest,
    /// Its options.
    pub options: &'static [OptionRow],
    /// What it asks for.
    pub help: &'static str,
}

/// How many bits a key is to have.
const BITS: WordRow = WordRow {
    name: "BITS",
    kind: Kind::Int,
};

/// The name of a private key.
const PRIVATE_NAME: WordRow = WordRow {
    name: "PRIVATE-NAME",
    kind: Kind::Text,
};

/// The name of a public key.
const PUBLIC_NAME: WordRow = WordRow {
    name: "PUBLIC-NAME",
    kind: Kind::Text,
};

/// The name of an object or of an attribute.
const NAME: WordRow = WordRow {
    name: "NAME",
    kind: Kind::Text,
};

/// The algorithm of a key.
const ALGORITHM: WordRow = WordRow {
    name: "ALGORITHM",
    kind: Kind::Algorithm,
};

/// Which key it is of a pair, or a symmetric one.
const KIND: WordRow = WordRow {
    name: "KIND",
    kind: Kind::KeyKind,
};

/// Bytes.
const HEX: WordRow = WordRow {
    name: "HEX",
    kind: Kind::Hex,
};

/// The identifier of an object.
const ID: WordRow = WordRow {
    name: "ID",
    kind: Kind::Identifier,
};

/// An attribute with its value.
const ATTRIBUTE: WordRow = WordRow {
    name: "ATTRIBUTE",
    kind: Kind::Attribute,
};

/// How many bytes are wanted.
const NUMBER: WordRow = WordRow {
    name: "N",
    kind: Kind::Int,
};

/// The bytes of a request.
const REQUEST: WordRow = WordRow {
    name: "HEX",
    kind: Kind::Request,
};

/// The name of an operation.
const OPERATION: WordRow = WordRow {
    name: "NAME",
    kind: Kind::Operation,
};

/// The payload of an operation, in JSON.
const PAYLOAD: WordRow = WordRow {
    name: "PAYLOAD",
    kind: Kind::Payload,
};

/// A whole message, in JSON.
const MESSAGE: WordRow = WordRow {
    name: "MESSAGE",
    kind: Kind::Message,
};

/// The attributes that `locate`, `attribute-add` and `attribute-modify` take.
const ATTRIBUTES: &[OptionRow] = &[
    OptionRow {
        name: "name=",
        kind: Kind::Text,
        is_needed: false,
    },
    OptionRow {
        name: "group=",
        kind: Kind::Text,
        is_needed: false,
    },
    OptionRow {
        name: "contact=",
        kind: Kind::Text,
        is_needed: false,
    },
    OptionRow {
        name: "type=",
        kind: Kind::ObjectType,
        is_needed: false,
    },
    OptionRow {
        name: "state=",
        kind: Kind::State,
        is_needed: false,
    },
    OptionRow {
        name: "algorithm=",
        kind: Kind::Algorithm,
        is_needed: false,
    },
    OptionRow {
        name: "length=",
        kind: Kind::Int,
        is_needed: false,
    },
    OptionRow {
        name: "activation=",
        kind: Kind::Seconds,
        is_needed: false,
    },
];

/// The calls.
const CALLS: &[CallRow] = &[
    CallRow {
        name: "query",
        words: &[],
        rest: Rest::Options,
        options: &[],
        help: "what the server can do",
    },
    CallRow {
        name: "discover",
        words: &[],
        rest: Rest::Options,
        options: &[],
        help: "the versions of KMIP that the server speaks",
    },
    CallRow {
        name: "create-rsa",
        words: &[BITS, PRIVATE_NAME, PUBLIC_NAME],
        rest: Rest::Options,
        options: &[
            OptionRow {
                name: "private-usage=",
                kind: Kind::Uses,
                is_needed: false,
            },
            OptionRow {
                name: "public-usage=",
                kind: Kind::Uses,
                is_needed: false,
            },
        ],
        help: "a new pair of RSA keys with these names; the answer has their identifiers",
    },
    CallRow {
        name: "create-aes",
        words: &[BITS, NAME],
        rest: Rest::Options,
        options: &[],
        help: "a new AES key with this name, to encrypt and decrypt",
    },
    CallRow {
        name: "create",
        words: &[ALGORITHM, BITS, NAME],
        rest: Rest::Options,
        options: &[OptionRow {
            name: "usage=",
            kind: Kind::Uses,
            is_needed: false,
        }],
        help: "a new symmetric key, of another algorithm or for other uses",
    },
    CallRow {
        name: "register",
        words: &[KIND, HEX],
        rest: Rest::Options,
        options: &[
            OptionRow {
                name: "format=",
                kind: Kind::Format,
                is_needed: true,
            },
            OptionRow {
                name: "algorithm=",
                kind: Kind::Algorithm,
                is_needed: true,
            },
            OptionRow {
                name: "length=",
                kind: Kind::Int,
                is_needed: true,
            },
            OptionRow {
                name: "usage=",
                kind: Kind::Uses,
                is_needed: false,
            },
            OptionRow {
                name: "name=",
                kind: Kind::Text,
                is_needed: false,
            },
        ],
        help: "a key that is there already, of these bytes",
    },
    CallRow {
        name: "locate",
        words: &[NAME],
        rest: Rest::Attributes,
        options: &[],
        help: "the identifiers of the objects with this name, or with all of these attributes, or of all objects",
    },
    CallRow {
        name: "attributes",
        words: &[ID],
        rest: Rest::Names,
        options: &[],
        help: "the attributes of an object: those with these names, or all",
    },
    CallRow {
        name: "attribute-add",
        words: &[ID, ATTRIBUTE],
        rest: Rest::Options,
        options: &[],
        help: "the object gets the attribute",
    },
    CallRow {
        name: "attribute-modify",
        words: &[ID, ATTRIBUTE],
        rest: Rest::Options,
        options: &[OptionRow {
            name: "index=",
            kind: Kind::Int,
            is_needed: false,
        }],
        help: "the attribute gets this value",
    },
    CallRow {
        name: "attribute-delete",
        words: &[ID, NAME],
        rest: Rest::Options,
        options: &[OptionRow {
            name: "index=",
            kind: Kind::Int,
            is_needed: false,
        }],
        help: "the object loses the attribute with this name",
    },
    CallRow {
        name: "activate",
        words: &[ID],
        rest: Rest::Options,
        options: &[],
        help: "the key may be used",
    },
    CallRow {
        name: "sign",
        words: &[ID, HEX],
        rest: Rest::Options,
        options: &[
            OptionRow {
                name: "hash=",
                kind: Kind::Hash,
                is_needed: false,
            },
            OptionRow {
                name: "padding=",
                kind: Kind::Padding,
                is_needed: false,
            },
            OptionRow {
                name: "algorithm=",
                kind: Kind::Algorithm,
                is_needed: false,
            },
            OptionRow {
                name: "prehashed",
                kind: Kind::Flag,
                is_needed: false,
            },
        ],
        help: "the signature of these bytes by a private key: by RSA with PKCS #1 v1.5 and SHA-256, where no option says otherwise",
    },
    CallRow {
        name: "rename",
        words: &[ID, NAME],
        rest: Rest::Options,
        options: &[],
        help: "another name for an object",
    },
    CallRow {
        name: "get",
        words: &[ID],
        rest: Rest::Options,
        options: &[
            OptionRow {
                name: "format=",
                kind: Kind::Format,
                is_needed: false,
            },
            OptionRow {
                name: "wrap=",
                kind: Kind::Identifier,
                is_needed: false,
            },
        ],
        help: "the object itself: its key material too, in this format, or wrapped by the key with that identifier",
    },
    CallRow {
        name: "revoke",
        words: &[ID],
        rest: Rest::Options,
        options: &[
            OptionRow {
                name: "reason=",
                kind: Kind::Reason,
                is_needed: false,
            },
            OptionRow {
                name: "message=",
                kind: Kind::Text,
                is_needed: false,
            },
            OptionRow {
                name: "since=",
                kind: Kind::Seconds,
                is_needed: false,
            },
        ],
        help: "the key may be used no longer",
    },
    CallRow {
        name: "destroy",
        words: &[ID],
        rest: Rest::Options,
        options: &[],
        help: "the object is destroyed",
    },
    CallRow {
        name: "rng",
        words: &[NUMBER],
        rest: Rest::Options,
        options: &[],
        help: "so many random bytes",
    },
    CallRow {
        name: "raw",
        words: &[REQUEST],
        rest: Rest::Options,
        options: &[],
        help: "any request, as its one canonical message",
    },
    CallRow {
        name: "operation",
        words: &[OPERATION, PAYLOAD],
        rest: Rest::Nothing,
        options: &[
            OptionRow {
                name: "version=",
                kind: Kind::Version,
                is_needed: false,
            },
            OptionRow {
                name: "item-id=",
                kind: Kind::Hex,
                is_needed: false,
            },
        ],
        help: "any operation of KMIP, by its name, with its payload in JSON",
    },
    CallRow {
        name: "message",
        words: &[MESSAGE],
        rest: Rest::Nothing,
        options: &[],
        help: "a whole message in JSON, as it stands",
    },
];

/// The table, which is that of specs.
pub fn calls() -> &'static [CallRow]
    ensures { map call_view result.now ≡ calls }
{
    CALLS
}

/// The attributes, which are those of specs.
pub fn attribute_rows() -> &'static [OptionRow]
    ensures { map option_view result.now ≡ attributes }
{
    ATTRIBUTES
}

/// The row of the call with this name.
fn row_in<'a>(rows: &'a [CallRow], name: &str) -> Option<&'a CallRow>
    ensures { option_map (λ row. call_view row.now) result ≡
        row_in (map call_view rows.now) name.now }
{
    match rows {
        [] => None,
        [first, rest @ ..] => {
            if first.name == name {
                Some(first)
            } else {
                row_in(rest, name)
            }
        }
    }
}

/// The row of the call with this name.
pub fn row_of(name: &str) -> Option<&'static CallRow>
    ensures { option_map (λ row. call_view row.now) result ≡ row_of name.now }
{
    row_in(calls(), name)
}
