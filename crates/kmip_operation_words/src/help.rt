//! What a call asks for, in words for a help text.

/// What the call with this name asks for; an empty text where the table has no such call.
pub fn operation_help(name: &str) -> &'static str {
    match name {
        "encrypt" => "the data, encrypted with a key",
        "decrypt" => "the data, decrypted with a key",
        "mac" => "the message authentication code of the data, by a key",
        "mac-verify" => "whether this is the message authentication code of the data",
        "verify" => {
            "whether this is a signature of the data, by the private key of this public one"
        }
        "hash" => "the hash of the data",
        "derive-key" => {
            "a new key or secret, derived from one object or two by PBKDF2, HASH, HMAC or ENCRYPT"
        }
        "rekey" => "a new symmetric key in the place of this one",
        "rekey-pair" => "a new pair of keys in the place of the pair of this private key",
        "certify" => "a certificate for a public key",
        "recertify" => "a new certificate in the place of this one",
        "create-ec" => "a new pair of keys on a curve, with these names",
        "create-pair" => "a new pair of keys of any algorithm, with these names",
        "create-key" => "a new symmetric key of any algorithm",
        "check" => "whether an object may be used so",
        "attribute-list" => "the names of the attributes that an object has",
        "lease" => "a lease of an object: for how long it may be used",
        "usage-allocation" => "so much of the use that is left of an object",
        "archive" => "the object may be stored off line",
        "recover" => "the object is to be on line again",
        "validate" => "whether these certificates are a valid chain",
        "cancel" => "the operation that has not ended is stopped",
        "poll" => "how far the operation is that has not ended",
        "rng-seed" => "the random numbers get these bytes",
        _ => "",
    }
}
