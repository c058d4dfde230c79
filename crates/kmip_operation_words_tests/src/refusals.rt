//! Words that are no call of the table, and why.
use crate::support::{asked, refusal};
use std::alloc::Global;
use std::process::Abort;
use std::rt::HostRuntime;

const NO_CALLS: &[&str] = &[
    "sign 5 00",
    "Encrypt 5 00",
    "encrypt",
    "encrypt 5",
    "encrypt 5 0",
    "encrypt 5 0G",
    "encrypt - 00",
    "encrypt %G0 00",
    "encrypt 5 00 mode=XYZ",
    "encrypt 5 00 mode=cbc",
    "encrypt 5 00 mode=",
    "encrypt 5 00 mode",
    "encrypt 5 00 mode=CBC mode=CBC",
    "encrypt 5 00 mode=CBC mode=ECB",
    "encrypt 5 00 curve=P_256",
    "encrypt 5 00 00",
    "encrypt 5 00 random-iv=yes",
    "encrypt 5 00 tag-length=1.5",
    "encrypt 5 00 tag-length=2147483648",
    "hash 00",
    "hash 00 hash=SHA_1 mode=CBC",
    "derive-key 3 PBKDF2 hash=SHA256",
    "derive-key 3 PBKDF2 hash=SHA256 length=128 mode=cbc",
    "derive-key 3 PBKDF3 length=128 hash=SHA256",
    "derive-key 3 ENCRYPT length=128 iv=0",
    "derive-key 3 ENCRYPT length=128 cipher=AES cipher=AES",
    "derive-key 3 ENCRYPT length=128 tag-length=16",
    "derive-key 3 HMAC length=128 also=-",
    "derive-key 3 HMAC length=128 also=4 also=5",
    "derive-key 3 4 HMAC length=128",
    "rekey -",
    "rekey-pair -",
    "rekey 5 offset=-1",
    "rekey 5 offset=4294967296",
    "create-ec P_257 a b",
    "create-ec P_256 a",
    "create-pair DSA x a b",
    "create-key AES 256 a usage=Encrypt,",
    "create-key AES 256 a type=PublicKey",
    "check 5 usage=",
    "usage-allocation 5",
    "usage-allocation 5 -1",
    "usage-allocation 5 9223372036854775808",
    "check 5 count=18446744073709551616",
    "archive",
    "archive 5 6",
    "validate",
    "validate 5 -",
    "cancel 0",
    "cancel -",
    "poll",
    "poll -",
];

#[test]
fn words_that_are_no_call(rt: HostRuntime) {
    let alloc = rt.alloc();
    for line in NO_CALLS {
        let made = asked(&rt, alloc, line);
        assert!(rt; made.is_none(), "{line}");
        assert!(rt; refusal(&rt, alloc, line).is_some(), "{line}");
    }
}

struct Sentence {
    words: &'static str,
    refusal: &'static str,
}

const SENTENCES: &[Sentence] = &[
    Sentence {
        words: "sign 5 00",
        refusal: "the first word is the name of no call",
    },
    Sentence {
        words: "rekey -",
        refusal: "rekey: ID has to be a text that is not empty; its form is: rekey ID [offset=SECONDS]",
    },
    Sentence {
        words: "hash 00",
        refusal: "hash: hash= has to be one of MD2, MD4, MD5, SHA_1, SHA_224, SHA_256, SHA_384, SHA_512, RIPEMD_160, Tiger, Whirlpool, SHA_512_224, SHA_512_256; its form is: hash DATA hash=NAME",
    },
    Sentence {
        words: "derive-key 3 ENCRYPT also= length=128",
        refusal: "derive-key: also= has to be a text that is not empty; its form is: derive-key ID METHOD [type=NAME] [also=ID] [mode=NAME] [padding=NAME] [hash=NAME] [cipher=NAME] [iv=HEX] [data=HEX] [salt=HEX] [iterations=N] [algorithm=NAME] length=N [usage=USES] [name=TEXT]",
    },
    Sentence {
        words: "archive 5 6",
        refusal: "archive: a word is no option of it, or an option is given twice; its form is: archive ID",
    },
    Sentence {
        words: "poll -",
        refusal: "poll: HEX has to be an even number of hex digits, at least two; its form is: poll HEX",
    },
    Sentence {
        words: "validate",
        refusal: "validate: ID has to be a text that is not empty; its form is: validate ID [ID..]",
    },
    Sentence {
        words: "check 5 usage=sign",
        refusal: "check: usage= has to be names of uses, as Sign,Verify; its form is: check ID [count=N] [usage=USES] [lease=SECONDS]",
    },
];

/// The words of a row are refused with its sentence.
fn is_refused(rt: &impl Abort, alloc: Global, row: &Sentence) {
    let why = refusal(rt, alloc, row.words).expect(rt, row.words);
    assert_eq!(rt; why.as_str(), row.refusal, "{}", row.words);
}

#[test]
fn sentences(rt: HostRuntime) {
    let alloc = rt.alloc();
    for row in SENTENCES {
        is_refused(&rt, alloc, row);
    }
    assert!(rt; refusal(&rt, alloc, "rekey 5").is_none());
}
