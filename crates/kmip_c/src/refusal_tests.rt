//! Words that are no call, and why. The texts are written by hand.
use crate::test_words::Given::{Data, NoText, Text};
use crate::test_words::{Given, words_of};
use crate::{kmip_answer, kmip_refusal, kmip_request};
use kmip_calls::Word;
use std::alloc::Global;
use std::process::Abort;
use std::test::Fail;

/// `kmip_request` without its clauses, so that the proof of a test looks into no definition; so are
/// the functions below.
fn request(
    alloc: Global,
    words: &[Word],
    id: &[u8],
    has_credential: bool,
    user: &[u8],
    password: &[u8],
    into: &mut [u8],
) -> i64 {
    kmip_request(alloc, words, id, has_credential, user, password, into)
}

fn refusal(alloc: Global, words: &[Word], into: &mut [u8]) -> i64 {
    kmip_refusal(alloc, words, into)
}

fn answer(
    alloc: Global,
    words: &[Word],
    id: &[u8],
    response: &[u8],
    into: &mut [u8],
    length: &mut i64,
) -> i32 {
    kmip_answer(alloc, words, id, response, into, length)
}

/// Words that are no call, and why.
struct RefusalRow {
    words: &'static [Given],
    why: &'static str,
}

const REFUSALS: &[RefusalRow] = &[
    RefusalRow {
        words: &[],
        why: "no call is given",
    },
    RefusalRow {
        words: &[Text("rng")],
        why: "the words are not those of rng N",
    },
    RefusalRow {
        words: &[Text("rename"), Text("1")],
        why: "the words are not those of rename ID NAME",
    },
    RefusalRow {
        words: &[Text("100%")],
        why: "there is no call 100%",
    },
    RefusalRow {
        words: &[Text("password=secret")],
        why: "an option is out of its place, or there is none of its name",
    },
    RefusalRow {
        words: &[Text("sign"), Text(""), Text("00")],
        why: "an identifier is empty; a request that means it is sent by message",
    },
    RefusalRow {
        words: &[Text("sign"), Text("k1"), Text("-")],
        why: "sign: HEX is no even number of hex digits, and not - for no bytes",
    },
    RefusalRow {
        words: &[Data(b"rng"), Text("16")],
        why: "the name of the call is no text, or a text is not UTF-8",
    },
    RefusalRow {
        words: &[Text("rename"), Text("k1"), NoText(&[255])],
        why: "the name of the call is no text, or a text is not UTF-8",
    },
    RefusalRow {
        words: &[NoText(&[255])],
        why: "the name of the call is no text, or a text is not UTF-8",
    },
    RefusalRow {
        words: &[Text("archive"), Text("")],
        why: "archive: ID has to be a text that is not empty; its form is: archive ID",
    },
    RefusalRow {
        words: &[Text("hash"), Data(b"hh"), Text("hash=sha1")],
        why: "hash: hash= has to be one of MD2, MD4, MD5, SHA_1, ",
    },
    RefusalRow {
        words: &[Text("encrypt"), Text("5"), Data(b"hh"), Data(b"mode=CBC")],
        why: "encrypt: a word is no option of it, or an option is given twice; its form is: ",
    },
    RefusalRow {
        words: &[Text("validate"), Text("1"), Text("")],
        why: "validate: ID has to be a text that is not empty; its form is: validate ID [ID..]",
    },
];

#[test]
fn words_that_are_no_call_are_explained(rt: HostRuntime) -> Result<(), Fail> {
    let alloc: Global = rt.alloc();
    for row in REFUSALS {
        let words = words_of(alloc, row.words)?;
        let mut into = [7u8; 600];
        let length = refusal(alloc, &words, &mut into);
        assert!(rt; into.starts_with(row.why.as_bytes()), "{}", row.why);
        assert!(rt; length >= row.why.len() as i64, "{}", row.why);
        let mut small = [7u8; 8];
        assert!(rt; refusal(alloc, &words, &mut small) == length, "{}", row.why);
        assert!(rt; request(alloc, &words, b"", false, b"", b"", &mut small) == -2);
        let mut count = 7;
        assert!(rt; answer(alloc, &words, b"", &[], &mut small, &mut count) == 2);
        assert!(rt; count == 0);
        assert!(rt; small == [7u8; 8], "{}", row.why);
    }
    Ok(())
}
