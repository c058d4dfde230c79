//! Requests by words as a caller makes them. Messages stand in the notation of kmip_test_messages.
use crate::test_words::Given::{Data, Text};
use crate::test_words::{Given, texts_in, words_of};
use crate::{kmip_refusal, kmip_request};
use kmip_calls::Word;
use kmip_test_messages::message;
use std::alloc::Global;
use std::process::Abort;
use std::test::Fail;

/// `kmip_request` without its clauses, so that the proof of a test looks into no definition.
fn request(
    alloc: Global,
    words: &[Word],
    id: &[u8],
    has_credential: bool,
    user: &[u8],
    password: &[u8],
    into: &mut [u8],
) -> i64 {
    kmip_request(alloc, words, id, has_credential, user, password, into)
}

/// `kmip_refusal` without its clauses, so that the proof of a test looks into no definition.
fn refusal(alloc: Global, words: &[Word], into: &mut [u8]) -> i64 {
    kmip_refusal(alloc, words, into)
}

/// Words, and the request that they ask for.
struct RequestRow {
    shows: &'static str,
    words: &'static [Given],
    id: &'static [u8],
    request: &'static str,
}

const REQUESTS: &[RequestRow] = &[
    RequestRow {
        shows: "a call of one word",
        words: &[Text("query")],
        id: b"",
        request: "REQ2(18, 74 e1,74 e2,74 e3)",
    },
    RequestRow {
        shows: "hex digits in place of data, and options",
        words: &[
            Text("sign"),
            Text("k1"),
            Text("00aA"),
            Text("padding=PSS"),
            Text("hash=SHA384"),
        ],
        id: b"",
        request: r#"REQ2(21, 94 "k1",2B{5F eA,38 e7,28 e4},C2 x00AA)"#,
    },
    RequestRow {
        shows: "data, and the one option without a value",
        words: &[
            Text("sign"),
            Text("k1"),
            Data(&[0, 0xAA]),
            Text("prehashed"),
        ],
        id: b"",
        request: r#"REQ2(21, 94 "k1",2B{5F e8,28 e4},C2 x00AA)"#,
    },
    RequestRow {
        shows: "no data",
        words: &[Text("sign"), Text("k1"), Data(b"")],
        id: b"",
        request: r#"REQ2(21, 94 "k1",2B{5F e8,38 e6,28 e4},C2 x)"#,
    },
    RequestRow {
        shows: "the request of a typed call has no ID",
        words: &[Text("rename"), Text("k1"), Text("100%")],
        id: b"12345678",
        request: r#"REQ0(E, 94 "k1",08{0A "Name",0B{55 "100%",54 e1}})"#,
    },
    RequestRow {
        shows: "the text -",
        words: &[Text("rename"), Text("-"), Text("-")],
        id: b"",
        request: r#"REQ0(E, 94 "-",08{0A "Name",0B{55 "-",54 e1}})"#,
    },
    RequestRow {
        shows: "the empty text",
        words: &[Text("rename"), Text("k1"), Text("")],
        id: b"",
        request: r#"REQ0(E, 94 "k1",08{0A "Name",0B{55 "",54 e1}})"#,
    },
    RequestRow {
        shows: "spaces, and what looks like an escape",
        words: &[Text("rename"), Text(" k 1 "), Text("a%20b%2D")],
        id: b"",
        request: r#"REQ0(E, 94 " k 1 ",08{0A "Name",0B{55 "a%20b%2D",54 e1}})"#,
    },
    RequestRow {
        shows: "characters past ASCII",
        words: &[Text("rename"), Text("k1"), Text("caf\u{e9} \u{1f511}")],
        id: b"",
        request: "REQ0(E, 94 \"k1\",08{0A \"Name\",0B{55 \"caf\u{e9} \u{1f511}\",54 e1}})",
    },
    RequestRow {
        shows: "one word of locate is a name, whatever it is",
        words: &[Text("locate"), Text("state=Active")],
        id: b"",
        request: r#"REQ0(8, 08{0A "Name",0B{55 "state=Active",54 e1}})"#,
    },
    RequestRow {
        shows: "two words of locate are attributes",
        words: &[
            Text("locate"),
            Text("name=50% of a=b"),
            Text("state=Active"),
        ],
        id: b"",
        request: r#"REQ0(8, 08{0A "Name",0B{55 "50% of a=b",54 e1}},08{0A "State",0B e2})"#,
    },
    RequestRow {
        shows: "and so are those behind where",
        words: &[Text("locate"), Text("where"), Text("name=-")],
        id: b"",
        request: r#"REQ0(8, 08{0A "Name",0B{55 "-",54 e1}})"#,
    },
    RequestRow {
        shows: "an attribute that is a word of its call, with an empty value",
        words: &[Text("attribute-add"), Text("k1"), Text("group=")],
        id: b"",
        request: r#"REQ0(D, 94 "k1",08{0A "Object Group",0B ""})"#,
    },
    RequestRow {
        shows: "names of attributes",
        words: &[
            Text("attributes"),
            Text("k1"),
            Text("State"),
            Text("x-100%="),
        ],
        id: b"",
        request: r#"REQ0(B, 94 "k1",0A "State",0A "x-100%=")"#,
    },
    RequestRow {
        shows: "an option with a text",
        words: &[
            Text("revoke"),
            Text("k1"),
            Text("reason=KeyCompromise"),
            Text("message=100% lost"),
            Text("since=1700000000"),
        ],
        id: b"",
        request: r#"REQ0(13, 94 "k1",81{82 e2,80 "100% lost"},21 d1700000000)"#,
    },
    RequestRow {
        shows: "a call of the table",
        words: &[
            Text("encrypt"),
            Text("5%"),
            Data(b"hh"),
            Text("mode=CBC"),
            Text("iv=0102"),
        ],
        id: b"",
        request: r#"REQ2(1F, 94 "5%",2B{11 e1},C2 x6868,3D x0102)"#,
    },
    RequestRow {
        shows: "a call of the table with an ID",
        words: &[Text("archive"), Text("-")],
        id: b"12345678",
        request: r#"78{77{69{6A i1,6B i2},0D i1},0F{5C e15,93 x3132333435363738,79{94 "-"}}}"#,
    },
    RequestRow {
        shows: "any number of words, which are no options",
        words: &[Text("validate"), Text("1"), Text("a=%")],
        id: b"",
        request: r#"REQ2(17, 94 "1",94 "a=%")"#,
    },
];

#[test]
fn words_have_their_request(rt: HostRuntime) -> Result<(), Fail> {
    let alloc: Global = rt.alloc();
    for row in REQUESTS {
        let words = words_of(alloc, row.words)?;
        let expected = message(alloc, row.request)?;
        let mut into = [7u8; 400];
        let length = request(alloc, &words, row.id, false, b"", b"", &mut into);
        assert!(rt; length == expected.len() as i64, "{}", row.shows);
        assert!(rt; into.starts_with(&expected), "{}", row.shows);
        assert!(rt; into.get(expected.len()) == Some(&7), "{}", row.shows);
        assert!(rt; refusal(alloc, &words, &mut into) == -3, "{}", row.shows);
    }
    Ok(())
}

#[test]
fn a_request_is_written_where_it_fits(rt: HostRuntime) -> Result<(), Fail> {
    let alloc: Global = rt.alloc();
    let words = texts_in(alloc, "rng 16")?;
    let mut small = [7u8; 119];
    assert!(rt; request(alloc, &words, b"", false, b"", b"", &mut small) == 120);
    assert!(rt; small == [7u8; 119]);
    let mut into = [7u8; 122];
    assert!(rt; request(alloc, &words, b"", false, b"", b"", &mut into) == 120);
    assert!(rt; &into[..4] == [0x42, 0x00, 0x78, 0x01].as_slice());
    assert!(rt; &into[119..] == [0, 7, 7].as_slice());
    Ok(())
}

#[test]
fn a_credential_is_sent_where_one_is_given(rt: HostRuntime) -> Result<(), Fail> {
    let alloc: Global = rt.alloc();
    let words = texts_in(alloc, "rng 16")?;
    let mut into = [0u8; 400];
    let length = request(alloc, &words, b"", true, b"alice", b"secret", &mut into);
    assert!(rt; length > 120);
    assert!(rt; into.windows(6).any(|it| it == b"secret".as_slice()));
    assert!(rt; request(alloc, &words, b"", false, &[255], &[255], &mut into) == 120);
    assert!(rt; request(alloc, &words, b"", true, &[255], b"p", &mut into) == -2);
    assert!(rt; request(alloc, &words, b"", true, b"u", &[255], &mut into) == -2);
    Ok(())
}
