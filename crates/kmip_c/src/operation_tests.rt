//! Calls of any operation as a caller makes them. Messages stand in the notation of
//! kmip_test_messages, and JSON is written by hand.
use crate::{kmip_operation_answer, kmip_operation_refusal, kmip_operation_request};
use kmip_test_messages::message;
use kmip_wire::Text;
use std::alloc::Global;
use std::process::Abort;
use std::test::Fail;

/// What a caller gives for a call.
#[derive(Clone, Copy)]
struct Words {
    name: &'static [u8],
    version: &'static [u8],
    id: &'static [u8],
    payload: &'static [u8],
}

/// `kmip_operation_request` without its clauses, so that the proof of a test looks into no
/// definition; so is the function below.
fn request(
    alloc: Global,
    words: Words,
    has_credential: bool,
    user: &[u8],
    password: &[u8],
    into: &mut [u8],
) -> i64 {
    kmip_operation_request(
        alloc,
        words.name,
        words.version,
        words.id,
        words.payload,
        has_credential,
        user,
        password,
        into,
    )
}

fn answer_to(
    alloc: Global,
    words: Words,
    response: &[u8],
    plain: bool,
    into: &mut [u8],
    length: &mut i64,
) -> i32 {
    kmip_operation_answer(
        alloc,
        words.name,
        words.version,
        words.id,
        words.payload,
        response,
        plain,
        into,
        length,
    )
}

/// Decrypt with a key that is named.
const DECRYPT: Words = Words {
    name: b"Decrypt",
    version: b"1.2",
    id: b"",
    payload: b"{\"tag\":\"RequestPayload\",\"value\":[{\"tag\":\"UniqueIdentifier\",\"type\":\"TextString\",\"value\":\"k1\"},{\"tag\":\"Data\",\"type\":\"ByteString\",\"value\":\"00FF\"}]}",
};

#[test]
fn a_request_is_written(rt: HostRuntime) -> Result<(), Fail> {
    let alloc: Global = rt.alloc();
    let expected = message(alloc, "REQ2(20, 94 \"k1\",C2 x00FF)")?;
    let mut into = [7u8; 300];
    let length = request(alloc, DECRYPT, false, &[255], &[255], &mut into);
    assert!(rt; length == expected.len() as i64);
    assert!(rt; into.starts_with(&expected));
    Ok(())
}

#[test]
fn a_credential_is_sent_where_one_is_given(rt: HostRuntime) -> Result<(), Fail> {
    let alloc: Global = rt.alloc();
    let expected = message(
        alloc,
        "78{77{69{6A i1,6B i2},0C{23{24 e1,25{99 \"u\",A1 \"p\"}}},0D i1},0F{5C e20,79{94 \"k1\",C2 x00FF}}}",
    )?;
    let mut into = [7u8; 300];
    let length = request(alloc, DECRYPT, true, b"u", b"p", &mut into);
    assert!(rt; length == expected.len() as i64);
    assert!(rt; into.starts_with(&expected));
    assert!(rt; request(alloc, DECRYPT, true, &[255], b"p", &mut into) == -2);
    assert!(rt; request(alloc, DECRYPT, true, b"u", &[255], &mut into) == -2);
    Ok(())
}

/// A Big Integer of one byte, which has no wire form.
const NO_FORM: Words = Words {
    name: b"Encrypt",
    version: b"1.2",
    id: b"",
    payload: b"{\"tag\":\"RequestPayload\",\"value\":[{\"tag\":\"Modulus\",\"type\":\"BigInteger\",\"value\":\"0x01\"}]}",
};

/// Words that ask for no call.
const NO_CALLS: &[Words] = &[
    Words {
        name: b"decrypt",
        version: b"1.2",
        id: b"",
        payload: b"{\"tag\":\"RequestPayload\",\"value\":[]}",
    },
    Words {
        name: b"Decrypt",
        version: b"1.4",
        id: b"",
        payload: b"{\"tag\":\"RequestPayload\",\"value\":[]}",
    },
    Words {
        name: b"Decrypt",
        version: b"1.2",
        id: b"",
        payload: b"{\"tag\":\"ResponsePayload\",\"value\":[]}",
    },
    Words {
        name: b"Decrypt\xFF",
        version: b"1.2",
        id: b"",
        payload: b"{\"tag\":\"RequestPayload\",\"value\":[]}",
    },
    Words {
        name: b"Decrypt",
        version: b"1.2\xFF",
        id: b"",
        payload: b"{\"tag\":\"RequestPayload\",\"value\":[]}",
    },
    Words {
        name: b"Decrypt",
        version: b"1.2",
        id: b"",
        payload: b"{\"tag\":\"RequestPayload\",\"value\":[{\"tag\":\"UniqueIdentifier\",\"type\":\"TextString\",\"value\":\"\xFF\"}]}",
    },
];

#[test]
fn what_is_no_call_has_a_code(rt: HostRuntime) {
    let alloc: Global = rt.alloc();
    let mut into = [7u8; 8];
    let mut length = 7;
    for words in NO_CALLS {
        assert!(rt; request(alloc, *words, false, b"", b"", &mut into) == -2);
        assert!(rt; answer_to(alloc, *words, &[], false, &mut into, &mut length) == 2);
        assert!(rt; length == 0);
    }
    assert!(rt; request(alloc, NO_FORM, false, b"", b"", &mut into) == -6);
    assert!(rt; into == [7u8; 8]);
}

/// Adds a part so many times.
fn push_times(text: &mut Text, part: &str, times: u32) -> Result<(), Fail> {
    for _ in 0..times {
        text.push_str(part)?;
    }
    Ok(())
}

/// The JSON of a payload of so many levels.
fn nested(alloc: Global, levels: u32) -> Result<Text, Fail> {
    let mut json = Text::new(alloc);
    push_times(&mut json, "{\"tag\":\"RequestPayload\",\"value\":[", levels)?;
    push_times(&mut json, "]}", levels)?;
    Ok(json)
}

/// What is returned for the request of an Encrypt with a payload of so many levels: its length, also
/// where it does not fit.
fn request_nested(alloc: Global, levels: u32, into: &mut [u8]) -> Result<i64, Fail> {
    let json = nested(alloc, levels)?;
    let payload = json.as_str().as_bytes();
    Ok(kmip_operation_request(
        alloc, b"Encrypt", b"1.2", b"", payload, false, b"", b"", into,
    ))
}

#[test]
fn a_request_has_at_most_64_levels(rt: HostRuntime) -> Result<(), Fail> {
    let alloc: Global = rt.alloc();
    // the payload is the third level of its message
    let expected = message(alloc, "REQ2(1F, 79^61{})")?;
    let mut into = [7u8; 8];
    let length = request_nested(alloc, 62, &mut into)?;
    let deep = request_nested(alloc, 63, &mut into)?;
    let deeper = request_nested(alloc, 64, &mut into)?;
    assert!(rt; length == expected.len() as i64);
    assert!(rt; deep == -6);
    assert!(rt; deeper == -6);
    Ok(())
}

/// A response to Decrypt, and the status and the line that it comes to.
#[derive(Clone, Copy)]
struct AnswerRow {
    response: &'static str,
    status: i32,
    line: &'static str,
}

const ANSWERS: &[AnswerRow] = &[
    AnswerRow {
        response: "OK2(20, 94 \"k1\",C2 xDEADBEEF),!FF",
        status: 0,
        line: "{\"answer\":{\"tag\":\"ResponsePayload\",\"value\":[{\"tag\":\"UniqueIdentifier\",\"type\":\"TextString\",\"value\":\"k1\"},{\"tag\":\"Data\",\"type\":\"ByteString\",\"value\":\"DEADBEEF\"}]}}\n",
    },
    AnswerRow {
        response: "RES2(5C e20,7F e1,7E e12,7D \"no such mechanism\")",
        status: 1,
        line: "{\"error\":\"ServerError\",\"text\":\"Operation Decrypt failed for reason 18: no such mechanism\",\"reason\":{\"number\":18},\"message\":\"no such mechanism\"}\n",
    },
    AnswerRow {
        response: "OK2(1F, C2 xDEADBEEF)",
        status: 3,
        line: "{\"error\":\"InternalError\",\"text\":\"Response does not match request operation Decrypt\",\"response\":\"7B[7A[69[6Ai6Bi]92d0Di]0F[5Ce1F:7Fe0:7C[C2x]]]\"}\n",
    },
    // another object, none, and no payload
    AnswerRow {
        response: "OK2(20, 94 \"k2\",C2 xDEADBEEF)",
        status: 3,
        line: "{\"error\":\"InternalError\",\"text\":\"answer for another object\",\"response\":\"7B[7A[69[6Ai6Bi]92d0Di]0F[5Ce20:7Fe0:7C[94tC2x]]]\"}\n",
    },
    AnswerRow {
        response: "OK2(20, C2 xDEADBEEF)",
        status: 3,
        line: "{\"error\":\"InternalError\",\"text\":\"answer for another object\",\"response\":\"7B[7A[69[6Ai6Bi]92d0Di]0F[5Ce20:7Fe0:7C[C2x]]]\"}\n",
    },
    AnswerRow {
        response: "RES2(5C e20,7F e0)",
        status: 3,
        line: "{\"error\":\"InternalError\",\"text\":\"answer with an empty payload\",\"response\":\"7B[7A[69[6Ai6Bi]92d0Di]0F[5Ce20:7Fe0:]]\"}\n",
    },
    AnswerRow {
        response: "!42007B010000009042007A01",
        status: 3,
        line: "{\"error\":\"ResponseReadError\",\"text\":\"end of input\"}\n",
    },
];

/// The responses of these rows are answered as they say.
fn are_answered(
    rt: &impl Abort,
    alloc: Global,
    words: Words,
    rows: &[AnswerRow],
) -> Result<(), Fail> {
    for row in rows {
        let response = message(alloc, row.response)?;
        let mut line = [7u8; 300];
        let mut length = 0;
        let status = answer_to(alloc, words, &response, false, &mut line, &mut length);
        assert!(rt; status == row.status, "{}", row.response);
        assert!(rt; length == row.line.len() as i64, "{}", row.response);
        assert!(rt; line.starts_with(row.line.as_bytes()), "{}", row.response);
    }
    Ok(())
}

#[test]
fn responses_are_answered(rt: HostRuntime) -> Result<(), Fail> {
    are_answered(&rt, rt.alloc(), DECRYPT, ANSWERS)
}

#[test]
fn a_payload_is_written_plain_where_that_is_asked(rt: HostRuntime) -> Result<(), Fail> {
    let alloc: Global = rt.alloc();
    let response = message(alloc, "OK2(20, 94 \"k1\",C2 xDEADBEEF)")?;
    let expected = b"{\"answer\":{\"unique_identifier\":\"k1\",\"data\":\"DEADBEEF\"}}\n";
    let mut line = [7u8; 300];
    let mut length = 0;
    assert!(rt; answer_to(alloc, DECRYPT, &response, true, &mut line, &mut length) == 0);
    assert!(rt; length == expected.len() as i64);
    assert!(rt; line.starts_with(expected));
    Ok(())
}

/// The same with a Unique Batch Item ID (KMIP 1.0, 6.4).
const IDENTIFIED: Words = Words {
    id: b"\x01\x02\xA0",
    ..DECRYPT
};

#[test]
fn an_id_stands_in_the_request(rt: HostRuntime) -> Result<(), Fail> {
    let alloc: Global = rt.alloc();
    let expected = message(
        alloc,
        "78{77{69{6A i1,6B i2},0D i1},0F{5C e20,93 x0102A0,79{94 \"k1\",C2 x00FF}}}",
    )?;
    let mut into = [7u8; 300];
    let length = request(alloc, IDENTIFIED, false, b"", b"", &mut into);
    assert!(rt; length == expected.len() as i64);
    assert!(rt; into.starts_with(&expected));
    Ok(())
}

const IDENTIFIED_ANSWERS: &[AnswerRow] = &[
    AnswerRow {
        response: "RES2(5C e20,93 x0102A0,7F e0,7C{94 \"k1\",C2 xDEADBEEF})",
        status: 0,
        line: "{\"answer\":{\"tag\":\"ResponsePayload\",\"value\":[{\"tag\":\"UniqueIdentifier\",\"type\":\"TextString\",\"value\":\"k1\"},{\"tag\":\"Data\",\"type\":\"ByteString\",\"value\":\"DEADBEEF\"}]}}\n",
    },
    AnswerRow {
        response: "RES2(5C e20,93 x0102A1,7F e0,7C{C2 xDEADBEEF})",
        status: 3,
        line: "{\"error\":\"InternalError\",\"text\":\"Response does not have the request's Unique Batch Item ID\",\"response\":\"7B[7A[69[6Ai6Bi]92d0Di]0F[5Ce20:93x7Fe0:7C[C2x]]]\"}\n",
    },
    AnswerRow {
        response: "OK2(20, C2 xDEADBEEF)",
        status: 3,
        line: "{\"error\":\"InternalError\",\"text\":\"Response does not have the request's Unique Batch Item ID\",\"response\":\"7B[7A[69[6Ai6Bi]92d0Di]0F[5Ce20:7Fe0:7C[C2x]]]\"}\n",
    },
    AnswerRow {
        response: "RES2(7F e1,7E e12,7D \"no such mechanism\")",
        status: 1,
        line: "{\"error\":\"ServerError\",\"text\":\"Operation Decrypt failed for reason 18: no such mechanism\",\"reason\":{\"number\":18},\"message\":\"no such mechanism\"}\n",
    },
];

#[test]
fn an_answer_has_the_id_of_its_request(rt: HostRuntime) -> Result<(), Fail> {
    are_answered(&rt, rt.alloc(), IDENTIFIED, IDENTIFIED_ANSWERS)
}

/// Names, versions and payloads, with the refusal of each.
const REFUSED: &[(Words, &[u8])] = &[
    (
        Words {
            name: b"Decrypted",
            version: b"1.2",
            id: b"",
            payload: b"{}",
        },
        b"KMIP 1.2 has no operation of this name",
    ),
    (
        Words {
            name: b"Decrypt",
            version: b"1.2",
            id: b"",
            payload: b"{\"tag\":\"RequestPayload\",\n\"value\":[{\"tag\":\"Date\",\"value\":[]}]}",
        },
        b"the payload: line 2, column 17, value[0].tag: expected the name of a tag, or 0x and six hex digits, found another string",
    ),
    (
        Words {
            name: b"Decrypt",
            version: b"1.2",
            id: b"",
            payload: b"{\"tag\":\"RequestPayload\",\"value\":[{\"tag\":\"UniqueIdentifier\",\"type\":\"TextString\",\"value\":\"\"}]}",
        },
        b"the payload: an identifier or an AsynchronousCorrelationValue in it is empty",
    ),
];

/// `kmip_operation_refusal` without its clauses.
fn refusal_of(alloc: Global, words: Words, into: &mut [u8]) -> i64 {
    kmip_operation_refusal(alloc, words.name, words.version, words.payload, into)
}

#[test]
fn a_refusal_says_why(rt: HostRuntime) -> Result<(), Fail> {
    for (words, text) in REFUSED {
        let mut into = [7u8; 300];
        let length = refusal_of(rt.alloc(), *words, &mut into);
        assert!(rt; length == text.len() as i64);
        assert!(rt; into.starts_with(text));
    }
    let mut into = [7u8; 8];
    assert!(rt; refusal_of(rt.alloc(), DECRYPT, &mut into) == -3);
    assert!(rt; into == [7u8; 8]);
    Ok(())
}
