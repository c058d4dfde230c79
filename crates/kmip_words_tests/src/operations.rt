//! The calls as a caller makes them. Messages stand in the notation of kmip_test_messages, and JSON
//! is written by hand.
use crate::support::{bytes_of, plain, text};
use kmip_operations::{
    OperationCall, PayloadForm, TreeAnswer, message_answer, message_of, message_request,
    operation_answer, operation_call, operation_request,
};
use kmip_wire::{Text, Tree};
use kmip_words::{Ending, Settings};
use std::alloc::Global;
use std::process::Abort;

/// The call of these words, where they ask for one.
fn call_if_any(
    rt: &impl Abort,
    alloc: Global,
    name: &str,
    version: &str,
    payload: &str,
) -> Option<OperationCall> {
    operation_call(alloc, name, version, None, payload).expect(rt, "memory")
}

/// The call of these words.
fn call_of(
    rt: &impl Abort,
    alloc: Global,
    name: &str,
    version: &str,
    payload: &str,
) -> OperationCall {
    call_if_any(rt, alloc, name, version, payload).expect(rt, "a call")
}

/// An Encrypt of this payload.
fn encrypt(rt: &impl Abort, alloc: Global, payload: &str) -> OperationCall {
    call_of(rt, alloc, "Encrypt", "1.2", payload)
}

/// The call's request is this one.
fn is_requested(
    rt: &impl Abort,
    alloc: Global,
    settings: &Settings,
    call: &OperationCall,
    notation: &str,
) {
    let request = operation_request(alloc, settings, call).expect(rt, "memory");
    let request = request.expect(rt, "a request");
    assert!(rt;
        request.as_slice() == bytes_of(rt, alloc, notation).as_slice(),
        "{notation}"
    );
}

/// An answer ended so, with this line.
fn is_line(rt: &impl Abort, answer: &TreeAnswer, row: &AnswerRow) {
    assert!(rt;
        answer.line.as_slice() == row.line.as_bytes(),
        "{}",
        row.response
    );
    assert_eq!(rt; answer.ending, row.ending, "{}", row.response);
}

/// The response of a row is answered as it says.
fn is_answered(
    rt: &impl Abort,
    alloc: Global,
    limit: Option<u32>,
    call: &OperationCall,
    row: &AnswerRow,
) {
    let response = bytes_of(rt, alloc, row.response);
    let settings = Settings::new(None, None, limit);
    let answer = operation_answer(alloc, &settings, call, &response, PayloadForm::Tree).expect(
        rt, "memory",
    );
    is_line(rt, &answer, row);
    drop(answer);
}

/// A call, and its request.
#[derive(Clone, Copy)]
struct RequestRow {
    name: &'static str,
    version: &'static str,
    payload: &'static str,
    request: &'static str,
}

/// Requests, by the tables of KMIP 1.2, 4.29, 4.30, 4.33 and 4.32, and of KMIP 1.0, 4.4 and 4.26.
const REQUESTS: &[RequestRow] = &[
    RequestRow {
        name: "Encrypt",
        version: "1.2",
        payload: r#"{"tag":"RequestPayload","value":[{"tag":"UniqueIdentifier","type":"TextString","value":"k1"},{"tag":"CryptographicParameters","value":[{"tag":"BlockCipherMode","type":"Enumeration","value":"CBC"},{"tag":"PaddingMethod","type":"Enumeration","value":"PKCS5"}]},{"tag":"Data","type":"ByteString","value":"00FF"},{"tag":"IVCounterNonce","type":"ByteString","value":"000102030405060708090A0B0C0D0E0F"}]}"#,
        request: r#"REQ2(1F, 94 "k1",2B{11 e1,5F e3},C2 x00FF,3D x000102030405060708090A0B0C0D0E0F)"#,
    },
    RequestRow {
        name: "Decrypt",
        version: "1.2",
        payload: r#"{ "value": [ {"type": "TextString", "tag": "UniqueIdentifier", "value": "k\u0031"}, {"tag": "Data", "type": "ByteString", "value": "deadbeef"} ], "tag": "RequestPayload" }"#,
        request: r#"REQ2(20, 94 "k1",C2 xDEADBEEF)"#,
    },
    RequestRow {
        name: "MAC",
        version: "1.2",
        payload: r#"{"tag":"RequestPayload","type":"Structure","value":[{"tag":"UniqueIdentifier","type":"TextString","value":"k1"},{"tag":"CryptographicParameters","value":[{"tag":"CryptographicAlgorithm","type":"Enumeration","value":"0x00000009"}]},{"tag":"Data","type":"ByteString","value":"616263"}]}"#,
        request: r#"REQ2(23, 94 "k1",2B{28 e9},C2 x616263)"#,
    },
    RequestRow {
        name: "SignatureVerify",
        version: "1.2",
        payload: r#"{"tag":"RequestPayload","value":[{"tag":"UniqueIdentifier","type":"TextString","value":"k1"},{"tag":"CryptographicParameters","value":[{"tag":"PaddingMethod","type":"Enumeration","value":"PSS"},{"tag":"HashingAlgorithm","type":"Enumeration","value":"SHA256"},{"tag":"CryptographicAlgorithm","type":"Enumeration","value":"RSA"}]},{"tag":"Data","type":"ByteString","value":""},{"tag":"SignatureData","type":"ByteString","value":"0102"}]}"#,
        request: r#"REQ2(22, 94 "k1",2B{5F eA,38 e6,28 e4},C2 x,C3 x0102)"#,
    },
    RequestRow {
        name: "Rekey",
        version: "1.0",
        payload: r#"{"tag":"RequestPayload","value":[{"tag":"UniqueIdentifier","type":"TextString","value":"k9"},{"tag":"Offset","type":"Interval","value":60}]}"#,
        request: r#"REQ0(4, 94 "k9",58 n60)"#,
    },
    RequestRow {
        name: "ReKey",
        version: "1.0",
        payload: r#"{"tag":"RequestPayload","value":[{"tag":"UniqueIdentifier","type":"TextString","value":"k9"},{"tag":"Offset","type":"Interval","value":60}]}"#,
        request: r#"REQ0(4, 94 "k9",58 n60)"#,
    },
    RequestRow {
        name: "Poll",
        version: "1.1",
        payload: r#"{"tag":"RequestPayload","value":[]}"#,
        request: "REQ1(1A, )",
    },
    RequestRow {
        name: "JoinSplitKey",
        version: "1.2",
        payload: r#"{"tag":"0x420079","value":[{"tag":"0x540001","type":"Enumeration","value":"0x80000001"}]}"#,
        request: "REQ2(29, 540001 e80000001)",
    },
];

#[test]
fn a_request_has_the_callers_payload(rt: HostRuntime) {
    for row in REQUESTS {
        let call = call_of(&rt, rt.alloc(), row.name, row.version, row.payload);
        is_requested(&rt, rt.alloc(), &plain(), &call, row.request);
        drop(call);
    }
}

/// The payload of a request of Encrypt.
const PAYLOAD: &str =
    r#"{"tag":"RequestPayload","value":[{"tag":"Data","type":"ByteString","value":"00FF"}]}"#;

#[test]
fn a_credential_is_sent_where_both_texts_are_given(rt: HostRuntime) {
    let alloc = rt.alloc();
    let call = encrypt(&rt, alloc, PAYLOAD);
    let (user, password) = (text(&rt, alloc, "alice"), text(&rt, alloc, "secret"));
    let settings = Settings::new(Some(user), Some(password), None);
    let expected =
        r#"78{77{69{6A i1,6B i2},0C{23{24 e1,25{99 "alice",A1 "secret"}}},0D i1},0F{5C e1F,79{C2 x00FF}}}"#;
    is_requested(&rt, alloc, &settings, &call, expected);
    let settings = Settings::new(Some(text(&rt, alloc, "alice")), None, None);
    is_requested(&rt, alloc, &settings, &call, "REQ2(1F, C2 x00FF)");
    drop(call);
}

/// What is no call.
#[derive(Clone, Copy)]
struct Refused {
    name: &'static str,
    version: &'static str,
    payload: &'static str,
}

/// Another name, another version, and another payload: what is no JSON, no item, no structure, or
/// has another tag.
const REFUSED: &[Refused] = &[
    Refused {
        name: "Get",
        version: "1.0",
        payload: r#"{"tag":"RequestPayload","value":[{"tag":"UniqueIdentifier","type":"TextString","value":""}]}"#,
    },
    Refused {
        name: "encrypt",
        version: "1.2",
        payload: PAYLOAD,
    },
    Refused {
        name: "0x0000001F",
        version: "1.2",
        payload: PAYLOAD,
    },
    Refused {
        name: "",
        version: "1.2",
        payload: PAYLOAD,
    },
    Refused {
        name: "Encrypt",
        version: "1.3",
        payload: PAYLOAD,
    },
    Refused {
        name: "Encrypt",
        version: "1",
        payload: PAYLOAD,
    },
    Refused {
        name: "Encrypt",
        version: "1.2",
        payload: "",
    },
    Refused {
        name: "Encrypt",
        version: "1.2",
        payload: "{'tag':'RequestPayload','value':[]}",
    },
    Refused {
        name: "Encrypt",
        version: "1.2",
        payload: "[]",
    },
    Refused {
        name: "Encrypt",
        version: "1.2",
        payload: r#"{"tag":"RequestPayload","value":7}"#,
    },
    Refused {
        name: "Encrypt",
        version: "1.2",
        payload: r#"{"tag":"RequestPayload","value":[],"value":[]}"#,
    },
    Refused {
        name: "Encrypt",
        version: "1.2",
        payload: r#"{"tag":"RequestPayload","value":[{"tag":"Data","type":"ByteString"}]}"#,
    },
    Refused {
        name: "Encrypt",
        version: "1.2",
        payload: r#"{"tag":"RequestPayload","type":"Integer","value":1}"#,
    },
    Refused {
        name: "Encrypt",
        version: "1.2",
        payload: r#"{"tag":"ResponsePayload","value":[]}"#,
    },
];

#[test]
fn other_words_are_refused(rt: HostRuntime) {
    for row in REFUSED {
        let call = call_if_any(&rt, rt.alloc(), row.name, row.version, row.payload);
        assert!(rt;
            call.is_none(),
            "{} {} {}",
            row.name,
            row.version,
            row.payload
        );
    }
}

/// A payload that has no wire form: the bytes of a Big Integer are a multiple of eight (KMIP 1.0,
/// 9.1.1.4).
const NO_FORM: &str =
    r#"{"tag":"RequestPayload","value":[{"tag":"Modulus","type":"BigInteger","value":"0x01"}]}"#;

#[test]
fn what_has_no_wire_form_has_no_request(rt: HostRuntime) {
    let alloc = rt.alloc();
    let call = encrypt(&rt, alloc, NO_FORM);
    let request = operation_request(alloc, &plain(), &call).expect(&rt, "memory");
    assert!(rt; request.is_none());
    drop(call);
}

/// Adds a part so many times.
fn push_times(rt: &impl Abort, text: &mut Text, part: &str, times: u32) {
    for _ in 0..times {
        text.push_str(part).expect(rt, "memory");
    }
}

/// The JSON of a payload of so many levels.
fn nested(rt: &impl Abort, alloc: Global, levels: u32) -> Text {
    let mut json = Text::new(alloc);
    push_times(
        rt,
        &mut json,
        r#"{"tag":"RequestPayload","value":["#,
        levels,
    );
    push_times(rt, &mut json, "]}", levels);
    json
}

/// An Encrypt of a payload of so many levels.
fn encrypt_nested(rt: &impl Abort, alloc: Global, levels: u32) -> OperationCall {
    let payload = nested(rt, alloc, levels);
    encrypt(rt, alloc, payload.as_str())
}

/// An Encrypt of a payload of so many levels is a call, and has no request.
fn is_too_deep(rt: &impl Abort, alloc: Global, levels: u32) {
    let call = encrypt_nested(rt, alloc, levels);
    let request = operation_request(alloc, &plain(), &call).expect(rt, "memory");
    assert!(rt; request.is_none(), "{levels}");
    drop(call);
}

#[test]
fn a_request_has_at_most_64_levels(rt: HostRuntime) {
    let alloc = rt.alloc();
    // the payload is the third level of its message
    let call = encrypt_nested(&rt, alloc, 62);
    is_requested(&rt, alloc, &plain(), &call, "REQ2(1F, 79^61{})");
    drop(call);
    is_too_deep(&rt, alloc, 63);
    is_too_deep(&rt, alloc, 64);
}

/// A response to Encrypt, how the call ended, and its line.
#[derive(Clone, Copy)]
struct AnswerRow {
    response: &'static str,
    ending: Ending,
    line: &'static str,
}

const ANSWERS: &[AnswerRow] = &[
    AnswerRow {
        response: r#"OK2(1F, 94 "k\"1",C2 xDEADBEEF)"#,
        ending: Ending::Answered,
        line: "{\"answer\":{\"tag\":\"ResponsePayload\",\"value\":[{\"tag\":\"UniqueIdentifier\",\"type\":\"TextString\",\"value\":\"k\\\"1\"},{\"tag\":\"Data\",\"type\":\"ByteString\",\"value\":\"DEADBEEF\"}]}}\n",
    },
    AnswerRow {
        response: "RES2(5C e1F,7F e0)",
        ending: Ending::Lost,
        line: "{\"error\":\"InternalError\",\"text\":\"answer with an empty payload\",\"response\":\"7B[7A[69[6Ai6Bi]92d0Di]0F[5Ce1F:7Fe0:]]\"}\n",
    },
    // an unknown item, an enumeration past its table, and bytes after the message
    AnswerRow {
        response: "OK2(1F, 540001 e80000001,28 e9),!FF",
        ending: Ending::Answered,
        line: "{\"answer\":{\"tag\":\"ResponsePayload\",\"value\":[{\"tag\":\"0x540001\",\"type\":\"Enumeration\",\"value\":\"0x80000001\"},{\"tag\":\"CryptographicAlgorithm\",\"type\":\"Enumeration\",\"value\":\"HMAC_SHA256\"}]}}\n",
    },
    AnswerRow {
        response: r#"RES2(5C e1F,7F e1,7E eA,7D "bad \"iv\"")"#,
        ending: Ending::Refused,
        line: "{\"error\":\"ServerError\",\"text\":\"Operation Encrypt failed: bad \\\"iv\\\"\",\"reason\":{\"name\":\"CryptographicFailure\",\"number\":10},\"message\":\"bad \\\"iv\\\"\"}\n",
    },
    AnswerRow {
        response: r#"RES2(5C e1F,7F e1,7E e1,7D "gone")"#,
        ending: Ending::Refused,
        line: "{\"error\":\"ItemNotFound\",\"text\":\"Operation Encrypt failed: gone\",\"reason\":{\"name\":\"ItemNotFound\",\"number\":1},\"message\":\"gone\"}\n",
    },
    AnswerRow {
        response: r#"RES2(7F e1,7E e12,7D "no such mechanism")"#,
        ending: Ending::Refused,
        line: "{\"error\":\"ServerError\",\"text\":\"Operation Encrypt failed for reason 18: no such mechanism\",\"reason\":{\"number\":18},\"message\":\"no such mechanism\"}\n",
    },
    AnswerRow {
        response: "OK2(20, C2 x00)",
        ending: Ending::Lost,
        line: "{\"error\":\"InternalError\",\"text\":\"Response does not match request operation Encrypt\",\"response\":\"7B[7A[69[6Ai6Bi]92d0Di]0F[5Ce20:7Fe0:7C[C2x]]]\"}\n",
    },
    // a failure of Decrypt
    AnswerRow {
        response: r#"RES2(5C e20,7F e1,7E e1,7D "gone")"#,
        ending: Ending::Lost,
        line: "{\"error\":\"InternalError\",\"text\":\"Response operation Decrypt does not match request operation Encrypt\",\"response\":\"7B[7A[69[6Ai6Bi]92d0Di]0F[5Ce20:7Fe1:7Ee1:7Dt]]\",\"reason\":{\"name\":\"ItemNotFound\",\"number\":1},\"message\":\"gone\"}\n",
    },
    AnswerRow {
        response: "RES2(5C e1F,7F e2)",
        ending: Ending::Refused,
        line: "{\"error\":\"InternalError\",\"text\":\"Result status 2 is not supported\",\"response\":\"7B[7A[69[6Ai6Bi]92d0Di]0F[5Ce1F:7Fe2:]]\"}\n",
    },
    AnswerRow {
        response: "7B{7A{69{6A i1,6B i2},92 d1,0D i2},0F{5C e1F,7F e0},0F{5C e1F,7F e0}}",
        ending: Ending::Lost,
        line: "{\"error\":\"InternalError\",\"text\":\"Expected one batch item in response but received 2\",\"response\":\"7B[7A[69[6Ai6Bi]92d0Di]0F[5Ce1F:7Fe0:]0F[5Ce1F:7Fe0:]]\"}\n",
    },
    // two batch items, the first of which reports failure
    AnswerRow {
        response: "7B{7A{69{6A i1,6B i2},92 d1,0D i2},0F{5C e1F,7F e1,7E e12,7D \"no \\\"key\\\"\"},0F{5C e1F,7F e0}}",
        ending: Ending::Lost,
        line: "{\"error\":\"InternalError\",\"text\":\"Expected one batch item in response but received 2\",\"response\":\"7B[7A[69[6Ai6Bi]92d0Di]0F[5Ce1F:7Fe1:7Ee12:7Dt]0F[5Ce1F:7Fe0:]]\",\"reason\":{\"number\":18},\"message\":\"no \\\"key\\\"\"}\n",
    },
    AnswerRow {
        response: "REQ2(1F, C2 x00)",
        ending: Ending::Lost,
        line: "{\"error\":\"InternalError\",\"text\":\"not a response message\",\"response\":\"78[77[69[6Ai6Bi]0Di]0F[5Ce1F:79[C2x]]]\"}\n",
    },
    AnswerRow {
        response: "!42007B0100000008FFFFFFFFFFFFFFFF",
        ending: Ending::Lost,
        line: "{\"error\":\"DeserializeError\",\"text\":\"malformed TTLV\"}\n",
    },
    AnswerRow {
        response: "!42007B0100000090",
        ending: Ending::Lost,
        line: "{\"error\":\"ResponseReadError\",\"text\":\"end of input\"}\n",
    },
    AnswerRow {
        response: "7B i1",
        ending: Ending::Lost,
        line: "{\"error\":\"DeserializeError\",\"text\":\"not a structure\"}\n",
    },
];

#[test]
fn responses_are_answered(rt: HostRuntime) {
    let call = encrypt(&rt, rt.alloc(), PAYLOAD);
    for row in ANSWERS {
        is_answered(&rt, rt.alloc(), None, &call, row);
    }
    drop(call);
}

/// A response of 8 bytes, which is no answer, and what it comes to where 7 are the most.
const SHORT: AnswerRow = AnswerRow {
    response: "7B{}",
    ending: Ending::Lost,
    line: "{\"error\":\"InternalError\",\"text\":\"Expected one batch item in response but received 0\",\"response\":\"7B[]\"}\n",
};

const LONG: AnswerRow = AnswerRow {
    response: "7B{}",
    ending: Ending::Lost,
    line: "{\"error\":\"DeserializeError\",\"text\":\"response size 8 exceeds limit 7\"}\n",
};

#[test]
fn a_long_response_is_refused(rt: HostRuntime) {
    let call = encrypt(&rt, rt.alloc(), PAYLOAD);
    is_answered(&rt, rt.alloc(), Some(7), &call, &LONG);
    is_answered(&rt, rt.alloc(), Some(8), &call, &SHORT);
    drop(call);
}

/// A Unique Batch Item ID, and an Encrypt with it.
const ID: &[u8] = &[1, 2, 0xA0];

fn encrypt_with(rt: &impl Abort, alloc: Global, id: &[u8]) -> OperationCall {
    let call = operation_call(alloc, "Encrypt", "1.2", Some(id), PAYLOAD).expect(rt, "memory");
    call.expect(rt, "a call")
}

#[test]
fn an_id_stands_between_the_operation_and_the_payload(rt: HostRuntime) {
    let call = encrypt_with(&rt, rt.alloc(), ID);
    let expected = "78{77{69{6A i1,6B i2},0D i1},0F{5C e1F,93 x0102A0,79{C2 x00FF}}}";
    is_requested(&rt, rt.alloc(), &plain(), &call, expected);
    is_requested(&rt, rt.alloc(), &plain(), &call, IDENTIFIED_HEX);
    drop(call);
}

/// The same message in hex: header, batch item, operation, ID and payload.
const IDENTIFIED_HEX: &str = concat!(
    "!4200780100000080",
    "42007701000000384200690100000020",
    "42006A0200000004000000010000000042006B02000000040000000200000000",
    "42000D02000000040000000100000000",
    "42000F0100000038",
    "42005C05000000040000001F00000000",
    "42009308000000030102A00000000000",
    "42007901000000104200C2080000000200FF000000000000",
);

/// Responses to that call (KMIP 1.0, 6.4): those with its ID are its own, as is a failure that names
/// no operation and has no ID.
const IDENTIFIED: &[AnswerRow] = &[
    AnswerRow {
        response: "RES2(5C e1F,93 x0102A0,7F e0,7C{C2 xDEADBEEF})",
        ending: Ending::Answered,
        line: "{\"answer\":{\"tag\":\"ResponsePayload\",\"value\":[{\"tag\":\"Data\",\"type\":\"ByteString\",\"value\":\"DEADBEEF\"}]}}\n",
    },
    AnswerRow {
        response: "RES2(5C e1F,93 x0102A0,7F e1,7E e1,7D \"gone\")",
        ending: Ending::Refused,
        line: "{\"error\":\"ItemNotFound\",\"text\":\"Operation Encrypt failed: gone\",\"reason\":{\"name\":\"ItemNotFound\",\"number\":1},\"message\":\"gone\"}\n",
    },
    AnswerRow {
        response: "RES2(93 x0102A0,7F e1,7E e1,7D \"gone\")",
        ending: Ending::Refused,
        line: "{\"error\":\"ItemNotFound\",\"text\":\"Operation Encrypt failed: gone\",\"reason\":{\"name\":\"ItemNotFound\",\"number\":1},\"message\":\"gone\"}\n",
    },
    AnswerRow {
        response: "RES2(7F e1,7E e1,7D \"gone\")",
        ending: Ending::Refused,
        line: "{\"error\":\"ItemNotFound\",\"text\":\"Operation Encrypt failed: gone\",\"reason\":{\"name\":\"ItemNotFound\",\"number\":1},\"message\":\"gone\"}\n",
    },
    // another ID, one byte more, one byte less, none, two, and one that is a text
    AnswerRow {
        response: "RES2(5C e1F,93 x0102A1,7F e0,7C{C2 xDEADBEEF})",
        ending: Ending::Lost,
        line: "{\"error\":\"InternalError\",\"text\":\"Response does not have the request's Unique Batch Item ID\",\"response\":\"7B[7A[69[6Ai6Bi]92d0Di]0F[5Ce1F:93x7Fe0:7C[C2x]]]\"}\n",
    },
    AnswerRow {
        response: "RES2(5C e1F,93 x0102A000,7F e0,7C{C2 xDEADBEEF})",
        ending: Ending::Lost,
        line: "{\"error\":\"InternalError\",\"text\":\"Response does not have the request's Unique Batch Item ID\",\"response\":\"7B[7A[69[6Ai6Bi]92d0Di]0F[5Ce1F:93x7Fe0:7C[C2x]]]\"}\n",
    },
    AnswerRow {
        response: "RES2(5C e1F,93 x0102,7F e0,7C{C2 xDEADBEEF})",
        ending: Ending::Lost,
        line: "{\"error\":\"InternalError\",\"text\":\"Response does not have the request's Unique Batch Item ID\",\"response\":\"7B[7A[69[6Ai6Bi]92d0Di]0F[5Ce1F:93x7Fe0:7C[C2x]]]\"}\n",
    },
    AnswerRow {
        response: "OK2(1F, C2 xDEADBEEF)",
        ending: Ending::Lost,
        line: "{\"error\":\"InternalError\",\"text\":\"Response does not have the request's Unique Batch Item ID\",\"response\":\"7B[7A[69[6Ai6Bi]92d0Di]0F[5Ce1F:7Fe0:7C[C2x]]]\"}\n",
    },
    AnswerRow {
        response: "RES2(5C e1F,93 x0102A0,93 x0102A0,7F e0)",
        ending: Ending::Lost,
        line: "{\"error\":\"InternalError\",\"text\":\"Response does not have the request's Unique Batch Item ID\",\"response\":\"7B[7A[69[6Ai6Bi]92d0Di]0F[5Ce1F:93x93x7Fe0:]]\"}\n",
    },
    AnswerRow {
        response: "RES2(5C e1F,93 \"0102A0\",7F e0)",
        ending: Ending::Lost,
        line: "{\"error\":\"InternalError\",\"text\":\"Response does not have the request's Unique Batch Item ID\",\"response\":\"7B[7A[69[6Ai6Bi]92d0Di]0F[5Ce1F:93t7Fe0:]]\"}\n",
    },
    // failures: of the operation with no ID, of none with another ID, and of another with this one
    AnswerRow {
        response: "RES2(5C e1F,7F e1,7E e1,7D \"gone\")",
        ending: Ending::Lost,
        line: "{\"error\":\"InternalError\",\"text\":\"Response does not have the request's Unique Batch Item ID\",\"response\":\"7B[7A[69[6Ai6Bi]92d0Di]0F[5Ce1F:7Fe1:7Ee1:7Dt]]\",\"reason\":{\"name\":\"ItemNotFound\",\"number\":1},\"message\":\"gone\"}\n",
    },
    AnswerRow {
        response: "RES2(93 x00,7F e1,7E e1,7D \"gone\")",
        ending: Ending::Lost,
        line: "{\"error\":\"InternalError\",\"text\":\"Response does not have the request's Unique Batch Item ID\",\"response\":\"7B[7A[69[6Ai6Bi]92d0Di]0F[93x7Fe1:7Ee1:7Dt]]\",\"reason\":{\"name\":\"ItemNotFound\",\"number\":1},\"message\":\"gone\"}\n",
    },
    AnswerRow {
        response: "RES2(5C e20,93 x0102A0,7F e1,7E e1,7D \"gone\")",
        ending: Ending::Lost,
        line: "{\"error\":\"InternalError\",\"text\":\"Response operation Decrypt does not match request operation Encrypt\",\"response\":\"7B[7A[69[6Ai6Bi]92d0Di]0F[5Ce20:93x7Fe1:7Ee1:7Dt]]\",\"reason\":{\"name\":\"ItemNotFound\",\"number\":1},\"message\":\"gone\"}\n",
    },
    // a success that names no operation, with no ID
    AnswerRow {
        response: "RES2(7F e0)",
        ending: Ending::Lost,
        line: "{\"error\":\"InternalError\",\"text\":\"Response does not have the request's Unique Batch Item ID\",\"response\":\"7B[7A[69[6Ai6Bi]92d0Di]0F[7Fe0:]]\"}\n",
    },
    AnswerRow {
        response: "7B{}",
        ending: Ending::Lost,
        line: "{\"error\":\"InternalError\",\"text\":\"Expected one batch item in response but received 0\",\"response\":\"7B[]\"}\n",
    },
    AnswerRow {
        response: "!42007B0100000008FFFFFFFFFFFFFFFF",
        ending: Ending::Lost,
        line: "{\"error\":\"DeserializeError\",\"text\":\"malformed TTLV\"}\n",
    },
];

#[test]
fn a_call_with_an_id_takes_no_answer_with_another(rt: HostRuntime) {
    let call = encrypt_with(&rt, rt.alloc(), ID);
    for row in IDENTIFIED {
        is_answered(&rt, rt.alloc(), None, &call, row);
    }
    drop(call);
}

/// An ID in a response to a call that has none.
const UNASKED: AnswerRow = AnswerRow {
    response: "RES2(5C e1F,93 x0102A1,7F e0,7C{C2 x00})",
    ending: Ending::Answered,
    line: "{\"answer\":{\"tag\":\"ResponsePayload\",\"value\":[{\"tag\":\"Data\",\"type\":\"ByteString\",\"value\":\"00\"}]}}\n",
};

#[test]
fn a_call_without_an_id_takes_an_answer_with_any(rt: HostRuntime) {
    let call = encrypt(&rt, rt.alloc(), PAYLOAD);
    is_answered(&rt, rt.alloc(), None, &call, &UNASKED);
    drop(call);
}

/// The tree of a message in JSON, where it is one.
fn tree_if_any(rt: &impl Abort, alloc: Global, json: &str) -> Option<Tree> {
    message_of(alloc, json).expect(rt, "memory")
}

fn tree_of(rt: &impl Abort, alloc: Global, json: &str) -> Tree {
    tree_if_any(rt, alloc, json).expect(rt, "a message")
}

/// The response of a row answers a message as it says.
fn is_whole(rt: &impl Abort, alloc: Global, limit: Option<u32>, row: &AnswerRow) {
    let response = bytes_of(rt, alloc, row.response);
    let settings = Settings::new(None, None, limit);
    let answer = message_answer(alloc, &settings, &response).expect(rt, "memory");
    is_line(rt, &answer, row);
    drop(answer);
}

/// A message of two batch items, a Query and a Poll (KMIP 1.0, 4.24 and 4.26), and its bytes.
const BATCH: &str = r#"{"tag":"RequestMessage","value":[
    {"tag":"RequestHeader","value":[
        {"tag":"ProtocolVersion","value":[
            {"tag":"ProtocolVersionMajor","type":"Integer","value":1},
            {"tag":"ProtocolVersionMinor","type":"Integer","value":2}]},
        {"tag":"BatchCount","type":"Integer","value":2}]},
    {"tag":"BatchItem","value":[
        {"tag":"Operation","type":"Enumeration","value":"Query"},
        {"tag":"UniqueBatchItemID","type":"ByteString","value":"01"},
        {"tag":"RequestPayload","value":[]}]},
    {"tag":"BatchItem","value":[
        {"tag":"Operation","type":"Enumeration","value":"Poll"},
        {"tag":"UniqueBatchItemID","type":"ByteString","value":"02"},
        {"tag":"RequestPayload","value":[]}]}]}"#;

const BATCH_BYTES: &str =
    "78{77{69{6A i1,6B i2},0D i2},0F{5C e18,93 x01,79{}},0F{5C e1A,93 x02,79{}}}";

#[test]
fn a_message_is_sent_as_it_stands(rt: HostRuntime) {
    let tree = tree_of(&rt, rt.alloc(), BATCH);
    let bytes = message_request(rt.alloc(), &tree).expect(&rt, "memory");
    let bytes = bytes.expect(&rt, "a wire form");
    assert!(rt; bytes.as_slice() == bytes_of(&rt, rt.alloc(), BATCH_BYTES).as_slice());
    drop(tree);
}

/// What is no message: no JSON, an item that is no structure, and one with another tag.
const NO_MESSAGES: &[&str] = &[
    "",
    r#"{"tag":"RequestMessage","type":"Integer","value":1}"#,
    r#"{"tag":"RequestPayload","value":[]}"#,
    r#"{"tag":"ResponseMessage","value":[]}"#,
];

#[test]
fn other_texts_are_no_message(rt: HostRuntime) {
    for json in NO_MESSAGES {
        let tree = tree_if_any(&rt, rt.alloc(), json);
        assert!(rt; tree.is_none(), "{json}");
    }
}

/// Responses to that message: each is shown as it came, where it is one well-formed message.
const WHOLE_ANSWERS: &[AnswerRow] = &[
    AnswerRow {
        response: "7B{0F{7F e1,7D \"no\"},0F{7F e0},540001 x00},!FF",
        ending: Ending::Answered,
        line: "{\"answer\":{\"tag\":\"ResponseMessage\",\"value\":[{\"tag\":\"BatchItem\",\"value\":[{\"tag\":\"ResultStatus\",\"type\":\"Enumeration\",\"value\":\"OperationFailed\"},{\"tag\":\"ResultMessage\",\"type\":\"TextString\",\"value\":\"no\"}]},{\"tag\":\"BatchItem\",\"value\":[{\"tag\":\"ResultStatus\",\"type\":\"Enumeration\",\"value\":\"Success\"}]},{\"tag\":\"0x540001\",\"type\":\"ByteString\",\"value\":\"00\"}]}}\n",
    },
    AnswerRow {
        response: "7B{}",
        ending: Ending::Answered,
        line: "{\"answer\":{\"tag\":\"ResponseMessage\",\"value\":[]}}\n",
    },
    AnswerRow {
        response: "!42007B0100000008FFFFFFFFFFFFFFFF",
        ending: Ending::Lost,
        line: "{\"error\":\"DeserializeError\",\"text\":\"malformed TTLV\"}\n",
    },
    AnswerRow {
        response: "!42007B0100000090",
        ending: Ending::Lost,
        line: "{\"error\":\"ResponseReadError\",\"text\":\"end of input\"}\n",
    },
    AnswerRow {
        response: "7B i1",
        ending: Ending::Lost,
        line: "{\"error\":\"DeserializeError\",\"text\":\"not a structure\"}\n",
    },
];

#[test]
fn a_message_is_answered_by_a_whole_response(rt: HostRuntime) {
    for row in WHOLE_ANSWERS {
        is_whole(&rt, rt.alloc(), None, row);
    }
    is_whole(&rt, rt.alloc(), Some(7), &LONG);
}

/// A message that has no wire form.
const NO_FORM_MESSAGE: &str =
    r#"{"tag":"RequestMessage","value":[{"tag":"Modulus","type":"BigInteger","value":"0x01"}]}"#;

#[test]
fn a_message_without_a_wire_form_is_not_sent(rt: HostRuntime) {
    let tree = tree_of(&rt, rt.alloc(), NO_FORM_MESSAGE);
    let bytes = message_request(rt.alloc(), &tree).expect(&rt, "memory");
    assert!(rt; bytes.is_none());
    drop(tree);
}
