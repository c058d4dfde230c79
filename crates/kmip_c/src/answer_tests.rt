//! Answers to calls as a caller gets them. Responses stand in the notation of kmip_test_messages, and
//! lines are written by hand.
use crate::kmip_answer;
use crate::test_words::texts_in;
use kmip_calls::Word;
use kmip_test_messages::message;
use std::alloc::Global;
use std::process::Abort;
use std::test::Fail;

/// `kmip_answer` without its clauses, so that the proof of a test looks into no definition.
fn answer(
    alloc: Global,
    words: &[Word],
    id: &[u8],
    response: &[u8],
    into: &mut [u8],
    length: &mut i64,
) -> i32 {
    kmip_answer(alloc, words, id, response, into, length)
}

/// A call, a response to it, and the status and the line that they come to.
#[derive(Clone, Copy)]
struct AnswerRow {
    shows: &'static str,
    call: &'static str,
    id: &'static [u8],
    response: &'static str,
    status: i32,
    line: &'static str,
}

/// The line of an answer about another object, up to what came.
const ANOTHER: &str = "{\"error\":\"InternalError\",\"text\":\"answer for another object\",";

/// Answers, by the beginnings of their lines.
const ANSWERS: &[AnswerRow] = &[
    AnswerRow {
        shows: "a payload",
        call: "rng 4",
        id: b"",
        response: "OK2(25, C2 xDEADBEEF)",
        status: 0,
        line: "{\"answer\":{\"random_bytes\":\"DEADBEEF\"}}\n",
    },
    AnswerRow {
        shows: "the payload of another operation",
        call: "query",
        id: b"",
        response: "OK2(25, C2 xDEADBEEF)",
        status: 3,
        line: "{\"error\":\"InternalError\",\"text\":\"Response operation Some(RNGRetrieve) does not match request operation Query\",\"response\":\"7B[7A[69[6Ai6Bi]92d0Di]0F[5Ce25:7Fe0:7C[C2x]]]\"}\n",
    },
    AnswerRow {
        shows: "an empty structure, and a byte that no message has",
        call: "rng 4",
        id: b"",
        response: "!42007B0100000000AA",
        status: 3,
        line: "{\"error\":\"InternalError\",\"text\":\"not a response message\",\"response\":\"7B[]\"}\n",
    },
    AnswerRow {
        shows: "a reason past the table, with the server's message",
        call: "sign k1 00",
        id: b"",
        response: "RES2(5C e21,7F e1,7E e12,7D \"no such mechanism\")",
        status: 1,
        line: "{\"error\":\"InternalError\",\"text\":\"not a response message\",\"response\":\"7B[7A[69[6Ai6Bi]92d0Di]0F[5Ce21:7Fe1:7Ee12:7Dt]]\",\"reason\":{\"number\":18},\"message\":\"no such mechanism\"}\n",
    },
    AnswerRow {
        shows: "a reason past the table, with no text",
        call: "query",
        id: b"",
        response: "RES2(5C e18,7F e1,7E e8000001F)",
        status: 1,
        line: "{\"error\":\"InternalError\",\"text\":\"not a response message\",\"response\":\"7B[7A[69[6Ai6Bi]92d0Di]0F[5Ce18:7Fe1:7Ee8000001F:]]\",\"reason\":{\"number\":2147483679}}\n",
    },
    AnswerRow {
        shows: "a refusal as KMIP has it",
        call: "destroy k1",
        id: b"",
        response: "RES0(5C e14,7F e1,7E e1,7D \"gone\")",
        status: 1,
        line: "{\"error\":\"ItemNotFound\",\"text\":\"Operation Destroy failed: gone\",\"reason\":{\"name\":\"ItemNotFound\",\"number\":1},\"message\":\"gone\"}\n",
    },
    AnswerRow {
        shows: "a pair whose two keys are one",
        call: "create-rsa 2048 a b",
        id: b"",
        response: "OK0(2, 66 \"1\",6F \"1\")",
        status: 3,
        line: "{\"error\":\"InternalError\",\"text\":\"answer with one identifier for two keys\",\"response\":\"7B[7A[69[6Ai6Bi]92d0Di]0F[5Ce2:7Fe0:7C[66t6Ft]]]\"}\n",
    },
    AnswerRow {
        shows: "a failure of another operation",
        call: "get k1",
        id: b"",
        response: "RES0(5C e14,7F e1,7E e1,7D \"gone\")",
        status: 3,
        line: "{\"error\":\"InternalError\",\"text\":\"Response operation Destroy does not match request operation Get\",",
    },
    AnswerRow {
        shows: "a message that ends early",
        call: "rng 4",
        id: b"",
        response: "!42007B010000009042007A01",
        status: 3,
        line: "{\"error\":\"ResponseReadError\",\"text\":\"end of input\"}\n",
    },
    AnswerRow {
        shows: "activate, another object",
        call: "activate k1",
        id: b"",
        response: "OK0(12, 94\"k2\")",
        status: 3,
        line: ANOTHER,
    },
    AnswerRow {
        shows: "sign, another object",
        call: "sign k1 00",
        id: b"",
        response: "OK2(21, 94\"k2\",C3 x0102)",
        status: 3,
        line: ANOTHER,
    },
    AnswerRow {
        shows: "get, another object",
        call: "get k1",
        id: b"",
        response: "OK0(A, 57 e2,94\"k2\",8F{40{42 e1,45{43 x00},28 e3,2A i8}})",
        status: 3,
        line: ANOTHER,
    },
    AnswerRow {
        shows: "destroy, another object",
        call: "destroy k1",
        id: b"",
        response: "OK0(14, 94\"k2\")",
        status: 3,
        line: ANOTHER,
    },
    AnswerRow {
        shows: "revoke, another object",
        call: "revoke k1",
        id: b"",
        response: "OK0(13, 94\"k2\")",
        status: 3,
        line: ANOTHER,
    },
    AnswerRow {
        shows: "rename, another object",
        call: "rename k1 n",
        id: b"",
        response: "OK0(E, 94\"k2\",08{0A\"Name\",0B{55\"n\",54 e1}})",
        status: 3,
        line: ANOTHER,
    },
    AnswerRow {
        shows: "attributes, another object",
        call: "attributes k1",
        id: b"",
        response: "OK0(B, 94\"k2\")",
        status: 3,
        line: ANOTHER,
    },
    AnswerRow {
        shows: "the object that was asked about",
        call: "get k2",
        id: b"",
        response: "OK0(A, 57 e2,94\"k2\",8F{40{42 e1,45{43 x00},28 e3,2A i8}})",
        status: 0,
        line: "{\"answer\":{\"object_type\":\"SymmetricKey\",\"unique_identifier\":\"k2\",",
    },
    AnswerRow {
        shows: "attributes that the tables have no words for, as a tree",
        call: "attributes k1",
        id: b"",
        response: "OK0(B, 94\"k1\",08{0A\"Cryptographic Algorithm\",0B e6})",
        status: 0,
        line: "{\"answer\":{\"tag\":\"ResponsePayload\",\"value\":[{\"tag\":\"UniqueIdentifier\",\"type\":\"TextString\",\"value\":\"k1\"},{\"tag\":\"Attribute\",\"value\":[{\"tag\":\"AttributeName\",\"type\":\"TextString\",\"value\":\"Cryptographic Algorithm\"},{\"tag\":\"AttributeValue\",\"type\":\"Enumeration\",\"value\":\"ECDSA\"}]}]}}\n",
    },
    AnswerRow {
        shows: "a call with options, as the one without",
        call: "revoke k1 reason=KeyCompromise",
        id: b"",
        response: "OK0(13, 94\"k1\")",
        status: 0,
        line: "{\"answer\":{}}\n",
    },
    AnswerRow {
        shows: "the payload of a call with options",
        call: "sign k1 00 hash=SHA512",
        id: b"",
        response: "OK2(21, 94\"k1\",C3 x0102)",
        status: 0,
        line: "{\"answer\":{\"unique_identifier\":\"k1\",\"signature_data\":\"0102\"}}\n",
    },
    AnswerRow {
        shows: "a call with options, another object",
        call: "sign k1 00 hash=SHA512",
        id: b"",
        response: "OK2(21, 94\"k2\",C3 x0102)",
        status: 3,
        line: ANOTHER,
    },
    AnswerRow {
        shows: "attributes by name, another object",
        call: "attributes k1 State",
        id: b"",
        response: "OK0(B, 94\"k2\")",
        status: 3,
        line: ANOTHER,
    },
    AnswerRow {
        shows: "a call of the table",
        call: "encrypt k1 68656C6C6F mode=CBC",
        id: b"",
        response: "OK2(1F, 94\"k1\",C2 x0102,3D xAA)",
        status: 0,
        line: "{\"answer\":{\"unique_identifier\":\"k1\",\"data\":\"0102\",\"iv_counter_nonce\":\"AA\"}}\n",
    },
    AnswerRow {
        shows: "several items of one tag",
        call: "attribute-list k1",
        id: b"",
        response: "OK2(C, 94\"k1\",0A\"State\",0A\"Name\")",
        status: 0,
        line: "{\"answer\":{\"unique_identifier\":\"k1\",\"attribute_name\":[\"State\",\"Name\"]}}\n",
    },
    AnswerRow {
        shows: "a call of the table, with its ID",
        call: "archive k1",
        id: b"1234",
        response: "RES2(5C e15,93 x31323334,7F e0,7C{94\"k1\"})",
        status: 0,
        line: "{\"answer\":{\"unique_identifier\":\"k1\"}}\n",
    },
    AnswerRow {
        shows: "a call of the table, with another ID",
        call: "archive k1",
        id: b"1234",
        response: "RES2(5C e15,93 x31323335,7F e0,7C{94\"k1\"})",
        status: 3,
        line: "{\"error\":\"InternalError\",",
    },
    AnswerRow {
        shows: "a call of the table, another object",
        call: "encrypt k1 68656C6C6F mode=CBC",
        id: b"",
        response: "OK2(1F, 94\"k2\",C2 x0102)",
        status: 3,
        line: ANOTHER,
    },
    AnswerRow {
        shows: "a call of the table, no payload",
        call: "archive k1",
        id: b"",
        response: "RES2(5C e15,7F e0)",
        status: 3,
        line: "{\"error\":\"InternalError\",\"text\":\"answer with an empty payload\",",
    },
    AnswerRow {
        shows: "a call of the table, one identifier for two keys",
        call: "rekey-pair k1",
        id: b"",
        response: "OK2(1D, 66\"2\",6F\"2\")",
        status: 3,
        line: "{\"error\":\"InternalError\",\"text\":\"answer with one identifier for two keys\",",
    },
    AnswerRow {
        shows: "a call of the table, an empty identifier",
        call: "rekey k1",
        id: b"",
        response: "OK2(4, 94\"\")",
        status: 3,
        line: "{\"error\":\"InternalError\",\"text\":\"answer without an identifier\",",
    },
    AnswerRow {
        shows: "a typed call, whatever the ID",
        call: "destroy k1",
        id: b"1234",
        response: "OK0(14, 94\"k1\")",
        status: 0,
        line: "{\"answer\":{}}\n",
    },
    AnswerRow {
        shows: "a call of the table, refused",
        call: "archive k1",
        id: b"",
        response: "RES2(5C e15,7F e1,7E e1,7D \"gone\")",
        status: 1,
        line: "{\"error\":\"ItemNotFound\",",
    },
];

#[test]
fn responses_are_answered(rt: HostRuntime) -> Result<(), Fail> {
    let alloc: Global = rt.alloc();
    for row in ANSWERS {
        let words = texts_in(alloc, row.call)?;
        let response = message(alloc, row.response)?;
        let mut line = [7u8; 400];
        let mut length = 0;
        let status = answer(alloc, &words, row.id, &response, &mut line, &mut length);
        assert!(rt; status == row.status, "{}", row.shows);
        assert!(rt; line.starts_with(row.line.as_bytes()), "{}", row.shows);
    }
    Ok(())
}
