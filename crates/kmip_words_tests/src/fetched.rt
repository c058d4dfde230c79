//! What responses answer to typed calls, also past the tables. Messages stand in the notation of
//! kmip_test_messages, and JSON is written by hand.
use crate::support::{bytes_of, call_of, plain};
use kmip_operations::call_answer;
use kmip_words::Ending;
use std::alloc::Global;
use std::process::Abort;

/// A typed call, a response, how the call ended, and its line.
#[derive(Clone, Copy)]
struct CallRow {
    shows: &'static str,
    call: &'static str,
    response: &'static str,
    ending: Ending,
    line: &'static str,
}

/// By the tables of KMIP 1.0, 4.10 and 4.11; objects by 2.2, and numbers by 9.1.3.2.
const CALLS: &[CallRow] = &[
    CallRow {
        shows: "a private key of EC",
        call: "get k1",
        response: "OK0(A, 57 e4,94 \"k1\",64{40{42 e6,45{43 x3003020101},28 e6,2A i256}})",
        ending: Ending::Answered,
        line: "{\"answer\":{\"tag\":\"ResponsePayload\",\"value\":[{\"tag\":\"ObjectType\",\"type\":\"Enumeration\",\"value\":\"PrivateKey\"},{\"tag\":\"UniqueIdentifier\",\"type\":\"TextString\",\"value\":\"k1\"},{\"tag\":\"PrivateKey\",\"value\":[{\"tag\":\"KeyBlock\",\"value\":[{\"tag\":\"KeyFormatType\",\"type\":\"Enumeration\",\"value\":\"ECPrivateKey\"},{\"tag\":\"KeyValue\",\"value\":[{\"tag\":\"KeyMaterial\",\"type\":\"ByteString\",\"value\":\"3003020101\"}]},{\"tag\":\"CryptographicAlgorithm\",\"type\":\"Enumeration\",\"value\":\"ECDSA\"},{\"tag\":\"CryptographicLength\",\"type\":\"Integer\",\"value\":256}]}]}]}}\n",
    },
    CallRow {
        shows: "a Secret Data in a format, and a byte past the message",
        call: "get k1 format=Opaque",
        response: "OK0(A, 57 e7,94 \"k1\",85{86 e1,40{42 e2,45{43 x70617373}}}),!FF",
        ending: Ending::Answered,
        line: "{\"answer\":{\"tag\":\"ResponsePayload\",\"value\":[{\"tag\":\"ObjectType\",\"type\":\"Enumeration\",\"value\":\"SecretData\"},{\"tag\":\"UniqueIdentifier\",\"type\":\"TextString\",\"value\":\"k1\"},{\"tag\":\"SecretData\",\"value\":[{\"tag\":\"SecretDataType\",\"type\":\"Enumeration\",\"value\":\"Password\"},{\"tag\":\"KeyBlock\",\"value\":[{\"tag\":\"KeyFormatType\",\"type\":\"Enumeration\",\"value\":\"Opaque\"},{\"tag\":\"KeyValue\",\"value\":[{\"tag\":\"KeyMaterial\",\"type\":\"ByteString\",\"value\":\"70617373\"}]}]}]}]}}\n",
    },
    CallRow {
        shows: "an algorithm past the tables among attributes",
        call: "attributes k1",
        response: "OK0(B, 94 \"k1\",08{0A \"Cryptographic Algorithm\",0B e6})",
        ending: Ending::Answered,
        line: "{\"answer\":{\"tag\":\"ResponsePayload\",\"value\":[{\"tag\":\"UniqueIdentifier\",\"type\":\"TextString\",\"value\":\"k1\"},{\"tag\":\"Attribute\",\"value\":[{\"tag\":\"AttributeName\",\"type\":\"TextString\",\"value\":\"Cryptographic Algorithm\"},{\"tag\":\"AttributeValue\",\"type\":\"Enumeration\",\"value\":\"ECDSA\"}]}]}}\n",
    },
    CallRow {
        shows: "such an attribute by its name",
        call: "attributes k1 Cryptographic%20Algorithm",
        response: "OK0(B, 94 \"k1\",08{0A \"Cryptographic Algorithm\",0B e6})",
        ending: Ending::Answered,
        line: "{\"answer\":{\"tag\":\"ResponsePayload\",\"value\":[{\"tag\":\"UniqueIdentifier\",\"type\":\"TextString\",\"value\":\"k1\"},{\"tag\":\"Attribute\",\"value\":[{\"tag\":\"AttributeName\",\"type\":\"TextString\",\"value\":\"Cryptographic Algorithm\"},{\"tag\":\"AttributeValue\",\"type\":\"Enumeration\",\"value\":\"ECDSA\"}]}]}}\n",
    },
    CallRow {
        shows: "another object",
        call: "get k1",
        response: "OK0(A, 57 e7,94 \"k2\",85{86 e1,40{42 e2,45{43 x70617373}}})",
        ending: Ending::Lost,
        line: "{\"error\":\"InternalError\",\"text\":\"answer for another object\",\"response\":\"7B[7A[69[6Ai6Bi]92d0Di]0F[5CeA:7Fe0:7C[57e7:94t85[86e1:40[42e2:45[43x]]]]]]\"}\n",
    },
    CallRow {
        shows: "no identifier",
        call: "get k1",
        response: "OK0(A, 57 e7,85{86 e1,40{42 e2,45{43 x70617373}}})",
        ending: Ending::Lost,
        line: "{\"error\":\"InternalError\",\"text\":\"answer for another object\",\"response\":\"7B[7A[69[6Ai6Bi]92d0Di]0F[5CeA:7Fe0:7C[57e7:85[86e1:40[42e2:45[43x]]]]]]\"}\n",
    },
    CallRow {
        shows: "a type and no object",
        call: "get k1",
        response: "OK0(A, 57 e7,94 \"k1\")",
        ending: Ending::Refused,
        line: "{\"error\":\"InternalError\",\"text\":\"not a response message\",\"response\":\"7B[7A[69[6Ai6Bi]92d0Di]0F[5CeA:7Fe0:7C[57e7:94t]]]\"}\n",
    },
    CallRow {
        shows: "no object, and an item that Get has not",
        call: "get k1 format=PKCS8",
        response: "OK0(A, 57 e7,94 \"k1\",C2 x00)",
        ending: Ending::Refused,
        line: "{\"error\":\"InternalError\",\"text\":\"not a response message\",\"response\":\"7B[7A[69[6Ai6Bi]92d0Di]0F[5CeA:7Fe0:7C[57e7:94tC2x]]]\"}\n",
    },
    CallRow {
        shows: "an object and no type",
        call: "get k1",
        response: "OK0(A, 94 \"k1\",85{86 e1,40{42 e2,45{43 x70617373}}})",
        ending: Ending::Refused,
        line: "{\"error\":\"InternalError\",\"text\":\"not a response message\",\"response\":\"7B[7A[69[6Ai6Bi]92d0Di]0F[5CeA:7Fe0:7C[94t85[86e1:40[42e2:45[43x]]]]]]\"}\n",
    },
    CallRow {
        shows: "a signature without bytes",
        call: "sign k1 00FF",
        response: "OK2(21, 94 \"k1\",C3 x)",
        ending: Ending::Lost,
        line: "{\"error\":\"InternalError\",\"text\":\"answer without a signature\",\"response\":\"7B[7A[69[6Ai6Bi]92d0Di]0F[5Ce21:7Fe0:7C[94tC3x]]]\"}\n",
    },
    CallRow {
        shows: "the same of a signature by another digest",
        call: "sign k1 00FF hash=SHA384",
        response: "OK2(21, 94 \"k1\",C3 x)",
        ending: Ending::Lost,
        line: "{\"error\":\"InternalError\",\"text\":\"answer without a signature\",\"response\":\"7B[7A[69[6Ai6Bi]92d0Di]0F[5Ce21:7Fe0:7C[94tC3x]]]\"}\n",
    },
    CallRow {
        shows: "a new key without its identifier",
        call: "create AES 256 k1",
        response: "OK0(1, 57 e2,94 \"\")",
        ending: Ending::Lost,
        line: "{\"error\":\"InternalError\",\"text\":\"answer without an identifier\",\"response\":\"7B[7A[69[6Ai6Bi]92d0Di]0F[5Ce1:7Fe0:7C[57e2:94t]]]\"}\n",
    },
    CallRow {
        shows: "a key that was registered, without its identifier",
        call: "register symmetric 00 format=Raw algorithm=AES length=8",
        response: "OK0(3, 94 \"\")",
        ending: Ending::Lost,
        line: "{\"error\":\"InternalError\",\"text\":\"answer without an identifier\",\"response\":\"7B[7A[69[6Ai6Bi]92d0Di]0F[5Ce3:7Fe0:7C[94t]]]\"}\n",
    },
    CallRow {
        shows: "a pair whose private key has no identifier",
        call: "create-rsa 2048 a b",
        response: "OK0(2, 66 \"\",6F \"2\")",
        ending: Ending::Lost,
        line: "{\"error\":\"InternalError\",\"text\":\"answer without an identifier\",\"response\":\"7B[7A[69[6Ai6Bi]92d0Di]0F[5Ce2:7Fe0:7C[66t6Ft]]]\"}\n",
    },
    CallRow {
        shows: "a pair whose public key has no identifier",
        call: "create-rsa 2048 a b private-usage=Sign",
        response: "OK0(2, 66 \"1\",6F \"\")",
        ending: Ending::Lost,
        line: "{\"error\":\"InternalError\",\"text\":\"answer without an identifier\",\"response\":\"7B[7A[69[6Ai6Bi]92d0Di]0F[5Ce2:7Fe0:7C[66t6Ft]]]\"}\n",
    },
    CallRow {
        shows: "a wrapping was asked for",
        call: "get k1 wrap=k2",
        response: "OK0(A, 57 e7,94 \"k1\",85{86 e1,40{42 e2,45{43 x70617373}}})",
        ending: Ending::Refused,
        line: "{\"error\":\"InternalError\",\"text\":\"not a response message\",\"response\":\"7B[7A[69[6Ai6Bi]92d0Di]0F[5CeA:7Fe0:7C[57e7:94t85[86e1:40[42e2:45[43x]]]]]]\"}\n",
    },
    CallRow {
        shows: "a call of another operation",
        call: "activate k1",
        response: "OK0(12, 57 e1)",
        ending: Ending::Refused,
        line: "{\"error\":\"InternalError\",\"text\":\"not a response message\",\"response\":\"7B[7A[69[6Ai6Bi]92d0Di]0F[5Ce12:7Fe0:7C[57e1:]]]\"}\n",
    },
    CallRow {
        shows: "a response of another operation",
        call: "get k1",
        response: "OK0(1, 94 \"k1\")",
        ending: Ending::Lost,
        line: "{\"error\":\"InternalError\",\"text\":\"not a response message\",\"response\":\"7B[7A[69[6Ai6Bi]92d0Di]0F[5Ce1:7Fe0:7C[94t]]]\"}\n",
    },
    CallRow {
        shows: "a failure",
        call: "get k1",
        response: "RES0(5C eA,7F e1,7E e1,7D \"gone\")",
        ending: Ending::Refused,
        line: "{\"error\":\"ItemNotFound\",\"text\":\"Operation Get failed: gone\",\"reason\":{\"name\":\"ItemNotFound\",\"number\":1},\"message\":\"gone\"}\n",
    },
    CallRow {
        shows: "what the tables have words for",
        call: "attributes k1",
        response: "OK0(B, 94 \"k1\",08{0A \"Cryptographic Length\",0B i256})",
        ending: Ending::Answered,
        line: "{\"answer\":{\"unique_identifier\":\"k1\",\"attributes\":[{\"name\":\"Cryptographic Length\",\"value\":{\"Integer\":256}}]}}\n",
    },
];

/// The response of a row is answered as it says.
fn is_answered(rt: &impl Abort, alloc: Global, row: &CallRow) {
    let call = call_of(rt, alloc, row.call);
    let response = bytes_of(rt, alloc, row.response);
    let answer = call_answer(alloc, &plain(), &call, &response).expect(rt, "memory");
    assert!(rt;
        answer.line.as_slice() == row.line.as_bytes(),
        "{}",
        row.shows
    );
    assert_eq!(rt; answer.ending, row.ending, "{}", row.shows);
    drop(answer);
    drop(call);
}

#[test]
fn typed_calls_are_answered(rt: HostRuntime) {
    for row in CALLS {
        is_answered(&rt, rt.alloc(), row);
    }
}
