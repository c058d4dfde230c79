//! Successes whose payload is no answer to the call: KMIP 1.0, 4 and 5, KMIP 1.1, 4.5 and 4.26, and
//! KMIP 1.2, 4.29 to 4.39. Numbers of operations are those of KMIP 1.2, 9.1.3.2.26. Messages stand in
//! the notation of kmip_test_messages, and JSON is written by hand.
use crate::support::{bytes_of, plain, text};
use kmip_operations::{OperationCall, PayloadForm, operation_answer, operation_call};
use kmip_wire::Text;
use kmip_words::Ending;
use std::alloc::Global;
use std::process::Abort;

/// An operation, and its number in hex.
#[derive(Clone, Copy)]
struct Named {
    name: &'static str,
    number: &'static str,
}

/// The operations whose response names the object that the request names.
const ABOUT_ONE: &[Named] = &[
    Named {
        name: "Check",
        number: "9",
    },
    Named {
        name: "Get",
        number: "A",
    },
    Named {
        name: "GetAttributes",
        number: "B",
    },
    Named {
        name: "GetAttributeList",
        number: "C",
    },
    Named {
        name: "AddAttribute",
        number: "D",
    },
    Named {
        name: "ModifyAttribute",
        number: "E",
    },
    Named {
        name: "DeleteAttribute",
        number: "F",
    },
    Named {
        name: "ObtainLease",
        number: "10",
    },
    Named {
        name: "GetUsageAllocation",
        number: "11",
    },
    Named {
        name: "Activate",
        number: "12",
    },
    Named {
        name: "Revoke",
        number: "13",
    },
    Named {
        name: "Destroy",
        number: "14",
    },
    Named {
        name: "Archive",
        number: "15",
    },
    Named {
        name: "Recover",
        number: "16",
    },
    Named {
        name: "Encrypt",
        number: "1F",
    },
    Named {
        name: "Decrypt",
        number: "20",
    },
    Named {
        name: "Sign",
        number: "21",
    },
    Named {
        name: "SignatureVerify",
        number: "22",
    },
    Named {
        name: "MAC",
        number: "23",
    },
    Named {
        name: "MACVerify",
        number: "24",
    },
];

/// The operations whose response has a field, and names a new object, another thing, or none.
const OTHERS: &[Named] = &[
    Named {
        name: "Create",
        number: "1",
    },
    Named {
        name: "CreateKeyPair",
        number: "2",
    },
    Named {
        name: "Register",
        number: "3",
    },
    Named {
        name: "Rekey",
        number: "4",
    },
    Named {
        name: "DeriveKey",
        number: "5",
    },
    Named {
        name: "Certify",
        number: "6",
    },
    Named {
        name: "Recertify",
        number: "7",
    },
    Named {
        name: "Validate",
        number: "17",
    },
    Named {
        name: "Cancel",
        number: "19",
    },
    Named {
        name: "RekeyKeyPair",
        number: "1D",
    },
    Named {
        name: "RNGRetrieve",
        number: "25",
    },
    Named {
        name: "RNGSeed",
        number: "26",
    },
    Named {
        name: "Hash",
        number: "27",
    },
    Named {
        name: "CreateSplitKey",
        number: "28",
    },
    Named {
        name: "JoinSplitKey",
        number: "29",
    },
];

/// The operations whose response may have no field: a list that may be empty, that of another
/// operation, or no payload.
const MAY_BE_EMPTY: &[Named] = &[
    Named {
        name: "Locate",
        number: "8",
    },
    Named {
        name: "Query",
        number: "18",
    },
    Named {
        name: "Poll",
        number: "1A",
    },
    Named {
        name: "Notify",
        number: "1B",
    },
    Named {
        name: "Put",
        number: "1C",
    },
    Named {
        name: "DiscoverVersions",
        number: "1E",
    },
];

/// The payload of a request that names the object k1.
const ABOUT_K1: &str =
    r#"{"tag":"RequestPayload","value":[{"tag":"UniqueIdentifier","type":"TextString","value":"k1"}]}"#;

/// The payload of a request that names none.
const ABOUT_NONE: &str = r#"{"tag":"RequestPayload","value":[]}"#;

/// The call of an operation with this payload.
fn call_of(rt: &impl Abort, alloc: Global, name: &str, payload: &str) -> OperationCall {
    let call = operation_call(alloc, name, "1.2", None, payload).expect(rt, "memory");
    call.expect(rt, "a call")
}

/// Three texts, one behind the other.
fn joined(rt: &impl Abort, alloc: Global, front: &str, middle: &str, back: &str) -> Text {
    let mut whole = text(rt, alloc, front);
    whole.push_str(middle).expect(rt, "memory");
    whole.push_str(back).expect(rt, "memory");
    whole
}

/// In each form the call ends so with this response, and its line begins so.
fn ends(
    rt: &impl Abort,
    alloc: Global,
    call: &OperationCall,
    response: &str,
    ending: Ending,
    line: &str,
) {
    let bytes = bytes_of(rt, alloc, response);
    for form in [PayloadForm::Tree, PayloadForm::Plain] {
        let answer = operation_answer(alloc, &plain(), call, &bytes, form).expect(rt, "memory");
        assert_eq!(rt; answer.ending, ending, "{response}");
        assert!(rt; answer.line.starts_with(line.as_bytes()), "{response}");
        drop(answer);
    }
}

/// A call of the operation with this payload is answered by a success with these fields.
fn is_answer(rt: &impl Abort, alloc: Global, operation: Named, payload: &str, fields: &str) {
    let call = call_of(rt, alloc, operation.name, payload);
    let front = joined(rt, alloc, "OK2(", operation.number, ", ");
    let response = joined(rt, alloc, front.as_str(), fields, ")");
    ends(
        rt,
        alloc,
        &call,
        response.as_str(),
        Ending::Answered,
        "{\"answer\":{",
    );
    drop(call);
}

/// Such a call is lost, since the success is no answer for this reason.
fn is_none(
    rt: &impl Abort,
    alloc: Global,
    operation: Named,
    payload: &str,
    fields: &str,
    why: &str,
) {
    let call = call_of(rt, alloc, operation.name, payload);
    let front = joined(rt, alloc, "OK2(", operation.number, ", ");
    let response = joined(rt, alloc, front.as_str(), fields, ")");
    let line = joined(
        rt,
        alloc,
        "{\"error\":\"InternalError\",\"text\":\"",
        why,
        "\",\"response\":\"7B[",
    );
    ends(
        rt,
        alloc,
        &call,
        response.as_str(),
        Ending::Lost,
        line.as_str(),
    );
    drop(call);
}

const ANOTHER: &str = "answer for another object";

const EMPTY: &str = "answer with an empty payload";

const ONE_KEY: &str = "answer with one identifier for two keys";

const NO_IDENTIFIER: &str = "answer without an identifier";

#[test]
fn an_answer_is_about_the_object_that_was_asked_about(rt: HostRuntime) {
    let alloc = rt.alloc();
    for operation in ABOUT_ONE {
        is_answer(&rt, alloc, *operation, ABOUT_K1, "94 \"k1\"");
        is_none(&rt, alloc, *operation, ABOUT_K1, "94 \"k2\"", ANOTHER);
        is_none(&rt, alloc, *operation, ABOUT_K1, "94 \"k\"", ANOTHER);
        is_none(&rt, alloc, *operation, ABOUT_K1, "C2 x00", ANOTHER);
        is_none(&rt, alloc, *operation, ABOUT_K1, "94 x6B31", ANOTHER);
        is_answer(&rt, alloc, *operation, ABOUT_NONE, "94 \"k2\"");
    }
}

#[test]
fn other_operations_name_another_object(rt: HostRuntime) {
    let alloc = rt.alloc();
    for operation in OTHERS {
        is_answer(&rt, alloc, *operation, ABOUT_K1, "94 \"k2\"");
    }
    for operation in MAY_BE_EMPTY {
        is_answer(&rt, alloc, *operation, ABOUT_K1, "94 \"k2\"");
    }
}

#[test]
fn an_answer_has_a_field(rt: HostRuntime) {
    let alloc = rt.alloc();
    for operation in ABOUT_ONE {
        is_none(&rt, alloc, *operation, ABOUT_K1, "", EMPTY);
        is_none(&rt, alloc, *operation, ABOUT_NONE, "", EMPTY);
    }
    for operation in OTHERS {
        is_none(&rt, alloc, *operation, ABOUT_NONE, "", EMPTY);
    }
    for operation in MAY_BE_EMPTY {
        is_answer(&rt, alloc, *operation, ABOUT_NONE, "");
    }
}

/// A call, a response, how the call ended, and its line.
#[derive(Clone, Copy)]
struct Row {
    shows: &'static str,
    name: &'static str,
    payload: &'static str,
    response: &'static str,
    ending: Ending,
    line: &'static str,
}

/// The payload of a request that names the handle 0A0B.
const HANDLE: &str =
    r#"{"tag":"RequestPayload","value":[{"tag":"AsynchronousCorrelationValue","type":"ByteString","value":"0A0B"}]}"#;

/// Whole lines.
const ROWS: &[Row] = &[
    Row {
        shows: "no payload at all",
        name: "Archive",
        payload: ABOUT_K1,
        response: "RES2(5C e15,7F e0)",
        ending: Ending::Lost,
        line: "{\"error\":\"InternalError\",\"text\":\"answer with an empty payload\",\"response\":\"7B[7A[69[6Ai6Bi]92d0Di]0F[5Ce15:7Fe0:]]\"}\n",
    },
    Row {
        shows: "a payload that is no structure",
        name: "Archive",
        payload: ABOUT_K1,
        response: "RES2(5C e15,7F e0,7C \"k1\")",
        ending: Ending::Lost,
        line: "{\"error\":\"InternalError\",\"text\":\"answer with an empty payload\",\"response\":\"7B[7A[69[6Ai6Bi]92d0Di]0F[5Ce15:7Fe0:7Ct]]\"}\n",
    },
    Row {
        shows: "another object",
        name: "Decrypt",
        payload: ABOUT_K1,
        response: "OK2(20, 94 \"k2\",C2 x00)",
        ending: Ending::Lost,
        line: "{\"error\":\"InternalError\",\"text\":\"answer for another object\",\"response\":\"7B[7A[69[6Ai6Bi]92d0Di]0F[5Ce20:7Fe0:7C[94tC2x]]]\"}\n",
    },
    Row {
        shows: "a cancellation of another operation",
        name: "Cancel",
        payload: HANDLE,
        response: "OK2(19, 06 x0A0C,12 e1)",
        ending: Ending::Lost,
        line: "{\"error\":\"InternalError\",\"text\":\"answer for another object\",\"response\":\"7B[7A[69[6Ai6Bi]92d0Di]0F[5Ce19:7Fe0:7C[06x12e1:]]]\"}\n",
    },
    Row {
        shows: "a cancellation that names none",
        name: "Cancel",
        payload: HANDLE,
        response: "OK2(19, 12 e1)",
        ending: Ending::Lost,
        line: "{\"error\":\"InternalError\",\"text\":\"answer for another object\",\"response\":\"7B[7A[69[6Ai6Bi]92d0Di]0F[5Ce19:7Fe0:7C[12e1:]]]\"}\n",
    },
    Row {
        shows: "one identifier for the two keys of a pair",
        name: "CreateKeyPair",
        payload: ABOUT_NONE,
        response: "OK2(2, 66 \"1\",6F \"1\")",
        ending: Ending::Lost,
        line: "{\"error\":\"InternalError\",\"text\":\"answer with one identifier for two keys\",\"response\":\"7B[7A[69[6Ai6Bi]92d0Di]0F[5Ce2:7Fe0:7C[66t6Ft]]]\"}\n",
    },
    Row {
        shows: "an empty identifier of a new object",
        name: "Create",
        payload: ABOUT_NONE,
        response: "OK2(1, 57 e2,94 \"\")",
        ending: Ending::Lost,
        line: "{\"error\":\"InternalError\",\"text\":\"answer without an identifier\",\"response\":\"7B[7A[69[6Ai6Bi]92d0Di]0F[5Ce1:7Fe0:7C[57e2:94t]]]\"}\n",
    },
];

#[test]
fn the_line_shows_what_came(rt: HostRuntime) {
    let alloc = rt.alloc();
    for row in ROWS {
        let call = call_of(&rt, alloc, row.name, row.payload);
        let bytes = bytes_of(&rt, alloc, row.response);
        let form = PayloadForm::Plain;
        let answer = operation_answer(alloc, &plain(), &call, &bytes, form).expect(&rt, "memory");
        assert!(&rt;
            answer.line.as_slice() == row.line.as_bytes(),
            "{}",
            row.shows
        );
        assert_eq!(&rt; answer.ending, row.ending, "{}", row.shows);
        drop(answer);
        drop(call);
    }
}

/// Those that answer with the two keys of a pair.
const PAIRS: &[Named] = &[
    Named {
        name: "CreateKeyPair",
        number: "2",
    },
    Named {
        name: "RekeyKeyPair",
        number: "1D",
    },
];

#[test]
fn a_pair_has_two_identifiers(rt: HostRuntime) {
    let alloc = rt.alloc();
    for operation in PAIRS {
        is_answer(&rt, alloc, *operation, ABOUT_NONE, "66 \"1\",6F \"2\"");
        is_none(
            &rt,
            alloc,
            *operation,
            ABOUT_NONE,
            "66 \"1\",6F \"1\"",
            ONE_KEY,
        );
        is_none(
            &rt,
            alloc,
            *operation,
            ABOUT_NONE,
            "6F \"1\",66 \"1\"",
            ONE_KEY,
        );
        is_none(
            &rt,
            alloc,
            *operation,
            ABOUT_NONE,
            "66 \"\",6F \"2\"",
            NO_IDENTIFIER,
        );
        is_none(
            &rt,
            alloc,
            *operation,
            ABOUT_NONE,
            "66 \"1\",6F \"\"",
            NO_IDENTIFIER,
        );
        is_none(
            &rt,
            alloc,
            *operation,
            ABOUT_NONE,
            "66 \"\",6F \"\"",
            NO_IDENTIFIER,
        );
    }
}

#[test]
fn no_identifier_is_empty(rt: HostRuntime) {
    let alloc = rt.alloc();
    for operation in OTHERS {
        is_none(&rt, alloc, *operation, ABOUT_NONE, "94 \"\"", NO_IDENTIFIER);
    }
    for operation in ABOUT_ONE {
        is_none(
            &rt,
            alloc,
            *operation,
            ABOUT_NONE,
            "C2 x00,94 \"\"",
            NO_IDENTIFIER,
        );
    }
    for operation in MAY_BE_EMPTY {
        is_none(
            &rt,
            alloc,
            *operation,
            ABOUT_NONE,
            "94 \"1\",94 \"\"",
            NO_IDENTIFIER,
        );
        is_answer(&rt, alloc, *operation, ABOUT_NONE, "94 \"1\",94 \"2\"");
    }
}
