//! What no contract says: each command succeeds where there is memory, and failures are reported.
use crate::messages::message;
use crate::program::{Command, Failure, transcode};
use kmip_faults::{fault_of, fault_text};
use std::alloc::Global;
use std::process::Abort;
use std::str;

const DIGITS: &str = "42000D02000000040000000100000000\n";

const JSON: &str = "{\"tag\":\"BatchCount\",\"type\":\"Integer\",\"value\":1}\n";

const XML: &str = "<BatchCount type=\"Integer\" value=\"1\"/>\n";

/// The command makes this of its input.
fn is_made(rt: &impl Abort, alloc: Global, command: Command, input: &[u8], wanted: &str) {
    let output = transcode(alloc, command, input).ok().expect(rt, wanted);
    assert_eq!(rt; str::from_utf8(&output), Ok(wanted));
}

#[test]
fn items_are_decoded_and_encoded(rt: HostRuntime) {
    let alloc = rt.alloc();
    is_made(&rt, alloc, Command::DecodeJson, DIGITS.as_bytes(), JSON);
    let spaced = b" 42000d 02\n00000004 00000001 00000000";
    is_made(&rt, alloc, Command::DecodeJson, spaced, JSON);
    let bytes = b"\x42\x00\x0D\x02\0\0\0\x04\0\0\0\x01\0\0\0\0";
    is_made(&rt, alloc, Command::DecodeJson, bytes, JSON);
    is_made(&rt, alloc, Command::DecodeXml, DIGITS.as_bytes(), XML);
    is_made(&rt, alloc, Command::Encode, JSON.as_bytes(), DIGITS);
    is_made(&rt, alloc, Command::Encode, XML.as_bytes(), DIGITS);
    let commented = b"\n<!-- one --> <BatchCount value='0x00000001' type='Integer'></BatchCount>";
    is_made(&rt, alloc, Command::Encode, commented, DIGITS);
}

/// Commands, inputs that are not transcoded, and the error of each.
const FAILURES: &[(Command, &[u8], &str)] = &[
    (
        Command::DecodeJson,
        b"42000D0200000004000000010000000042",
        "kmip_ttlv: an item ends at byte 16, and what follows is no item\n",
    ),
    (
        Command::DecodeJson,
        b"42000D02000000040000000100000000 42000D02000000040000000100000000",
        "kmip_ttlv: an item ends at byte 16, and a second one follows\n",
    ),
    (
        Command::DecodeJson,
        b"\x42\x00\x0D\x02\0\0\0\x04\0\0\0\x01\0\0\0\0\n",
        "kmip_ttlv: an item ends at byte 16, and what follows is no item; the input is taken as bytes, since it is not of pairs of hex digits\n",
    ),
    (
        Command::DecodeJson,
        b"420008010000001042000D0200000004000000010000",
        "kmip_ttlv: no item: at byte 8: the pads after the value are cut off\n",
    ),
    (
        Command::DecodeJson,
        b"42000D0B000000040000000100000000",
        "kmip_ttlv: no item: at byte 0: the type is none of the ten\n",
    ),
    (
        Command::DecodeJson,
        b"42000D02000000240000000100000000",
        "kmip_ttlv: no item: at byte 0: the length leads past the end of the bytes, or of the Structure around\n",
    ),
    (Command::DecodeXml, b"", "kmip_ttlv: the input is empty\n"),
    (
        Command::Encode,
        b"\xFF",
        "kmip_ttlv: the input is not UTF-8\n",
    ),
    (
        Command::Encode,
        b"{\"tag\":x}",
        "kmip_ttlv: line 1, column 8: expected JSON, found something else\n",
    ),
    (
        Command::Encode,
        b"{\"tag\":\"Attribute\",\"value\":[{\"tag\":\"Attribute\",\"value\":[]},{\"tag\":\"Attribute\",\"value\":[{\"tag\":\"State\",\"type\":\"Enumeration\",\"value\":\"Actif\"}]}]}",
        "kmip_ttlv: line 1, column 132, value[1].value[0].value: expected PreActive, Active, Deactivated, Compromised, Destroyed, DestroyedCompromised, or 0x and eight hex digits, found another string\n",
    ),
    (
        Command::Encode,
        b"<BatchCount type=\"Integer\" value=\"x\"/>",
        "kmip_ttlv: line 1, column 2, BatchCount.value: expected a whole number from -2147483648 to 2147483647, or 0x and eight hex digits, found another value\n",
    ),
    (
        Command::Encode,
        b"{\"tag\":\"Modulus\",\"type\":\"BigInteger\",\"value\":\"0x01\"}",
        "kmip_ttlv: an item is too long, or a Big Integer's length no multiple of 8\n",
    ),
];

/// The command fails on its input with this message.
fn fails_with(rt: &impl Abort, alloc: Global, command: Command, input: &[u8], text: &str) {
    let failure = transcode(alloc, command, input).err().expect(rt, text);
    let shown = message(alloc, input, &failure).expect(rt, "memory");
    drop(failure);
    assert_eq!(rt; shown.as_str(), text);
}

#[test]
fn failures_are_reported(rt: HostRuntime) {
    for (command, input, text) in FAILURES {
        fails_with(&rt, rt.alloc(), *command, input, text);
    }
}

/// The fault of these bytes is this text.
fn has_fault(rt: &impl Abort, alloc: Global, bytes: &[u8], wanted: &str) {
    let text = fault_text(alloc, fault_of(bytes)).expect(rt, "memory");
    assert_eq!(rt; text.as_str(), wanted);
}

#[test]
fn faults_have_texts(rt: HostRuntime) {
    has_fault(&rt, rt.alloc(), b"", "");
    let short = "0 fewer than 8 bytes are left here, and a head has 8";
    has_fault(&rt, rt.alloc(), b"\x42", short);
}
