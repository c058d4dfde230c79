//! Texts of XML and of JSON are told apart by their first mark.
use crate::items::is_item;
use crate::refusals::is_said;
use kmip_xml::{from_text, text_refusal_of};
use std::alloc::Global;
use std::process::Abort;

/// Texts of one item: Batch Count 1 (KMIP 1.0, 6.5).
const ROWS: &[&str] = &[
    r#"<BatchCount type="Integer" value="1"/>"#,
    "\n\t <BatchCount type='Integer' value='1'/>",
    r#"<?xml version="1.0"?><BatchCount type="Integer" value="1"/>"#,
    r#"{"tag":"BatchCount","type":"Integer","value":1}"#,
    "\r\n {\"tag\":\"BatchCount\",\"type\":\"Integer\",\"value\":1}",
];

/// Texts with the sentence that says why they are refused.
const REFUSED: &[(&str, &str)] = &[
    (
        " <BatchItem>",
        "line 1, column 13: expected an element, a comment, or the end of the element around, found the end of the text",
    ),
    (
        "{\"tag\":x}",
        "line 1, column 8: expected JSON, found something else",
    ),
    (
        "x<BatchItem/>",
        "line 1, column 1: expected JSON, found something else",
    ),
];

/// The text is read as that item.
fn is_read(rt: &impl Abort, alloc: Global, text: &str) {
    let tree = from_text(alloc, text).ok().expect(rt, text);
    is_item(rt, alloc, &tree, "42000D02000000040000000100000000", text);
    drop(tree);
}

#[test]
fn both_are_read(rt: HostRuntime) {
    for text in ROWS {
        is_read(&rt, rt.alloc(), text);
    }
}

/// The text is not read, and this is said of it.
fn is_refused(rt: &impl Abort, alloc: Global, text: &str, why: &str) {
    let error = from_text(alloc, text).err().expect(rt, text);
    let refusal = text_refusal_of(alloc, text, &error).expect(rt, "memory");
    drop(error);
    is_said(rt, alloc, text, &refusal, why);
    drop(refusal);
}

#[test]
fn both_are_refused(rt: HostRuntime) {
    for (text, why) in REFUSED {
        is_refused(&rt, rt.alloc(), text, why);
    }
}
