//! Why texts are refused, and where.
use kmip_encodings::{Refusal, push_refusal};
use kmip_wire::Text;
use kmip_xml::{from_xml, refusal_of};
use std::alloc::Global;
use std::process::Abort;

/// A text with the sentence that says why it is refused.
const ROWS: &[(&str, &str)] = &[
    (
        "",
        "line 1, column 1: expected an element, a comment, or the end of the element around, found the end of the text",
    ),
    (
        "  hello",
        "line 1, column 3: expected an element, a comment, or the end of the element around, found something else",
    ),
    (
        "<BatchCount type=\"Integer\" value=\"1\"/>\n<BatchCount type=\"Integer\" value=\"1\"/>",
        "line 2, column 39: expected one element, and the end of the text behind it, found the end of the text",
    ),
    (
        "<!DOCTYPE a><BatchItem/>",
        "line 1, column 2: expected the name of an element, since document types and processing instructions are not read, found something else",
    ),
    (
        "<BatchItem>\n  <?go?></BatchItem>",
        "line 2, column 4: expected the name of an element, since document types and processing instructions are not read, found something else",
    ),
    (
        "<?xml version=\"1.0\"><BatchItem/>",
        "line 1, column 1: expected a declaration that ends with ?>, found something else",
    ),
    (
        "<BatchItem><!-- a -- b --></BatchItem>",
        "line 1, column 12: expected a comment, with no -- but at its ends, found something else",
    ),
    (
        "<BatchItem>",
        "line 1, column 12: expected an element, a comment, or the end of the element around, found the end of the text",
    ),
    (
        "<BatchItem></Batch>",
        "line 1, column 12: expected the end of the element around, found something else",
    ),
    (
        "<BatchItem>text</BatchItem>",
        "line 1, column 12: expected an element, a comment, or the end of the element around, found something else",
    ),
    (
        "<BatchCount type=\"Integer\" value=\"1\"",
        "line 1, column 37: expected > or /> or an attribute, found the end of the text",
    ),
    (
        "<BatchCount type=\"Integer\"value=\"1\"/>",
        "line 1, column 27: expected > or /> or an attribute, found something else",
    ),
    (
        "<BatchCount type=Integer value=\"1\"/>",
        "line 1, column 18: expected a value in quotes, found something else",
    ),
    (
        "<BatchCount type/>",
        "line 1, column 17: expected = and the value of an attribute, found something else",
    ),
    (
        "<BatchCount type=\"Integer\" type=\"Integer\"/>",
        "line 1, column 28: expected tag, type, value or name, each at most once, found something else",
    ),
    (
        "<BatchCount kind=\"Integer\"/>",
        "line 1, column 13: expected tag, type, value or name, each at most once, found something else",
    ),
    (
        "<BatchCount type=\"Integer\" value=\"1<2\"/>",
        "line 1, column 34: expected no < in the value of an attribute, found something else",
    ),
    (
        "<ResultMessage type=\"TextString\" value=\"a &nbsp; b\"/>",
        "line 1, column 40: expected &quot;, &amp;, &apos;, &lt;, &gt;, or the number of a character as &#10; or &#xA;, found something else",
    ),
    (
        "<ResultMessage type=\"TextString\" value=\"&#0;\"/>",
        "line 1, column 40: expected &quot;, &amp;, &apos;, &lt;, &gt;, or the number of a character as &#10; or &#xA;, found something else",
    ),
    (
        "<ResultMessage type=\"TextString\" value=\"\u{1}\"/>",
        "line 1, column 41: expected a character that XML has, found something else",
    ),
    (
        "<BatchItem>\n\t<Batch/>\n</BatchItem>",
        "line 2, column 3: expected the name of a tag, or TTLV with the attribute tag, which is 0x and six hex digits, found another name",
    ),
    (
        "<TTLV tag=\"0x42000\"/>",
        "line 1, column 2: expected the name of a tag, or TTLV with the attribute tag, which is 0x and six hex digits, found another name",
    ),
    (
        "<BatchCount type=\"integer\" value=\"1\"/>",
        "line 1, column 2, BatchCount.type: expected a type: Structure, Integer, LongInteger, BigInteger, Enumeration, Boolean, TextString, ByteString, DateTime or Interval, found another value",
    ),
    (
        "<BatchCount type=\"Integer\" value=\"01\"/>",
        "line 1, column 2, BatchCount.value: expected a whole number from -2147483648 to 2147483647, or 0x and eight hex digits, found another value",
    ),
    (
        "<BatchCount type=\"Integer\"/>",
        "line 1, column 2, BatchCount.value: expected a whole number from -2147483648 to 2147483647, or 0x and eight hex digits, found nothing",
    ),
    (
        "<CryptographicUsageMask type=\"Integer\" value=\"Encrypt  Decrypt\"/>",
        "line 1, column 2, CryptographicUsageMask.value: expected names of bits as Encrypt Decrypt, a whole number, or 0x and eight hex digits, found another value",
    ),
    (
        "<ObjectType type=\"Enumeration\" value=\"Symmetric Key\"/>",
        "line 1, column 2, ObjectType.value: expected Certificate, SymmetricKey, PublicKey, PrivateKey, SplitKey, Template, SecretData, OpaqueObject, PGPKey, or 0x and eight hex digits, found another value",
    ),
    (
        "<KeyMaterial type=\"ByteString\" value=\"0x00\"/>",
        "line 1, column 2, KeyMaterial.value: expected hex digits, two for a byte, found another value",
    ),
    (
        "<BatchItem value=\"1\"/>",
        "line 1, column 2, BatchItem.value: expected elements in place of a value, found another value",
    ),
    (
        "<BatchCount type=\"Integer\" value=\"1\"><BatchItem/></BatchCount>",
        "line 1, column 2: expected no element in one that has a value, found an element",
    ),
    // A value is told by its form, whatever was expected at its place.
    (
        "<KeyMaterial type=\"Integer\" value=\"00112233445566778899AABBCCDDEEFF\"/>",
        "line 1, column 2, KeyMaterial.value: expected a whole number from -2147483648 to 2147483647, or 0x and eight hex digits, found another value",
    ),
    (
        "<Password value=\"hunter2\"/>",
        "line 1, column 2, Password.value: expected elements in place of a value, found another value",
    ),
    (
        "<Password type=\"hunter2\" value=\"hunter2\"/>",
        "line 1, column 2, Password.type: expected a type: Structure, Integer, LongInteger, BigInteger, Enumeration, Boolean, TextString, ByteString, DateTime or Interval, found another value",
    ),
    (
        "<TTLV tag=\"0x4200A1\" type=\"Integer\" value=\"hunter2\"/>",
        "line 1, column 2, TTLV.value: expected a whole number from -2147483648 to 2147483647, or 0x and eight hex digits, found another value",
    ),
    (
        "<hunter2/>",
        "line 1, column 2: expected the name of a tag, or TTLV with the attribute tag, which is 0x and six hex digits, found another name",
    ),
    (
        "<Password>hunter2</Password>",
        "line 1, column 11: expected an element, a comment, or the end of the element around, found something else",
    ),
];

/// The text is not read, and this is said of it.
fn is_refused(rt: &impl Abort, alloc: Global, text: &str, why: &str) {
    let error = from_xml(alloc, text).err().expect(rt, text);
    let refusal = refusal_of(alloc, text, &error).expect(rt, "memory");
    drop(error);
    is_said(rt, alloc, text, &refusal, why);
    drop(refusal);
}

/// This is said of the refusal of the text.
pub(crate) fn is_said(rt: &impl Abort, alloc: Global, text: &str, refusal: &Refusal, why: &str) {
    let mut said = Text::new(alloc);
    push_refusal(&mut said, refusal).expect(rt, "memory");
    assert_eq!(rt; said.as_str(), why, "{text}");
}

#[test]
fn texts_are_refused(rt: HostRuntime) {
    for (text, why) in ROWS {
        is_refused(&rt, rt.alloc(), text, why);
    }
}

/// Opens so many structures, one in the other, and closes them.
fn nested(rt: &impl Abort, alloc: Global, levels: usize) -> String {
    let mut text = "<BatchItem>".repeat(alloc, levels).expect(rt, "memory");
    let close = "</BatchItem>".repeat(alloc, levels).expect(rt, "memory");
    text.push_str(close.as_str()).expect(rt, "memory");
    text
}

#[test]
fn levels_are_counted(rt: HostRuntime) {
    let most = nested(&rt, rt.alloc(), 64);
    assert!(rt; from_xml(rt.alloc(), most.as_str()).err().is_none());
    let deeper = nested(&rt, rt.alloc(), 65);
    let why = "line 1, column 706: expected at most 64 levels of items, found an element";
    is_refused(&rt, rt.alloc(), deeper.as_str(), why);
}
