//! Writing a tree as XML.
ghost use Rattle.std.specs.Prelude.{◌≡◌, ◌++◌, IfOk, None};
ghost use Rattle.std.specs.Str.{chars};
ghost use Rattle.std.specs.Fmt.{signed_decimal};
ghost use Rattle.hex.specs.Hex.{encode_upper};
ghost use Rattle.kmip_shape.specs.Shown.{truth_shown};
ghost use Rattle.kmip_wire.specs.declared.kind.Kind.TheVariants.{Integer, Enumeration, Boolean};
ghost use Rattle.kmip_wire.specs.declared.kind.Kind.TheVariants.{DateTime};
ghost use Rattle.kmip_tags.specs.Tags.{ATTRIBUTE_VALUE};
ghost use Rattle.kmip_encodings.specs.Texts.{enumeration_text, date_text};
ghost use Rattle.kmip_wire.specs.Tree.{structure, trees_of};
ghost use Rattle.kmip_encodings.specs.XmlGrammar.{IsElement, is_xml_char};
ghost use Rattle.kmip_encodings.specs.Xml.{xml_char, escaped, attribute_xml, start_xml, end_xml};
ghost use Rattle.kmip_encodings.specs.Xml.{integer_text, item_xml, name_xml, xml_at, xml_of};

use crate::context::{named_after, place, unnamed};
use crate::laws::written_xml;
use crate::text::{bytes_text, date_text, enumeration_text, mask_text, tag_digits};
use crate::words::tag_word;
use itoa::Buffer;
use kmip_wire::{Kind, Node, OutOfMemory, Tag, Text, Tree};
use std::alloc::Global;

/// Whether XML has the character.
fn is_xml_char(ch: char) -> bool
    ensures { result ≡ is_xml_char ch }
{
    matches!(
        ch,
        '\t' | '\n' | '\r' | ' '..='\u{d7ff}' | '\u{e000}'..='\u{fffd}' | '\u{10000}'..='\u{10ffff}'
    )
}

/// Appends a character of the value of an attribute.
fn put_escaped(out: &mut Text, ch: char) -> Result<(), OutOfMemory>
    ensures { IfOk result (λ _. out.new ≡ out.old ++ xml_char ch) }
{
    match ch {
        '"' => out.push_str("&quot;"),
        '&' => out.push_str("&amp;"),
        '<' => out.push_str("&lt;"),
        '>' => out.push_str("&gt;"),
        '\t' => out.push_str("&#9;"),
        '\n' => out.push_str("&#10;"),
        '\r' => out.push_str("&#13;"),
        _ if is_xml_char(ch) => out.push(ch),
        _ => out.push_str("\u{fffd}"),
    }
}

/// Appends the value of an attribute.
fn put_value(value: &str, out: &mut Text) -> Result<(), OutOfMemory>
    ensures { IfOk result (λ _. out.new ≡ out.old ++ escaped (chars value.now)) }
{
    for ch in value.chars() {
        put_escaped(out, ch)?;
    }
    Ok(())
}

/// Appends a space and an attribute.
fn put_attribute(name: &str, value: &str, out: &mut Text) -> Result<(), OutOfMemory>
    ensures { IfOk result (λ _. out.new ≡ out.old ++ attribute_xml name.now value.now) }
{
    out.push_str(" ")?;
    out.push_str(name)?;
    out.push_str("=\"")?;
    put_value(value, out)?;
    out.push_str("\"")
}

/// Appends the name of an element whose tag has none, with the tag as an attribute.
fn put_unnamed(alloc: Global, tag: Tag, out: &mut Text) -> Result<(), OutOfMemory>
    ensures { IfOk result (λ _. out.new ≡ out.old ++ name_xml None tag) }
{
    let digits = tag_digits(alloc, tag)?;
    out.push_str("TTLV")?;
    put_attribute("tag", digits.as_str(), out)
}

/// Appends the start of an element, with its name.
fn put_start(alloc: Global, tag: Tag, out: &mut Text) -> Result<(), OutOfMemory>
    ensures { IfOk result (λ _. out.new ≡ out.old ++ start_xml tag) }
{
    out.push_str("<")?;
    match tag_word(tag) {
        Some(word) => out.push_str(word),
        None => put_unnamed(alloc, tag, out),
    }
}

/// Appends the end of an element that has others in it.
fn put_end(tag: Tag, out: &mut Text) -> Result<(), OutOfMemory>
    ensures { IfOk result (λ _. out.new ≡ out.old ++ end_xml tag) }
{
    out.push_str("</")?;
    match tag_word(tag) {
        Some(word) => out.push_str(word)?,
        None => out.push_str("TTLV")?,
    }
    out.push_str(">")
}

/// Appends an item that is no structure.
fn put_item(
    alloc: Global,
    tag: Tag,
    kind: Kind,
    value: &str,
    out: &mut Text,
) -> Result<(), OutOfMemory>
    ensures { IfOk result (λ _. out.new ≡ out.old ++ item_xml tag kind value.now) }
{
    put_start(alloc, tag, out)?;
    put_attribute("type", kind.name(), out)?;
    put_attribute("value", value, out)?;
    out.push_str("/>")
}

fn put_number(
    alloc: Global,
    tag: Tag,
    kind: Kind,
    number: i64,
    out: &mut Text,
) -> Result<(), OutOfMemory>
    ensures { IfOk result (λ _. out.new ≡ out.old ++ item_xml tag kind (signed_decimal number)) }
{
    put_item(alloc, tag, kind, Buffer::new().format(number), out)
}

fn put_integer(
    alloc: Global,
    tag: Tag,
    place: Tag,
    number: i32,
    out: &mut Text,
) -> Result<(), OutOfMemory>
    ensures { IfOk result
        (λ _. out.new ≡ out.old ++ item_xml tag Integer (integer_text place number)) }
{
    match mask_text(alloc, " ", place, number)? {
        Some(names) => put_item(alloc, tag, Kind::Integer, names.as_str(), out),
        None => put_number(alloc, tag, Kind::Integer, number as i64, out),
    }
}

fn truth_text(truth: bool) -> &'static str
    ensures { result.now ≡ truth_shown truth }
{
    if truth { "true" } else { "false" }
}

fn put_truth(alloc: Global, tag: Tag, truth: bool, out: &mut Text) -> Result<(), OutOfMemory>
    ensures { IfOk result
        (λ _. out.new ≡ out.old ++ item_xml tag Boolean (truth_shown truth)) }
{
    put_item(alloc, tag, Kind::Boolean, truth_text(truth), out)
}

fn put_bytes(
    alloc: Global,
    tag: Tag,
    kind: Kind,
    bytes: &[u8],
    out: &mut Text,
) -> Result<(), OutOfMemory>
    ensures { IfOk result (λ _. out.new ≡ out.old ++ item_xml tag kind (encode_upper bytes.now)) }
{
    let digits = bytes_text(alloc, bytes)?;
    put_item(alloc, tag, kind, digits.as_str(), out)
}

fn put_name(
    alloc: Global,
    tag: Tag,
    place: Tag,
    number: u32,
    out: &mut Text,
) -> Result<(), OutOfMemory>
    ensures { IfOk result
        (λ _. out.new ≡ out.old ++ item_xml tag Enumeration (enumeration_text place number)) }
{
    let name = enumeration_text(alloc, place, number)?;
    put_item(alloc, tag, Kind::Enumeration, name.as_str(), out)
}

fn put_date(alloc: Global, tag: Tag, seconds: u64, out: &mut Text) -> Result<(), OutOfMemory>
    ensures { IfOk result
        (λ _. out.new ≡ out.old ++ item_xml tag DateTime (date_text seconds)) }
{
    let date = date_text(alloc, seconds)?;
    put_item(alloc, tag, Kind::DateTime, date.as_str(), out)
}

#[cycle(write)]
fn put_tree(alloc: Global, named: Tag, tree: &Tree, out: &mut Text) -> Result<(), OutOfMemory>
    ensures { IfOk result (λ _. out.new ≡ out.old ++ xml_at named tree.now) }
{
    let tag = tree.tag;
    match &tree.node {
        Node::Structure(items) => put_structure(alloc, tag, items.as_slice(), out),
        Node::Integer(number) => put_integer(alloc, tag, place(named, tag), *number, out),
        Node::LongInteger(number) => put_number(alloc, tag, Kind::LongInteger, *number, out),
        Node::BigInteger(bytes) => {
            put_bytes(alloc, tag, Kind::BigInteger, bytes.as_slice(), out)
        }
        Node::Enumeration(number) => put_name(alloc, tag, place(named, tag), *number, out),
        Node::Boolean(truth) => put_truth(alloc, tag, *truth, out),
        Node::TextString(text) => put_item(alloc, tag, Kind::TextString, text.as_str(), out),
        Node::ByteString(bytes) => {
            put_bytes(alloc, tag, Kind::ByteString, bytes.as_slice(), out)
        }
        Node::DateTime(seconds) => put_date(alloc, tag, *seconds, out),
        Node::Interval(seconds) => put_number(alloc, tag, Kind::Interval, *seconds as i64, out),
    }
}

#[cycle(write)]
fn put_structure(alloc: Global, tag: Tag, items: &[Tree], out: &mut Text) -> Result<(), OutOfMemory>
    ensures { IfOk result
        (λ _. out.new ≡ out.old ++ xml_at ATTRIBUTE_VALUE (structure tag (trees_of items.now))) }
{
    put_start(alloc, tag, out)?;
    out.push_str(">")?;
    let mut named = unnamed();
    for item in items {
        put_tree(alloc, named, item, out)?;
        named = named_after(named, item);
    }
    put_end(tag, out)
}

/// The tree's XML: an element whose name is that of the tag as one word, with the attributes `type`
/// and `value`; a structure has neither, and an element for each of its items.
///
/// A tag that has no name is the attribute `tag` of an element `TTLV`, as `0x` and six digits. The
/// values are as in `to_json`, but for a mask, whose names have a space between two, a Long Integer,
/// which is always in decimal, and a Big Integer, whose digits stand without `0x`. U+FFFD stands for
/// each character that XML lacks: the control characters but tab, line feed and carriage return,
/// U+FFFE and U+FFFF. There is no white space between elements, and no declaration before the first.
/// It fails only where memory runs out.
pub fn to_xml(alloc: Global, tree: &Tree) -> Result<Text, OutOfMemory>
    ensures text { IfOk result (λ text. text ≡ xml_of tree.now) }
    ensures xml { IfOk result IsElement }
{
    written_xml();
    let mut out = Text::new(alloc);
    put_tree(alloc, unnamed(), tree, &mut out)?;
    Ok(out)
}
