//! Items and messages in the notation.
use crate::error::NotationError;
use crate::reader::Reader;
use crate::writer::Writer;
use std::alloc::Global;

/// Writes the version 1.`minor`, as headers have it (KMIP 1.0, 6.1).
fn put_version(writer: &mut Writer, minor: i32) -> Result<(), NotationError> {
    writer.begin(0x420069)?;
    writer.put(0x42006A, 2, &1i32.to_be_bytes())?;
    writer.put(0x42006B, 2, &minor.to_be_bytes())?;
    writer.end()?;
    Ok(())
}

/// Writes the batch count 1 (KMIP 1.0, 6.14).
fn put_batch_count(writer: &mut Writer) -> Result<(), NotationError> {
    writer.put(0x42000D, 2, &1i32.to_be_bytes())
}

/// Writes an enumeration.
fn put_enumeration(writer: &mut Writer, tag: u32, number: u32) -> Result<(), NotationError> {
    writer.put(tag, 5, &number.to_be_bytes())
}

/// Begins a request, up to its payload (KMIP 1.0, 7.1).
fn begin_request(writer: &mut Writer, minor: i32, operation: u32) -> Result<(), NotationError> {
    writer.begin(0x420078)?;
    writer.begin(0x420077)?;
    put_version(writer, minor)?;
    put_batch_count(writer)?;
    writer.end()?;
    writer.begin(0x42000F)?;
    put_enumeration(writer, 0x42005C, operation)?;
    writer.begin(0x420079)
}

/// Begins a response, up to what its batch item holds (KMIP 1.0, 7.2).
fn begin_response(writer: &mut Writer, minor: i32) -> Result<(), NotationError> {
    writer.begin(0x42007B)?;
    writer.begin(0x42007A)?;
    put_version(writer, minor)?;
    writer.put(0x420092, 9, &1u64.to_be_bytes())?;
    put_batch_count(writer)?;
    writer.end()?;
    writer.begin(0x42000F)
}

/// Begins the payload of a response of success.
fn begin_success(writer: &mut Writer, operation: u32) -> Result<(), NotationError> {
    put_enumeration(writer, 0x42005C, operation)?;
    put_enumeration(writer, 0x42007F, 0)?;
    writer.begin(0x42007C)
}

/// The word that begins a message.
#[derive(Clone, Copy)]
enum Word {
    Request,
    Response,
    Success,
}

/// The word that stands next, if one does.
fn word_of(reader: &mut Reader<'_>) -> Option<Word> {
    if reader.passes(b"REQ") {
        Some(Word::Request)
    } else if reader.passes(b"RES") {
        Some(Word::Response)
    } else if reader.passes(b"OK") {
        Some(Word::Success)
    } else {
        None
    }
}

/// The minor version after a word, and the round bracket that follows.
fn minor_of(reader: &mut Reader<'_>) -> Option<i32> {
    let minor = i32::try_from(reader.number()?).ok()?;
    if reader.passes(b"(") {
        Some(minor)
    } else {
        None
    }
}

/// Begins the message of a word, and returns how many structures its last bracket ends.
fn begin_message(
    reader: &mut Reader<'_>,
    writer: &mut Writer,
    word: Word,
) -> Result<u8, NotationError> {
    let Some(minor) = minor_of(reader) else {
        return Err(reader.refuse());
    };
    if let Word::Response = word {
        begin_response(writer, minor)?;
        return Ok(2);
    }
    let Some(operation) = reader.hex_number() else {
        return Err(reader.refuse());
    };
    if let Word::Request = word {
        begin_request(writer, minor, operation)?;
    } else {
        begin_response(writer, minor)?;
        begin_success(writer, operation)?;
    }
    Ok(3)
}

/// Writes a number of so many bytes, or refuses one that does not fit.
fn put_number(
    reader: &mut Reader<'_>,
    writer: &mut Writer,
    tag: u32,
    kind: u8,
) -> Result<(), NotationError> {
    let Some(number) = reader.number() else {
        return Err(reader.refuse());
    };
    match kind {
        b'i' => match i32::try_from(number) {
            Ok(number) => writer.put(tag, 2, &number.to_be_bytes()),
            Err(_) => Err(reader.refuse()),
        },
        b'l' => match i64::try_from(number) {
            Ok(number) => writer.put(tag, 3, &number.to_be_bytes()),
            Err(_) => Err(reader.refuse()),
        },
        b'o' => match u64::try_from(number) {
            Ok(number) => writer.put(tag, 6, &number.to_be_bytes()),
            Err(_) => Err(reader.refuse()),
        },
        b'd' => match u64::try_from(number) {
            Ok(number) => writer.put(tag, 9, &number.to_be_bytes()),
            Err(_) => Err(reader.refuse()),
        },
        _ => match u32::try_from(number) {
            Ok(number) => writer.put(tag, 10, &number.to_be_bytes()),
            Err(_) => Err(reader.refuse()),
        },
    }
}

/// Begins as many structures of this tag, each in the one before, as the number that stands next
/// says, and returns how many these are.
fn begin_nested(
    reader: &mut Reader<'_>,
    writer: &mut Writer,
    tag: u32,
) -> Result<u8, NotationError> {
    let count = match reader.number() {
        Some(number) => u8::try_from(number).unwrap_or(0),
        None => 0,
    };
    if !reader.passes(b"{") {
        return Err(reader.refuse());
    }
    for _ in 0..count {
        writer.begin(tag)?;
    }
    Ok(count)
}

/// Writes the value that stands after a tag, and returns how many structures it begins.
fn put_value(
    alloc: Global,
    reader: &mut Reader<'_>,
    writer: &mut Writer,
    tag: u32,
) -> Result<Option<u8>, NotationError> {
    match reader.next() {
        Some(b'{') => {
            writer.begin(tag)?;
            return Ok(Some(1));
        }
        Some(b'^') => return Ok(Some(begin_nested(reader, writer, tag)?)),
        Some(b'"') => writer.put(tag, 7, &reader.quoted(alloc)?)?,
        Some(b'x') => writer.put(tag, 8, &reader.hex_bytes(alloc)?)?,
        Some(b'b') => writer.put(tag, 4, &reader.hex_bytes(alloc)?)?,
        Some(b'e') => match reader.hex_number() {
            Some(number) => put_enumeration(writer, tag, number)?,
            None => return Err(reader.refuse()),
        },
        Some(kind @ (b'i' | b'l' | b'o' | b'd' | b'n')) => put_number(reader, writer, tag, kind)?,
        _ => return Err(reader.refuse()),
    }
    Ok(None)
}

/// Writes an item or begins a message or a structure, and returns how many structures its last
/// bracket ends, where it has one.
fn put_item(
    alloc: Global,
    reader: &mut Reader<'_>,
    writer: &mut Writer,
) -> Result<Option<u8>, NotationError> {
    if let Some(word) = word_of(reader) {
        return Ok(Some(begin_message(reader, writer, word)?));
    }
    if reader.passes(b"!") {
        writer.put_bytes(&reader.hex_bytes(alloc)?)?;
        return Ok(None);
    }
    let Some(tag) = reader.tag() else {
        return Err(reader.refuse());
    };
    reader.pass_spaces();
    put_value(alloc, reader, writer, tag)
}

/// Ends so many structures.
fn end_all(reader: &Reader<'_>, writer: &mut Writer, count: u8) -> Result<(), NotationError> {
    for _ in 0..count {
        if !writer.end()? {
            return Err(reader.refuse());
        }
    }
    Ok(())
}

/// The bytes of the items that stand next, up to `>` or the end of the text.
fn items(alloc: Global, reader: &mut Reader<'_>) -> Result<Vec<u8>, NotationError> {
    let mut writer = Writer::new(alloc);
    let mut brackets = Vec::new(alloc);
    for _ in 0..reader.rest().len() {
        reader.pass_spaces();
        match reader.rest().first() {
            None | Some(b'>') => break,
            Some(b'}' | b')') => {
                reader.next();
                let Some(count) = brackets.pop() else {
                    return Err(reader.refuse());
                };
                end_all(reader, &mut writer, count)?;
            }
            Some(_) => {
                if let Some(count) = put_item(alloc, reader, &mut writer)? {
                    brackets.push(count)?;
                }
            }
        }
    }
    match writer.finish() {
        Some(bytes) => Ok(bytes),
        None => Err(reader.refuse()),
    }
}

/// The bytes of the items of a text.
pub fn message(alloc: Global, notation: &str) -> Result<Vec<u8>, NotationError> {
    let mut reader = Reader::new(notation.as_bytes());
    let bytes = items(alloc, &mut reader)?;
    if reader.rest().is_empty() {
        Ok(bytes)
    } else {
        Err(reader.refuse())
    }
}

/// Whether items in the notation follow `<` here: two hex digits, or a word.
fn begins_items(rest: &[u8]) -> bool {
    match rest {
        [first, second, ..] => {
            (first.is_ascii_digit() || (b'A'..=b'F').contains(first))
                && (second.is_ascii_digit() || (b'A'..=b'F').contains(second))
                || rest.starts_with(b"REQ")
                || rest.starts_with(b"RES")
                || rest.starts_with(b"OK")
        }
        _ => false,
    }
}

/// The hex digit of a number below 16.
fn digit(number: u8) -> u8 {
    match number {
        0..=9 => b'0' + number,
        10..=15 => b'A' + (number - 10),
        _ => b'?',
    }
}

/// Appends bytes in upper-case hex.
fn put_hex(out: &mut Vec<u8>, bytes: &[u8]) -> Result<(), NotationError> {
    for byte in bytes {
        out.push(digit(byte / 16))?;
        out.push(digit(byte % 16))?;
    }
    Ok(())
}

/// Appends the hex of the items that stand next, up to `>`.
fn put_items(
    alloc: Global,
    reader: &mut Reader<'_>,
    out: &mut Vec<u8>,
) -> Result<(), NotationError> {
    let bytes = items(alloc, reader)?;
    if reader.passes(b">") {
        put_hex(out, &bytes)
    } else {
        Err(reader.refuse())
    }
}

/// Appends the next byte, or the hex of the items that begin with it.
fn put_next(
    alloc: Global,
    reader: &mut Reader<'_>,
    byte: u8,
    out: &mut Vec<u8>,
) -> Result<(), NotationError> {
    if byte == b'<' && begins_items(reader.rest()) {
        put_items(alloc, reader, out)
    } else {
        out.push(byte)?;
        Ok(())
    }
}

/// A text with each `<ITEMS>` in it replaced by the upper-case hex of their bytes.
pub fn expand(alloc: Global, text: &[u8]) -> Result<Vec<u8>, NotationError> {
    let mut reader = Reader::new(text);
    let mut out = Vec::new(alloc);
    for _ in 0..text.len() {
        match reader.next() {
            Some(byte) => put_next(alloc, &mut reader, byte, &mut out)?,
            None => break,
        }
    }
    Ok(out)
}
