//! The values of items as text.
ghost use Rattle.std.specs.Fmt.{signed_decimal};
ghost use Rattle.std.specs.Prelude.{◌≡◌, ◌++◌, ◌∷◌, [], codes, IfOk, option_map};
ghost use Rattle.std.specs.Str.{chars};
ghost use Rattle.hex.specs.Hex.{encode_upper};
ghost use Rattle.kmip_wire.specs.Tree.{integer, enumeration};
ghost use Rattle.kmip_wire.specs.Parts.{scalar_in};
ghost use Rattle.kmip_wire.specs.Items.{item_tree};
ghost use Rattle.kmip_encodings.specs.Texts.{mask_text};
ghost use Rattle.kmip_web.specs.Listing.{is_plain, named, escaped_char, escaped, value_text};

use kmip_encodings::{enumeration_name, mask_text};
use kmip_wire::{ItemRef, OutOfMemory, Tag, Text};
use std::alloc::Global;

fn push_hex(alloc: Global, text: &mut Text, bytes: &[u8]) -> Result<(), OutOfMemory>
    ensures { IfOk result (λ _. text.new ≡ text.old ++ encode_upper bytes.now) }
{
    match hex::encode_upper(alloc, bytes) {
        Ok(made) => text.push_str(made.as_str()),
        Err(_) => Err(OutOfMemory),
    }
}

fn push_signed(alloc: Global, text: &mut Text, number: i64) -> Result<(), OutOfMemory>
    ensures { IfOk result (λ _. text.new ≡ text.old ++ signed_decimal number) }
{
    match format!(in alloc; "{number}") {
        Ok(made) => text.push_str(made.as_str()),
        Err(_) => Err(OutOfMemory),
    }
}

fn push_short(alloc: Global, text: &mut Text, number: i32) -> Result<(), OutOfMemory>
    ensures { IfOk result (λ _. text.new ≡ text.old ++ signed_decimal number) }
{
    push_signed(alloc, text, number as i64)
}

/// Adds of a mask a space, the names of its bits and in hex those that have none; nothing of 0, and of
/// what is no mask.
fn push_mask(alloc: Global, text: &mut Text, tag: Tag, number: i32) -> Result<(), OutOfMemory>
    ensures { IfOk result (λ _. text.new ≡ text.old ++ named (mask_text (codes " ") tag number)) }
{
    match mask_text(alloc, " ", tag, number)? {
        Some(names) => {
            text.push_str(" ")?;
            text.push_str(names.as_str())?;
            Ok(())
        }
        None => Ok(()),
    }
}

/// Adds a number, and of a mask the names of its bits and in hex those that have none.
fn push_integer(alloc: Global, text: &mut Text, tag: Tag, number: i32) -> Result<(), OutOfMemory>
    ensures { IfOk result (λ _. text.new ≡ text.old ++ value_text tag (integer number)) }
{
    push_short(alloc, text, number)?;
    push_mask(alloc, text, tag, number)?;
    Ok(())
}

/// Adds an enumeration's number, and its name where one is known.
fn push_number(alloc: Global, text: &mut Text, tag: Tag, number: u32) -> Result<(), OutOfMemory>
    ensures { IfOk result (λ _. text.new ≡ text.old ++ value_text tag (enumeration number)) }
{
    let made = match enumeration_name(tag, number) {
        Some(name) => format!(in alloc; "0x{number:X} {name}"),
        None => format!(in alloc; "0x{number:X}"),
    };
    match made {
        Ok(made) => text.push_str(made.as_str()),
        Err(_) => Err(OutOfMemory),
    }
}

/// Whether a character stands for itself.
fn is_plain(ch: char) -> bool
    ensures { result ≡ is_plain ch }
{
    ch as u32 >= 32 && ch as u32 != 92 && ch as u32 != 127
}

fn push_escaped_char(alloc: Global, text: &mut Text, ch: char) -> Result<(), OutOfMemory>
    ensures { IfOk result (λ _. text.new ≡ text.old ++ escaped_char ch) }
{
    if is_plain(ch) {
        return text.push(ch);
    }
    text.push_str("\\")?;
    push_hex(alloc, text, &[ch as u8])
}

fn push_escaped(alloc: Global, text: &mut Text, shown: &str) -> Result<(), OutOfMemory>
    ensures { IfOk result (λ _. text.new ≡ text.old ++ escaped (chars shown.now)) }
{
    for ch in shown.chars() {
        push_escaped_char(alloc, text, ch)?;
    }
    Ok(())
}

/// Adds the value of an item that is no structure; its names are looked up under the tag.
pub fn push_value(
    alloc: Global,
    text: &mut Text,
    tag: Tag,
    item: ItemRef<'_>,
) -> Result<(), OutOfMemory>
    ensures { IfOk result (λ _. option_map (λ s. text.old ++ value_text tag s)
        (scalar_in (item_tree item.entry)) ≡
        option_map (λ _. text.new) (scalar_in (item_tree item.entry))) }
{
    if let Some(number) = item.int() {
        return push_integer(alloc, text, tag, number);
    }
    if let Some(number) = item.long() {
        return push_signed(alloc, text, number);
    }
    if let Some(bytes) = item.big() {
        return push_hex(alloc, text, bytes);
    }
    if let Some(number) = item.enumeration() {
        return push_number(alloc, text, tag, number);
    }
    if let Some(flag) = item.flag() {
        return text.push_str(if flag { "true" } else { "false" });
    }
    if let Some(shown) = item.text() {
        return push_escaped(alloc, text, shown);
    }
    if let Some(bytes) = item.bytes() {
        return push_hex(alloc, text, bytes);
    }
    if let Some(number) = item.date() {
        return push_signed(alloc, text, number.cast_signed());
    }
    if let Some(number) = item.interval() {
        return push_signed(alloc, text, number as i64);
    }
    Ok(())
}
