//! Values without parts, written as whole items, and the lengths of those items.

ghost use Rattle.std.specs.Prelude.{◌≡◌, ◌≤◌, ◌<◌, ◌^◌, ◌%◌, length};
ghost use Rattle.kmip_wire.specs.Room.{Appends};
ghost use Rattle.kmip_wire.specs.Tree.{integer, long_integer, big_integer, enumeration, boolean};
ghost use Rattle.kmip_wire.specs.Tree.{text_string, byte_string, date_time, interval};
ghost use Rattle.kmip_shape.specs.Writes.{structure_head, leaf_size, leaf_text, maybe_len};
ghost use Rattle.std.specs.Prelude.{Some as some};

use kmip_wire::{Buffer, Kind, Tag};

/// The length of an item whose value has 4 or 8 bytes, with its head and its padding.
pub const SCALAR_LEN: u64 = 16;

/// Appends the head of a structure of so many bytes.
#[tactic(auto, unfolding(crate::specs::Writes::structure_head))]
#[inline(always)]
pub fn put_structure(tag: Tag, len: u32, out: &mut Buffer)
    requires { 8 ≤ out.old.spare }
    ensures { Appends out.old out.new (structure_head tag len) 8 }
{
    out.put_head(tag, Kind::Structure, len);
}

/// Appends an Integer.
#[inline(always)]
pub fn put_integer(tag: Tag, value: i32, out: &mut Buffer)
    requires { leaf_size (integer value) ≤ out.old.spare }
    ensures { Appends out.old out.new (leaf_text tag (integer value)) (leaf_size (integer value)) }
{
    out.put_four(tag, Kind::Integer, value.cast_unsigned());
}

/// Appends a Long Integer.
pub fn put_long_integer(tag: Tag, value: i64, out: &mut Buffer)
    requires { leaf_size (long_integer value) ≤ out.old.spare }
    ensures { Appends out.old out.new (leaf_text tag (long_integer value))
        (leaf_size (long_integer value)) }
{
    out.put_eight(tag, Kind::LongInteger, value.cast_unsigned());
}

/// Appends a Big Integer, whose length is a multiple of 8.
pub fn put_big_integer(tag: Tag, value: &[u8], out: &mut Buffer)
    requires form { length value.now < 2 ^ 32 }
    requires room { leaf_size (big_integer value.now) ≤ out.old.spare }
    ensures { Appends out.old out.new (leaf_text tag (big_integer value.now))
        (leaf_size (big_integer value.now)) }
{
    out.put_item(tag, Kind::BigInteger, value);
}

/// Appends an Enumeration.
#[inline(always)]
pub fn put_enumeration(tag: Tag, value: u32, out: &mut Buffer)
    requires { leaf_size (enumeration value) ≤ out.old.spare }
    ensures { Appends out.old out.new (leaf_text tag (enumeration value))
        (leaf_size (enumeration value)) }
{
    out.put_four(tag, Kind::Enumeration, value);
}

/// Appends a Boolean.
pub fn put_boolean(tag: Tag, value: bool, out: &mut Buffer)
    requires { leaf_size (boolean value) ≤ out.old.spare }
    ensures { Appends out.old out.new (leaf_text tag (boolean value)) (leaf_size (boolean value)) }
{
    out.put_eight(tag, Kind::Boolean, value as u64);
}

/// Appends a Text String.
pub fn put_text(tag: Tag, value: &str, out: &mut Buffer)
    requires form { length value.now < 2 ^ 32 }
    requires room { leaf_size (text_string value.now) ≤ out.old.spare }
    ensures { Appends out.old out.new (leaf_text tag (text_string value.now))
        (leaf_size (text_string value.now)) }
{
    out.put_item(tag, Kind::TextString, value.as_bytes());
}

/// Appends a Byte String.
pub fn put_bytes(tag: Tag, value: &[u8], out: &mut Buffer)
    requires form { length value.now < 2 ^ 32 }
    requires room { leaf_size (byte_string value.now) ≤ out.old.spare }
    ensures { Appends out.old out.new (leaf_text tag (byte_string value.now))
        (leaf_size (byte_string value.now)) }
{
    out.put_item(tag, Kind::ByteString, value);
}

/// Appends a Date-Time, whose eight bytes are those of the number.
pub fn put_date(tag: Tag, value: u64, out: &mut Buffer)
    requires { leaf_size (date_time value) ≤ out.old.spare }
    ensures { Appends out.old out.new (leaf_text tag (date_time value))
        (leaf_size (date_time value)) }
{
    out.put_eight(tag, Kind::DateTime, value);
}

/// Appends an Interval, in seconds.
pub fn put_interval(tag: Tag, value: u32, out: &mut Buffer)
    requires { leaf_size (interval value) ≤ out.old.spare }
    ensures { Appends out.old out.new (leaf_text tag (interval value))
        (leaf_size (interval value)) }
{
    out.put_four(tag, Kind::Interval, value);
}

/// The length of a Text String's item, and `None` where the text has 2^32 bytes or more.
pub fn text_len(value: &str) -> Option<u64>
    ensures { result ≡ maybe_len (some (text_string value.now)) }
{
    let len = value.len() as u64;
    if len < 1 << 32 {
        Some(8 + len + (8 - len % 8) % 8)
    } else {
        None
    }
}

/// The length of a Byte String's item, and `None` where there are 2^32 bytes or more.
pub fn bytes_len(value: &[u8]) -> Option<u64>
    ensures { result ≡ maybe_len (some (byte_string value.now)) }
{
    let len = value.len() as u64;
    if len < 1 << 32 {
        Some(8 + len + (8 - len % 8) % 8)
    } else {
        None
    }
}

/// The length of a Big Integer's item, and `None` where there are 2^32 bytes or more, or their
/// number is no multiple of 8.
pub fn big_integer_len(value: &[u8]) -> Option<u64>
    ensures { result ≡ maybe_len (some (big_integer value.now)) }
{
    let len = value.len() as u64;
    if len % 8 == 0 && len < 1 << 32 {
        Some(8 + len)
    } else {
        None
    }
}
