//! What no contract says: bytes made by another program are read and written, and calls succeed
//! where there is memory.
use crate::support::{are_bytes, bytes_of, tag_of};
use kmip_wire::{
    Blob, Buffer, Kind, List, Node, Tag, Text, Tree, Trees, TryClone, check, clone_optional,
    read_tree, write_tree,
};
use std::alloc::Global;
use std::process::Abort;

/// A request for the objects whose Object Type is 4, 152 bytes.
const LOCATE: &str =
    "42007801000000904200770100000038420069010000002042006A0200000004000000010000000042006B0200000004000000000000000042000D0200000004000000010000000042000F010000004842005C050000000400000008000000004200790100000030420008010000002842000A070000000B4F626A6563742054797065000000000042000B05000000040000000400000000";

/// The value of an item, or its children.
#[derive(Clone, Copy)]
enum Value {
    /// A structure with no children.
    Empty,
    /// The structure of a version of the protocol.
    Version(i32, i32),
    Integer(i32),
    LongInteger(i64),
    Big(&'static [u8]),
    Enumeration(u32),
    Boolean(bool),
    Text(&'static str),
    Bytes(&'static [u8]),
    DateTime(u64),
    Interval(u32),
}

/// A text.
fn text(rt: &impl Abort, alloc: Global, text: &str) -> Text {
    Text::of(alloc, text).expect(rt, "memory")
}

/// Bytes.
fn blob(rt: &impl Abort, alloc: Global, bytes: &[u8]) -> Blob {
    Blob::of(alloc, bytes).expect(rt, "memory")
}

/// Adds an integer to the end of the items.
fn add_integer(rt: &impl Abort, items: &mut Trees, tag: u32, number: i32) {
    let tree = Tree {
        tag: tag_of(rt, tag),
        node: Node::Integer(number),
    };
    items.push(tree).expect(rt, "memory");
}

/// The children of a version of the protocol.
fn version(rt: &impl Abort, alloc: Global, major: i32, minor: i32) -> Trees {
    let mut items = Trees::new(alloc);
    add_integer(rt, &mut items, 0x42006A, major);
    add_integer(rt, &mut items, 0x42006B, minor);
    items
}

fn node_of(rt: &impl Abort, alloc: Global, value: Value) -> Node {
    match value {
        Value::Empty => Node::Structure(Trees::new(alloc)),
        Value::Version(major, minor) => Node::Structure(version(rt, alloc, major, minor)),
        Value::Integer(number) => Node::Integer(number),
        Value::LongInteger(number) => Node::LongInteger(number),
        Value::Big(bytes) => Node::BigInteger(blob(rt, alloc, bytes)),
        Value::Enumeration(number) => Node::Enumeration(number),
        Value::Boolean(truth) => Node::Boolean(truth),
        Value::Text(words) => Node::TextString(text(rt, alloc, words)),
        Value::Bytes(bytes) => Node::ByteString(blob(rt, alloc, bytes)),
        Value::DateTime(seconds) => Node::DateTime(seconds),
        Value::Interval(seconds) => Node::Interval(seconds),
    }
}

/// Items, and the bytes that they are written as.
const WRITTEN: &[(u32, Value, &str)] = &[
    (
        0x42006A,
        Value::Integer(-5),
        "42006A0200000004FFFFFFFB00000000",
    ),
    (
        0x420092,
        Value::LongInteger(-2),
        "4200920300000008FFFFFFFFFFFFFFFE",
    ),
    (0x420052, Value::Big(&[]), "4200520400000000"),
    (
        0x420052,
        Value::Big(&[0; 8]),
        "42005204000000080000000000000000",
    ),
    (
        0x42005C,
        Value::Enumeration(0x25),
        "42005C05000000040000002500000000",
    ),
    (
        0x420008,
        Value::Boolean(true),
        "42000806000000080000000000000001",
    ),
    (
        0x420008,
        Value::Boolean(false),
        "42000806000000080000000000000000",
    ),
    (0x420094, Value::Text(""), "4200940700000000"),
    (
        0x420094,
        Value::Text("a"),
        "42009407000000016100000000000000",
    ),
    (
        0x420094,
        Value::Text("abcdefg"),
        "42009407000000076162636465666700",
    ),
    (
        0x420094,
        Value::Text("abcdefgh"),
        "42009407000000086162636465666768",
    ),
    (
        0x420094,
        Value::Text("abcdefghi"),
        "420094070000000961626364656667686900000000000000",
    ),
    (
        0x420055,
        Value::Text("é"),
        "4200550700000002C3A9000000000000",
    ),
    (0x4200C2, Value::Bytes(&[]), "4200C20800000000"),
    (
        0x4200C2,
        Value::Bytes(&[1]),
        "4200C208000000010100000000000000",
    ),
    (
        0x4200C2,
        Value::Bytes(&[1, 2, 3, 4, 5, 6, 7]),
        "4200C208000000070102030405060700",
    ),
    (
        0x4200C2,
        Value::Bytes(&[1, 2, 3, 4, 5, 6, 7, 8]),
        "4200C208000000080102030405060708",
    ),
    (
        0x4200C2,
        Value::Bytes(&[1, 2, 3, 4, 5, 6, 7, 8, 9]),
        "4200C2080000000901020304050607080900000000000000",
    ),
    (
        0x420092,
        Value::DateTime(1_700_000_000),
        "4200920900000008000000006553F100",
    ),
    (
        0x420049,
        Value::Interval(3600),
        "4200490A0000000400000E1000000000",
    ),
    (0x420069, Value::Empty, "4200690100000000"),
    (
        0x420069,
        Value::Version(1, 2),
        "420069010000002042006A0200000004000000010000000042006B02000000040000000200000000",
    ),
];

/// The tree is written as these bytes.
fn is_written(rt: &impl Abort, alloc: Global, tree: &Tree, hex: &str) {
    let bytes = write_tree(alloc, tree).expect(rt, "a form");
    are_bytes(rt, alloc, bytes.as_slice(), hex);
}

/// The item of this value is written as these bytes.
fn is_item(rt: &impl Abort, alloc: Global, number: u32, value: Value, hex: &str) {
    let tree = Tree {
        tag: tag_of(rt, number),
        node: node_of(rt, alloc, value),
    };
    is_written(rt, alloc, &tree, hex);
    drop(tree);
}

#[test]
fn trees_have_their_canonical_bytes(rt: HostRuntime) {
    for (number, value, hex) in WRITTEN {
        is_item(&rt, rt.alloc(), *number, *value, hex);
    }
}

/// The value has a copy that equals it.
fn is_copied<T: TryClone + PartialEq + Drop>(rt: &impl Abort, alloc: Global, value: &T) {
    let copy = value.try_clone(alloc).expect(rt, "memory");
    assert!(rt; copy == *value);
}

#[test]
fn reads_the_item_at_the_front(rt: HostRuntime) {
    let mut longer = bytes_of(&rt, rt.alloc(), LOCATE);
    longer.push(0).expect(&rt, "memory");
    let front = longer.get(..152).expect(&rt, "bytes");
    assert!(rt; check(front) && !check(longer.as_slice()));
    let (tree, size) = read_tree(rt.alloc(), longer.as_slice()).expect(&rt, "an item");
    assert_eq!(rt; size, 152);
    is_written(&rt, rt.alloc(), &tree, LOCATE);
    is_copied::<Tree>(&rt, rt.alloc(), &tree);
    drop(tree);
}

/// Structures of 65 levels, each the only child of the one before.
const NESTED: &str = concat!(
    "540002010000020054000201000001F854000201000001F054000201000001E854000201000001E0",
    "54000201000001D854000201000001D054000201000001C854000201000001C054000201000001B8",
    "54000201000001B054000201000001A854000201000001A054000201000001985400020100000190",
    "54000201000001885400020100000180540002010000017854000201000001705400020100000168",
    "54000201000001605400020100000158540002010000015054000201000001485400020100000140",
    "54000201000001385400020100000130540002010000012854000201000001205400020100000118",
    "54000201000001105400020100000108540002010000010054000201000000F854000201000000F0",
    "54000201000000E854000201000000E054000201000000D854000201000000D054000201000000C8",
    "54000201000000C054000201000000B854000201000000B054000201000000A854000201000000A0",
    "54000201000000985400020100000090540002010000008854000201000000805400020100000078",
    "54000201000000705400020100000068540002010000006054000201000000585400020100000050",
    "54000201000000485400020100000040540002010000003854000201000000305400020100000028",
    "54000201000000205400020100000018540002010000001054000201000000085400020100000000",
);

/// Levels of structures, where the bytes of the innermost ones of so many begin, and whether they
/// are an item.
const LEVELS: &[(u32, usize, bool)] = &[
    (1, 512, true),
    (63, 16, true),
    (64, 8, true),
    (65, 0, false),
];

/// Structures of so many levels are an item or not.
fn is_good(rt: &impl Abort, alloc: Global, levels: u32, bytes: &[u8], is_good: bool) {
    assert!(rt; check(bytes) == is_good, "{levels}");
    let error = read_tree(alloc, bytes).err();
    assert!(rt; error.is_none() == is_good, "{levels}");
}

#[test]
fn stops_at_sixty_four_levels(rt: HostRuntime) {
    let nested = bytes_of(&rt, rt.alloc(), NESTED);
    for (levels, start, good) in LEVELS {
        let bytes = nested.get(*start..).expect(&rt, "bytes");
        is_good(&rt, rt.alloc(), *levels, bytes, *good);
    }
}

/// Adds "me" to the end.
fn add_me(rt: &impl Abort, name: &mut Text) {
    name.reserve(2).expect(rt, "memory");
    name.push('m').expect(rt, "memory");
    name.push_str("e").expect(rt, "memory");
}

#[test]
fn texts_grow_and_are_copied(rt: HostRuntime) {
    let alloc = rt.alloc();
    let mut name = text(&rt, alloc, "na");
    add_me(&rt, &mut name);
    assert!(rt; name.as_str() == "name");
    is_copied::<Text>(&rt, alloc, &name);
    let mut bytes = blob(&rt, alloc, &[1, 2]);
    bytes.push_slice(&[3]).expect(&rt, "memory");
    assert!(rt; bytes.as_slice() == [1, 2, 3].as_slice());
    is_copied::<Blob>(&rt, alloc, &bytes);
}

/// A list of one text.
fn names(rt: &impl Abort, alloc: Global) -> List<Text> {
    let mut names = List::new(alloc);
    names.push(text(rt, alloc, "name")).expect(rt, "memory");
    names
}

#[test]
fn lists_are_copied(rt: HostRuntime) {
    let alloc = rt.alloc();
    let names = Some(names(&rt, alloc));
    let copy = clone_optional(&names, alloc).expect(&rt, "memory");
    assert!(rt; copy == names);
    is_copied::<Trees>(&rt, alloc, &version(&rt, alloc, 1, 0));
}

#[test]
fn a_buffer_has_the_items_put_into_it(rt: HostRuntime) {
    let alloc = rt.alloc();
    let mut out = Buffer::new(alloc);
    out.reserve(16).expect(&rt, "memory");
    out.put_item(Tag::of(0x42000D), Kind::ByteString, &[7]);
    are_bytes(
        &rt,
        alloc,
        out.as_slice(),
        "42000D08000000010700000000000000",
    );
    out.reset(16).expect(&rt, "memory");
    out.put_four(Tag::of(0x42000D), Kind::Integer, 1);
    are_bytes(
        &rt,
        alloc,
        out.as_slice(),
        "42000D02000000040000000100000000",
    );
    out.reset(24).expect(&rt, "memory");
    out.put_eight(Tag::of(0x420008), Kind::Boolean, 1);
    are_bytes(
        &rt,
        alloc,
        out.as_slice(),
        "42000806000000080000000000000001",
    );
}
