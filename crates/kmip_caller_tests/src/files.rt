//! Words that name a file, and the words with what it has.
use crate::support::list_of;
use kmip_caller::{file_in, with_contents};
use kmip_wire::{List, Text};
use kmip_words::{Kind, calls};
use std::alloc::Global;
use std::process::Abort;
use std::test::Fail;

/// Words of a call, the place of the word that names a file, the file, what it has, and the words with
/// that.
#[derive(Clone, Copy)]
struct Row {
    words: &'static [&'static str],
    place: usize,
    file: &'static str,
    contents: &'static [u8],
    put: Option<&'static [&'static str]>,
}

const ROWS: &[Row] = &[
    Row {
        words: &["raw", "@a file"],
        place: 1,
        file: "a file",
        contents: b"\x00\xFF",
        put: Some(&["raw", "00FF"]),
    },
    Row {
        words: &["sign", "@k", "@3", "hash=SHA256"],
        place: 2,
        file: "3",
        contents: b"\x0A",
        put: Some(&["sign", "@k", "0A", "hash=SHA256"]),
    },
    Row {
        words: &["register", "symmetric", "@./3", "format=Raw"],
        place: 2,
        file: "./3",
        contents: b"@4",
        put: Some(&["register", "symmetric", "4034", "format=Raw"]),
    },
    Row {
        words: &["sign", "k", "@"],
        place: 2,
        file: "",
        contents: b"",
        put: Some(&["sign", "k", "-"]),
    },
    Row {
        words: &["operation", "Get", "@get.json"],
        place: 2,
        file: "get.json",
        contents: b"{}\n",
        put: Some(&["operation", "Get", "{}\n"]),
    },
    Row {
        words: &["operation", "Get", "version=1.0", "@3"],
        place: 3,
        file: "3",
        contents: b"-",
        put: Some(&["operation", "Get", "version=1.0", "-"]),
    },
    Row {
        words: &["encrypt", "@k", "@d.bin", "iv=@3"],
        place: 2,
        file: "d.bin",
        contents: b"\x68\x69",
        put: Some(&["encrypt", "@k", "6869", "iv=@3"]),
    },
    Row {
        words: &["item-id=0A", "hash", "@3", "hash=SHA256"],
        place: 2,
        file: "3",
        contents: b"",
        put: Some(&["item-id=0A", "hash", "-", "hash=SHA256"]),
    },
    Row {
        words: &["mac-verify", "7", "00FF", "@code"],
        place: 3,
        file: "code",
        contents: b"\xAB\xCD",
        put: Some(&["mac-verify", "7", "00FF", "ABCD"]),
    },
    Row {
        words: &["message", "@3"],
        place: 1,
        file: "3",
        contents: b"\xFF",
        put: None,
    },
];

/// Words of calls that name no file, although some begin with its sign.
const NO_FILE: &[&[&str]] = &[
    &[],
    &["sign", "k", "00"],
    &["sign", "@k", "00"],
    &["sign", "@k"],
    &["get", "@k"],
    &["rename", "k", "@name"],
    &["locate", "@name"],
    &["operation", "@Get", "{}"],
    &["@raw", "00"],
    &["raw"],
    &["message"],
    &["encrypt", "@k", "00", "iv=@3"],
    &["archive", "@5"],
    &["item-id=@3", "archive", "5"],
    &["item-id=0A", "sign", "k", "@3"],
];

/// The words that name a file.
fn rows() -> &'static [Row] {
    ROWS
}

/// The words that name none.
fn words_without_file() -> &'static [&'static [&'static str]] {
    NO_FILE
}

/// The same words as these texts.
fn are(list: &List<Text>, words: &[&str]) -> bool {
    list.len() == words.len()
        && list
            .as_slice()
            .iter()
            .zip(words.iter())
            .all(|(text, word)| text.as_str() == *word)
}

/// More places than any row has words.
const PLACES: usize = 8;

/// That these words name this file at this place, and no other.
fn are_naming(
    rt: &impl Abort,
    alloc: Global,
    words: &[&str],
    file: Option<(usize, &str)>,
) -> Result<(), Fail> {
    let words = list_of(alloc, words)?;
    for place in 0..PLACES {
        let wanted = match file {
            Some((at, name)) if at == place => Some(name),
            _ => None,
        };
        assert_eq!(rt; file_in(words.as_slice(), place), wanted, "{place}");
    }
    Ok(())
}

#[test]
fn a_file_is_named_where_bytes_or_json_stand(rt: HostRuntime) -> Result<(), Fail> {
    for row in rows() {
        are_naming(&rt, rt.alloc(), row.words, Some((row.place, row.file)))?;
    }
    for words in words_without_file() {
        are_naming(&rt, rt.alloc(), words, None)?;
    }
    Ok(())
}

#[test]
fn each_of_two_words_may_name_a_file(rt: HostRuntime) -> Result<(), Fail> {
    let words = list_of(
        rt.alloc(),
        &["item-id=0A", "verify", "@9", "@data", "@signature"],
    )?;
    let names = [
        file_in(words.as_slice(), 2),
        file_in(words.as_slice(), 3),
        file_in(words.as_slice(), 4),
    ];
    assert_eq!(rt; names, [None, Some("data"), Some("signature")]);
    Ok(())
}

#[test]
fn what_a_file_has_stands_in_the_place_of_its_word(rt: HostRuntime) -> Result<(), Fail> {
    for row in rows() {
        let words = list_of(rt.alloc(), row.words)?;
        let found = with_contents(rt.alloc(), row.contents, row.place, words.as_slice())?;
        let is_right = match (&found, row.put) {
            (Some(found), Some(put)) => are(found, put),
            (None, None) => true,
            _ => false,
        };
        assert!(rt; is_right, "{}", row.file);
        let elsewhere = with_contents(rt.alloc(), row.contents, 0, words.as_slice())?;
        assert!(rt; elsewhere.is_none(), "{}", row.file);
    }
    Ok(())
}

/// Whether a word of this kind may name a file.
fn may_be_named(kind: Kind) -> bool {
    kind == Kind::Hex || kind == Kind::Request || kind == Kind::Payload || kind == Kind::Message
}

#[test]
fn each_call_of_bytes_or_json_takes_a_file_for_them(rt: HostRuntime) -> Result<(), Fail> {
    for row in calls() {
        let mut words = List::new(rt.alloc());
        words.push(Text::of(rt.alloc(), row.name)?)?;
        for _ in row.words {
            words.push(Text::of(rt.alloc(), "@it")?)?;
        }
        let mut place = 0usize;
        for word in row.words {
            place = place.saturating_add(1);
            let file = if may_be_named(word.kind) {
                Some("it")
            } else {
                None
            };
            assert_eq!(rt; file_in(words.as_slice(), place), file, "{}", row.name);
        }
    }
    Ok(())
}
