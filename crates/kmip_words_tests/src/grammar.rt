//! The table of calls, beside what reads them: each call of the table is taken, with each of its
//! options and each name that a value may be, and none with an option of another call.
use crate::support::{call_if_any, text, words};
use kmip_wire::Text;
use kmip_words::{CallRow, Kind, OptionRow, Rest, attribute_rows, calls, names_of, refusal_of};
use std::alloc::Global;
use std::process::Abort;

/// A word of this kind.
fn sample(kind: Kind) -> &'static str {
    match kind {
        Kind::Identifier => "k1",
        Kind::Int | Kind::Seconds => "8",
        Kind::Hex => "00FF",
        Kind::Algorithm => "AES",
        Kind::Format => "Raw",
        Kind::Hash => "SHA256",
        Kind::Padding => "PSS",
        Kind::Reason => "KeyCompromise",
        Kind::ObjectType => "PublicKey",
        Kind::State => "Active",
        Kind::KeyKind => "public",
        Kind::Uses => "Sign,Verify",
        Kind::Attribute => "group=g",
        Kind::Flag => "",
        _ => "n",
    }
}

fn add(rt: &impl Abort, line: &mut Text, part: &str) {
    line.push_str(part).expect(rt, "memory");
}

/// A call by its row, with no option but those that it needs, and not with this one.
fn line_of(rt: &impl Abort, alloc: Global, row: &CallRow, other: &str) -> Text {
    let mut line = text(rt, alloc, row.name);
    if row.rest == Rest::Attributes {
        add(rt, &mut line, " where");
        return line;
    }
    for word in row.words {
        add(rt, &mut line, " ");
        add(rt, &mut line, sample(word.kind));
    }
    for option in row.options {
        if option.is_needed && option.name != other {
            add(rt, &mut line, " ");
            add(rt, &mut line, option.name);
            add(rt, &mut line, sample(option.kind));
        }
    }
    line
}

/// The same with an option and this value.
fn line_with(
    rt: &impl Abort,
    alloc: Global,
    row: &CallRow,
    option: &OptionRow,
    value: &str,
) -> Text {
    let mut line = line_of(rt, alloc, row, option.name);
    add(rt, &mut line, " ");
    add(rt, &mut line, option.name);
    add(rt, &mut line, value);
    line
}

/// That a line is a call, or that it is none.
fn is_taken(rt: &impl Abort, alloc: Global, line: &Text, taken: bool) {
    let call = call_if_any(rt, alloc, line.as_str());
    assert!(rt; call.is_some() == taken, "{}", line.as_str());
}

/// What is said of a line that is no call begins with the first text, and has the second in it.
fn is_refused(rt: &impl Abort, alloc: Global, line: &Text, front: &str, has: &str) {
    is_taken(rt, alloc, line, false);
    let words = words(rt, alloc, line.as_str());
    let said = refusal_of(alloc, words.as_slice()).expect(rt, "memory");
    assert!(rt; said.as_str().starts_with(front), "{}", said.as_str());
    assert!(rt; said.as_str().contains(has), "{}", said.as_str());
}

/// Whether the words of the row are words alone, and more than a name: `raw` wants a whole request,
/// and JSON is read elsewhere.
fn is_tried(row: &CallRow) -> bool {
    row.rest != Rest::Nothing && row.name != "raw"
}

/// Whether a call takes an option of this name.
fn has_option(options: &[OptionRow], name: &str) -> bool {
    options.iter().any(|option| option.name == name)
}

#[test]
fn each_call_of_the_table_is_taken(rt: HostRuntime) {
    for row in calls() {
        if is_tried(row) {
            is_taken(&rt, rt.alloc(), &line_of(&rt, rt.alloc(), row, ""), true);
        }
    }
}

/// A value of an option: each of its names is taken, and no name else.
fn are_values(rt: &impl Abort, alloc: Global, row: &CallRow, option: &OptionRow) {
    let names = names_of(alloc, option.kind).expect(rt, "memory");
    is_taken(
        rt,
        alloc,
        &line_with(rt, alloc, row, option, sample(option.kind)),
        true,
    );
    for name in names.as_slice() {
        is_taken(
            rt,
            alloc,
            &line_with(rt, alloc, row, option, name.as_str()),
            true,
        );
        let mut other = text(rt, alloc, name.as_str());
        add(rt, &mut other, "x");
        let line = line_with(rt, alloc, row, option, other.as_str());
        is_refused(rt, alloc, &line, row.name, " is none of ");
    }
}

#[test]
fn each_option_of_the_table_is_taken(rt: HostRuntime) {
    for row in calls() {
        if is_tried(row) {
            for option in row.options {
                are_values(&rt, rt.alloc(), row, option);
            }
        }
        if row.rest == Rest::Attributes {
            for option in attribute_rows() {
                are_values(&rt, rt.alloc(), row, option);
            }
        }
    }
}

/// An option of another call is refused, and the words of the call are said.
fn is_no_option(rt: &impl Abort, alloc: Global, row: &CallRow, option: &OptionRow) {
    if has_option(row.options, option.name) {
        return;
    }
    let line = line_with(rt, alloc, row, option, sample(option.kind));
    is_refused(rt, alloc, &line, "the words are not those of ", row.name);
}

#[test]
fn no_other_option_is_taken(rt: HostRuntime) {
    for row in calls() {
        if is_tried(row) && row.rest == Rest::Options {
            for other in calls() {
                for option in other.options {
                    is_no_option(&rt, rt.alloc(), row, option);
                }
            }
        }
    }
}

/// A call that needs an option is none without it.
#[test]
fn an_option_that_is_needed_is_missed(rt: HostRuntime) {
    for row in calls() {
        for option in row.options {
            if option.is_needed {
                let line = line_of(&rt, rt.alloc(), row, option.name);
                is_refused(&rt, rt.alloc(), &line, row.name, " is missing");
            }
        }
    }
}

/// What is said of single lines.
const SAID: &[(&str, &str)] = &[
    ("fly", "there is no call fly"),
    (
        "user=a",
        "an option is out of its place, or there is none of its name",
    ),
    (
        "sign k1",
        "the words are not those of sign ID HEX [hash=] [padding=] [algorithm=] [prehashed]",
    ),
    (
        "sign k1 00 hash=sha384",
        "sign: hash= is none of MD2, MD4, MD5, SHA1, SHA224, SHA256, SHA384, SHA512, RIPEMD160, Tiger, Whirlpool",
    ),
    (
        "sign k1 0",
        "sign: HEX is no even number of hex digits, and not - for no bytes",
    ),
    ("sign k1 00 hash=MD5 hash=MD5", "sign: hash= is given twice"),
    (
        "sign k1 00 prehashed2",
        "sign: prehashed stands alone, with nothing after it",
    ),
    (
        "revoke k1 since=soon",
        "revoke: since= is no number from 0 to 9223372036854775807 in decimal digits",
    ),
    (
        "revoke k1 message=%F",
        "revoke: message= is no text: % stands before two upper-case hex digits, and all is UTF-8",
    ),
    (
        "create HMAC 8 n",
        "create: ALGORITHM is none of DES, TRIPLE_DES, AES, RSA",
    ),
    (
        "register symmetric 00 format=Raw algorithm=AES length=x",
        "register: length= is no number from -2147483648 to 2147483647 in decimal digits",
    ),
    (
        "register secret 00 format=Raw algorithm=AES length=8",
        "register: KIND is none of public, private, symmetric",
    ),
    (
        "locate where state=x",
        "locate: state= is none of PreActive, Active, Deactivated, Compromised, Destroyed, DestroyedCompromised",
    ),
    (
        "locate where name=a=b",
        "locate: name= has another = in its value, which is written %3D",
    ),
    (
        "attribute-add k1 color=red",
        "attribute-add: ATTRIBUTE is none of name=, group=, contact=, type=, state=, algorithm=, length=, activation= with its value",
    ),
    (
        "attributes k1 %",
        "attributes: NAME is no text: % stands before two upper-case hex digits, and all is UTF-8",
    ),
    (
        "raw 00",
        "raw: the bytes are not the one canonical message of a request",
    ),
    (
        "get k1 wrap=",
        "an identifier is empty; a request that means it is sent by message",
    ),
    (
        "operation Encrypt",
        "the words are not those of operation NAME [version=] [item-id=] PAYLOAD",
    ),
];

#[test]
fn the_word_that_is_wrong_is_named(rt: HostRuntime) {
    for (line, said) in SAID {
        let line = text(&rt, rt.alloc(), line);
        is_refused(&rt, rt.alloc(), &line, said, "");
        let words = words(&rt, rt.alloc(), line.as_str());
        let found = refusal_of(rt.alloc(), words.as_slice()).expect(&rt, "memory");
        assert!(rt; found.as_str() == *said, "{}", found.as_str());
    }
}
