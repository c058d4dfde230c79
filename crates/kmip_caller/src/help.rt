//! What `--help`, `--grammar` and `--operations` print, from the tables of calls.
use kmip_operation_words::{operation_calls, operation_help, push_operation_form};
use kmip_shape::ShowItem;
use kmip_wire::{List, OutOfMemory, Text};
use kmip_words::{
    CallRow, Kind, OptionRow, Rest, WordRow, attribute_rows, calls, names_of, push_form,
};
use std::alloc::Global;

/// What stands before the calls.
const FRONT: &str = "\
Makes one call of a KMIP client over standard input and output.

    kmip_call [user=U] [password=P] [limit=N] [record=FILE] CALL
    kmip_call --help
    kmip_call --version
    kmip_call --grammar
    kmip_call --operations

Standard output is the request's message, standard input one response, which is
read to its end and no further, and standard error one line of JSON:
{\"answer\":..} or {\"error\":\"ItemNotFound\",\"text\":\"..\"}, whose error is
GrammarError where the words are no call. --grammar prints the calls as JSON;
--operations prints more calls, as `encrypt ID DATA`.

CALL is one of
";

/// What stands between the calls and the values of options.
const MIDDLE: &str = "
In a name `-` is the empty text; an identifier is not empty. `%` with two
upper-case hex digits stands for a byte. One word after `locate` is a name, also
with `=`; `where` stands before a single ATTRIBUTE, and may before several.

Options stand after the other words of their call, in any order, each at most
once; those without brackets are needed. since= and activation= take seconds
since 1970-01-01 UTC, length= and index= a number, wrap= an identifier. Values
with names are
";

/// What stands after them.
const BACK: &str = "
`operation` calls any operation of KMIP by its NAME, as Encrypt; version= is 1.2
where none is given. item-id= is the Unique Batch Item ID that the request has,
in hex: then an answer with another is lost, and one with none too, unless it is
a failure that names no operation. PAYLOAD is the JSON of the request's payload,
as {\"tag\":\"RequestPayload\",\"value\":[..]}, or its XML, which begins with <; the
answer is the JSON of the response's payload. `message` sends a whole message,
whose JSON or XML MESSAGE is, as it stands; the answer is the whole response.

The calls that --operations prints are operations by words. Their answer is the
response's payload as plain JSON, with a member for each tag of its items, as
{\"unique_identifier\":\"8\",\"data\":\"00FF\"}; item-id= may stand before their name.

@FILE in the place of HEX, DATA, MAC, SIGNATURE, PAYLOAD or MESSAGE stands for
what that file has, its bytes or its JSON, and @3 for what descriptor 3 has up
to its end: the words of a program can be seen by other users of the machine.

user=U, password=P   the credential of the request; without password=P the
                     password is that of the environment, KMIP_PASSWORD
limit=N              the most bytes that a response may have, its head counted;
                     without it 1048576, and with limit=0 there is no limit
record=FILE          adds CALL and the response to FILE, as a line that
                     `kmip_run replay` reads, or `message REQUEST RESPONSE`
                     where that has no such call; a FILE that is not there is
                     made for its owner alone, and it is locked for the call

Status   0 answered   1 refused   2 the words are no call: nothing was sent
         3 the connection is lost   4 the answer or record is not written
         5 out of memory
After 3, 4 and 5 the connection is to be closed.
";

/// The kinds whose words have names, each with what they are shown beside.
const LISTED: &[(&str, Kind)] = &[
    ("KIND", Kind::KeyKind),
    ("algorithm=", Kind::Algorithm),
    ("format=", Kind::Format),
    ("hash=", Kind::Hash),
    ("padding=", Kind::Padding),
    ("reason=", Kind::Reason),
    ("state=", Kind::State),
    ("type=", Kind::ObjectType),
    ("usage=", Kind::Uses),
    ("version=", Kind::Version),
    ("ATTRIBUTE", Kind::Attribute),
];

/// The most characters of a line of the help.
const WIDTH: usize = 80;

/// Adds spaces.
fn push_spaces(count: usize, text: &mut Text) -> Result<(), OutOfMemory> {
    for _ in 0..count {
        text.push_str(" ")?;
    }
    Ok(())
}

/// Adds words in lines that begin at this column, the first of which has begun already.
fn push_lines(
    words: &[&str],
    between: &str,
    column: usize,
    text: &mut Text,
) -> Result<(), OutOfMemory> {
    let mut at = column;
    let mut is_first = true;
    for word in words {
        if !is_first {
            text.push_str(between)?;
            at = at.saturating_add(between.len());
            if at.saturating_add(word.len()) >= WIDTH {
                text.push_str("\n")?;
                push_spaces(column, text)?;
                at = column;
            } else {
                text.push_str(" ")?;
                at = at.saturating_add(1);
            }
        }
        text.push_str(word)?;
        at = at.saturating_add(word.len());
        is_first = false;
    }
    text.push_str("\n")
}

/// Adds a call, and what it asks for.
fn push_call(alloc: Global, row: &CallRow, text: &mut Text) -> Result<(), OutOfMemory> {
    push_spaces(4, text)?;
    push_form(row, text)?;
    text.push_str("\n")?;
    push_spaces(8, text)?;
    let words: Vec<&str> = row.help.split(' ').collect(alloc)?;
    push_lines(&words, "", 8, text)
}

/// Adds the names of a kind, beside the option or the word that takes them.
fn push_kind(alloc: Global, label: &str, kind: Kind, text: &mut Text) -> Result<(), OutOfMemory> {
    let names = names_of(alloc, kind)?;
    let mut words = Vec::new(alloc);
    for name in names.as_slice() {
        words.push(name.as_str())?;
    }
    push_spaces(4, text)?;
    text.push_str(label)?;
    push_spaces(12usize.saturating_sub(label.len()), text)?;
    push_lines(&words, ",", 16, text)
}

/// What `--help` prints.
pub fn help_text(alloc: Global) -> Result<Text, OutOfMemory> {
    let mut text = Text::of(alloc, FRONT)?;
    for row in calls() {
        push_call(alloc, row, &mut text)?;
    }
    text.push_str(MIDDLE)?;
    for (label, kind) in LISTED {
        push_kind(alloc, label, *kind, &mut text)?;
    }
    text.push_str(BACK)?;
    Ok(text)
}

/// What `--operations` prints: the calls of the table, each with its words and what it asks for.
pub fn operations_text(alloc: Global) -> Result<Text, OutOfMemory> {
    let mut text = Text::new(alloc);
    for row in operation_calls() {
        push_operation_form(row, &mut text)?;
        text.push_str("\n    ")?;
        text.push_str(operation_help(row.name))?;
        text.push_str("\n")?;
    }
    Ok(text)
}

/// The name of a kind.
fn kind_name(kind: Kind) -> &'static str {
    match kind {
        Kind::Identifier => "Identifier",
        Kind::Text => "Text",
        Kind::Int => "Int",
        Kind::Seconds => "Seconds",
        Kind::Hex => "Hex",
        Kind::Request => "Request",
        Kind::Algorithm => "Algorithm",
        Kind::Format => "Format",
        Kind::Hash => "Hash",
        Kind::Padding => "Padding",
        Kind::Reason => "Reason",
        Kind::ObjectType => "ObjectType",
        Kind::State => "State",
        Kind::KeyKind => "KeyKind",
        Kind::Uses => "Uses",
        Kind::Flag => "Flag",
        Kind::Attribute => "Attribute",
        Kind::Operation => "Operation",
        Kind::Version => "Version",
        Kind::Payload => "Payload",
        Kind::Message => "Message",
    }
}

/// The name of what stands after the words of a call.
fn rest_name(rest: Rest) -> &'static str {
    match rest {
        Rest::Options => "Options",
        Rest::Names => "Names",
        Rest::Attributes => "Attributes",
        Rest::Nothing => "Nothing",
    }
}

/// Adds a member of an object of JSON whose value is a text: `"name":"sign"`.
fn push_member(alloc: Global, name: &str, value: &str, text: &mut Text) -> Result<(), OutOfMemory> {
    text.push_str("\"")?;
    text.push_str(name)?;
    text.push_str("\":")?;
    Text::of(alloc, value)?.show_json(alloc, text)
}

/// Adds what stands before an item of several, nothing before the first, and returns what stands
/// before the next one.
fn push_between(before: &str, text: &mut Text) -> Result<&'static str, OutOfMemory> {
    text.push_str(before)?;
    Ok(",")
}

/// Adds words as an array of JSON.
fn push_words(alloc: Global, rows: &[WordRow], text: &mut Text) -> Result<(), OutOfMemory> {
    text.push_str("[")?;
    let mut between = "";
    for row in rows {
        between = push_between(between, text)?;
        text.push_str("{")?;
        push_member(alloc, "name", row.name, text)?;
        text.push_str(",")?;
        push_member(alloc, "kind", kind_name(row.kind), text)?;
        text.push_str("}")?;
    }
    text.push_str("]")
}

/// Adds options as an array of JSON.
fn push_options(alloc: Global, rows: &[OptionRow], text: &mut Text) -> Result<(), OutOfMemory> {
    text.push_str("[")?;
    let mut between = "";
    for row in rows {
        between = push_between(between, text)?;
        text.push_str("{")?;
        push_member(alloc, "name", row.name, text)?;
        text.push_str(",")?;
        push_member(alloc, "kind", kind_name(row.kind), text)?;
        text.push_str(if row.is_needed {
            ",\"is_needed\":true}"
        } else {
            ",\"is_needed\":false}"
        })?;
    }
    text.push_str("]")
}

/// Adds a call as an object of JSON.
fn push_row(alloc: Global, row: &CallRow, text: &mut Text) -> Result<(), OutOfMemory> {
    text.push_str("{")?;
    push_member(alloc, "name", row.name, text)?;
    text.push_str(",\"words\":")?;
    push_words(alloc, row.words, text)?;
    text.push_str(",")?;
    push_member(alloc, "rest", rest_name(row.rest), text)?;
    text.push_str(",\"options\":")?;
    push_options(alloc, row.options, text)?;
    text.push_str(",")?;
    push_member(alloc, "help", row.help, text)?;
    let mut form = Text::new(alloc);
    push_form(row, &mut form)?;
    text.push_str(",")?;
    push_member(alloc, "form", form.as_str(), text)?;
    text.push_str("}")
}

/// Adds texts as an array of JSON.
fn push_texts(alloc: Global, texts: &List<Text>, text: &mut Text) -> Result<(), OutOfMemory> {
    text.push_str("[")?;
    let mut between = "";
    for item in texts.as_slice() {
        between = push_between(between, text)?;
        item.show_json(alloc, text)?;
    }
    text.push_str("]")
}

/// What `--grammar` prints: a line of JSON.
pub fn grammar_json(alloc: Global) -> Result<Text, OutOfMemory> {
    let mut text = Text::of(alloc, "{\"calls\":[")?;
    let mut between = "";
    for row in calls() {
        between = push_between(between, &mut text)?;
        push_row(alloc, row, &mut text)?;
    }
    text.push_str("],\"attributes\":")?;
    push_options(alloc, attribute_rows(), &mut text)?;
    text.push_str(",\"names\":{")?;
    between = "";
    for (_, kind) in LISTED {
        between = push_between(between, &mut text)?;
        text.push_str("\"")?;
        text.push_str(kind_name(*kind))?;
        text.push_str("\":")?;
        push_texts(alloc, &names_of(alloc, *kind)?, &mut text)?;
    }
    text.push_str("}}\n")?;
    Ok(text)
}
