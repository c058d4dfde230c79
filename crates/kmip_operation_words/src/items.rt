//! The items that words give.
ghost use Rattle.std.specs.Prelude.{◌≡◌, map, ◌++◌, IfOk, OnOk};
ghost use Rattle.kmip_operation_words.specs.Items as items;
ghost use Rattle.kmip_operation_words.specs.Rows.{form_view, field_view, part_view};

use crate::rows::{FieldRow, Form, Group, PartRow, Place};
use crate::values::value_item;
use kmip_request_words::value_given;
use kmip_tags::tags::{
    ATTRIBUTE, ATTRIBUTE_NAME, ATTRIBUTE_VALUE, CRYPTOGRAPHIC_PARAMETERS, NAME_TYPE,
};
use kmip_wire::{Node, OutOfMemory, Tag, Text, Tree, Trees};
use std::alloc::Global;

/// The structure of one item.
fn one_in(alloc: Global, tag: Tag, only: Tree) -> Result<Tree, OutOfMemory>
    ensures { IfOk result (λ tree. tree ≡ items.one_in tag only) }
{
    let mut trees = Trees::new(alloc);
    trees.push(only)?;
    let node = Node::Structure(trees);
    Ok(Tree { tag, node })
}

/// The structure of two items.
fn two_in(alloc: Global, tag: Tag, first: Tree, second: Tree) -> Result<Tree, OutOfMemory>
    ensures { IfOk result (λ tree. tree ≡ items.two_in tag first second) }
{
    let mut trees = Trees::new(alloc);
    trees.push(first)?;
    trees.push(second)?;
    let node = Node::Structure(trees);
    Ok(Tree { tag, node })
}

/// An attribute: KMIP 1.0, 2.1.1.
fn attribute_item(alloc: Global, name: &str, value: Tree) -> Result<Tree, OutOfMemory>
    ensures { IfOk result (λ tree. tree ≡ items.attribute_item name.now value) }
{
    let name = Tree {
        tag: Tag::of(ATTRIBUTE_NAME),
        node: Node::TextString(Text::of(alloc, name)?),
    };
    two_in(alloc, Tag::of(ATTRIBUTE), name, value)
}

/// The tag that the value of a field stands under.
fn value_tag(form: Form, tag: Tag) -> Tag
    ensures { result ≡ items.value_tag (form_view form) tag }
{
    match form {
        Form::Attribute(_) => Tag::of(ATTRIBUTE_VALUE),
        _ => tag,
    }
}

/// The item of a field whose value is this item.
fn formed(alloc: Global, form: Form, value: Tree) -> Result<Tree, OutOfMemory>
    ensures { IfOk result (λ tree. tree ≡ items.formed (form_view form) value) }
{
    match form {
        Form::Item | Form::Parameter => Ok(value),
        Form::Attribute(name) => attribute_item(alloc, name, value),
        Form::Domain => {
            let inner = one_in(alloc, Tag::of(ATTRIBUTE_VALUE), value)?;
            attribute_item(alloc, "Cryptographic Domain Parameters", inner)
        }
        Form::Named => {
            let name_type = Tree {
                tag: Tag::of(NAME_TYPE),
                node: Node::Enumeration(1),
            };
            let inner = two_in(alloc, Tag::of(ATTRIBUTE_VALUE), value, name_type)?;
            attribute_item(alloc, "Name", inner)
        }
    }
}

/// The item that a word gives to a field; `None` where it is none of the field's kind.
fn word_item(alloc: Global, field: &FieldRow, word: &str) -> Result<Option<Tree>, OutOfMemory>
    ensures { IfOk result (λ item. item ≡ items.word_item (field_view field.now) word.now) }
{
    let Some(names) = Tag::new(field.tag) else {
        return Ok(None);
    };
    let tag = value_tag(field.form, names);
    match value_item(alloc, field.kind, names, tag, word)? {
        Some(value) => Ok(Some(formed(alloc, field.form, value)?)),
        None => Ok(None),
    }
}

/// Adds the item that a word gives to a field. `false` where it is none of the field's kind.
fn push_word(
    alloc: Global,
    field: &FieldRow,
    word: &str,
    out: &mut Vec<Tree>,
) -> Result<bool, OutOfMemory>
    ensures { IfOk result (λ fits. items.added fits out.new.items ≡
        items.after out.old.items (items.word_items (field_view field.now) word.now)) }
{
    match word_item(alloc, field, word)? {
        Some(item) => {
            out.push(item)?;
            Ok(true)
        }
        None => Ok(false),
    }
}

/// Adds the items that words give to a field.
fn push_words(
    alloc: Global,
    field: &FieldRow,
    words: &[Text],
    out: &mut Vec<Tree>,
) -> Result<bool, OutOfMemory>
    ensures { IfOk result (λ fits. items.added fits out.new.items ≡ items.after out.old.items
        (items.all_items (items.word_items (field_view field.now)) words.now)) }
{
    match words {
        [] => Ok(true),
        [first, rest @ ..] => {
            if !push_word(alloc, field, first.as_str(), out)? {
                return Ok(false);
            }
            push_words(alloc, field, rest, out)
        }
    }
}

/// Adds the items of a field. `words` are those of the call, and `behind` those behind the words of
/// its row. `false` where a word is missing, or is none of the field's kind.
pub fn push_field(
    alloc: Global,
    field: &FieldRow,
    words: &[Text],
    behind: &[Text],
    out: &mut Vec<Tree>,
) -> Result<bool, OutOfMemory>
    ensures { IfOk result (λ fits. items.added fits out.new.items ≡ items.after out.old.items
        (items.field_items (record { all = words.now; behind = behind.now })
        (field_view field.now))) }
{
    match field.place {
        Place::Word(index) => match words.get(index) {
            Some(word) => push_word(alloc, field, word.as_str(), out),
            None => Ok(false),
        },
        Place::Words => push_words(alloc, field, behind, out),
        Place::Always(word) => push_word(alloc, field, word, out),
        Place::Option => match value_given(field.name, behind) {
            Some(word) => push_word(alloc, field, word, out),
            None => Ok(true),
        },
        Place::Needed => match value_given(field.name, behind) {
            Some(word) => push_word(alloc, field, word, out),
            None => Ok(false),
        },
        Place::Usual(usual) => match value_given(field.name, behind) {
            Some(word) => push_word(alloc, field, word, out),
            None => push_word(alloc, field, usual, out),
        },
    }
}

/// Whether a field is one of Cryptographic Parameters.
fn is_parameter(form: Form) -> bool
    ensures { result ≡ items.is_parameter (form_view form) }
{
    match form {
        Form::Parameter => true,
        _ => false,
    }
}

/// Adds the items of a field where it is one of Cryptographic Parameters, or where it is none.
fn push_where(
    alloc: Global,
    field: &FieldRow,
    are_parameters: bool,
    words: &[Text],
    behind: &[Text],
    out: &mut Vec<Tree>,
) -> Result<bool, OutOfMemory>
    ensures { IfOk result (λ fits. items.added fits out.new.items ≡ items.after out.old.items
        (items.items_where are_parameters (record { all = words.now; behind = behind.now })
        (field_view field.now))) }
{
    match (are_parameters, is_parameter(field.form)) {
        (true, true) | (false, false) => push_field(alloc, field, words, behind, out),
        _ => Ok(true),
    }
}

/// Adds the items of those fields that are of Cryptographic Parameters, or of the others.
fn push_fields(
    alloc: Global,
    fields: &[FieldRow],
    are_parameters: bool,
    words: &[Text],
    behind: &[Text],
    out: &mut Vec<Tree>,
) -> Result<bool, OutOfMemory>
    ensures { IfOk result (λ fits. items.added fits out.new.items ≡ items.after out.old.items
        (items.all_items
        (items.items_where are_parameters (record { all = words.now; behind = behind.now }))
        (map field_view fields.now))) }
{
    match fields {
        [] => Ok(true),
        [first, rest @ ..] => {
            if !push_where(alloc, first, are_parameters, words, behind, out)? {
                return Ok(false);
            }
            push_fields(alloc, rest, are_parameters, words, behind, out)
        }
    }
}

/// Adds the structure round items, where there are any.
fn push_around(tag: Tag, inner: Vec<Tree>, out: &mut Vec<Tree>) -> Result<(), OutOfMemory>
    ensures { OnOk result (out.new.items ≡ out.old.items ++ items.around tag inner.items) }
{
    if !inner.is_empty() {
        let node = Node::Structure(Trees::of_vec(inner));
        out.push(Tree { tag, node })?;
    }
    Ok(())
}

/// Adds the structure round items, where there are any or it is needed.
fn push_structure(
    tag: Tag,
    is_needed: bool,
    inner: Vec<Tree>,
    out: &mut Vec<Tree>,
) -> Result<(), OutOfMemory>
    ensures { OnOk result
        (out.new.items ≡ out.old.items ++ items.structure_of tag is_needed inner.items) }
{
    if !is_needed {
        return push_around(tag, inner, out);
    }
    let node = Node::Structure(Trees::of_vec(inner));
    out.push(Tree { tag, node })?;
    Ok(())
}

/// Adds the items of fields that stand together: Cryptographic Parameters of those of its fields
/// that are given, where one is; then the others.
#[tactic(auto, using(std::proofs::lemmas::List::append_assoc))]
fn push_all_fields(
    alloc: Global,
    fields: &[FieldRow],
    words: &[Text],
    behind: &[Text],
    out: &mut Vec<Tree>,
) -> Result<bool, OutOfMemory>
    ensures { IfOk result (λ fits. items.added fits out.new.items ≡ items.after out.old.items
        (items.fields_items (record { all = words.now; behind = behind.now })
        (map field_view fields.now))) }
{
    let mut parameters = Vec::new(alloc);
    if !push_fields(alloc, fields, true, words, behind, &mut parameters)? {
        return Ok(false);
    }
    push_around(Tag::of(CRYPTOGRAPHIC_PARAMETERS), parameters, out)?;
    push_fields(alloc, fields, false, words, behind, out)
}

/// Adds a structure of the items of fields that stand together: where there are any, or where it
/// is needed.
fn push_group(
    alloc: Global,
    tag: u32,
    is_needed: bool,
    fields: &[FieldRow],
    words: &[Text],
    behind: &[Text],
    out: &mut Vec<Tree>,
) -> Result<bool, OutOfMemory>
    ensures { IfOk result (λ fits. items.added fits out.new.items ≡ items.after out.old.items
        (items.in_structure tag is_needed
        (items.fields_items (record { all = words.now; behind = behind.now })
        (map field_view fields.now)))) }
{
    let Some(tag) = Tag::new(tag) else {
        return Ok(false);
    };
    let mut inner = Vec::new(alloc);
    if !push_all_fields(alloc, fields, words, behind, &mut inner)? {
        return Ok(false);
    }
    push_structure(tag, is_needed, inner, out)?;
    Ok(true)
}

/// Adds the items of fields that stand together, in their structure where they have one.
fn push_part(
    alloc: Global,
    part: &PartRow,
    words: &[Text],
    behind: &[Text],
    out: &mut Vec<Tree>,
) -> Result<bool, OutOfMemory>
    ensures { IfOk result (λ fits. items.added fits out.new.items ≡ items.after out.old.items
        (items.part_items (record { all = words.now; behind = behind.now })
        (part_view part.now))) }
{
    match part.group {
        Group::Payload => push_all_fields(alloc, part.fields, words, behind, out),
        Group::Given(tag) => push_group(alloc, tag, false, part.fields, words, behind, out),
        Group::Needed(tag) => push_group(alloc, tag, true, part.fields, words, behind, out),
    }
}

/// Adds the items of parts, in order. `words` are those of the call, and `behind` those behind the
/// words of its row. `false` where a word is missing, or is none of its field's kind.
pub fn push_parts(
    alloc: Global,
    parts: &[PartRow],
    words: &[Text],
    behind: &[Text],
    out: &mut Vec<Tree>,
) -> Result<bool, OutOfMemory>
    ensures { IfOk result (λ fits. items.added fits out.new.items ≡ items.after out.old.items
        (items.all_items (items.part_items (record { all = words.now; behind = behind.now }))
        (map part_view parts.now))) }
{
    match parts {
        [] => Ok(true),
        [first, rest @ ..] => {
            if !push_part(alloc, first, words, behind, out)? {
                return Ok(false);
            }
            push_parts(alloc, rest, words, behind, out)
        }
    }
}
