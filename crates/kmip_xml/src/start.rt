//! The tag that starts an element.
ghost use Rattle.std.specs.Prelude.{◌≡◌, IfOk, Some, option_map};
ghost use Rattle.kmip_wire.specs.Tree.{Tree};
ghost use Rattle.kmip_xml.specs.Given.{Gives};
ghost use Rattle.kmip_xml.specs.Reading.{tag_in, kind_in, scalar_tree, no_value, leaf, head};
ghost use Rattle.kmip_xml.specs.Reading.{start_of, start};

use crate::attributes::{Attributes, all_attributes};
use crate::error::{Wanted, XmlError, misfit_at};
use crate::markup::tag_end;
use crate::scalars::scalar_node;
use crate::scan::word;
use kmip_encodings::{kind_named, place, tag_named, tag_of_text};
use kmip_wire::{Kind, OutOfMemory, Tag, Text, Tree};
use std::alloc::Global;

/// The tag that starts an element.
#[derive(Drop)]
pub(crate) struct Start<'a> {
    pub(crate) name: &'a str,
    pub(crate) tag: Tag,
    /// The item where it is no structure.
    pub(crate) leaf: Option<Tree>,
    /// Whether the element is empty.
    pub(crate) closed: bool,
}

#[tactic(auto, unfolding(crate::specs::Reading::tag_in))]
fn tag_in(alloc: Global, name: &str, attribute: &Option<Text>) -> Result<Option<Tag>, OutOfMemory>
    ensures { IfOk result (λ tag. tag ≡ tag_in name.now attribute.now) }
{
    match attribute {
        Some(text) if name == "TTLV" => tag_of_text(alloc, text.as_str()),
        Some(_) => Ok(None),
        None => Ok(tag_named(name)),
    }
}

#[tactic(auto, unfolding(crate::specs::Reading::kind_in))]
fn kind_in(attribute: &Option<Text>) -> Option<Kind>
    ensures { result ≡ kind_in attribute.now }
{
    match attribute {
        Some(text) => kind_named(text.as_str()),
        None => Some(Kind::Structure),
    }
}

/// The item, which is no structure.
fn scalar_tree(
    alloc: Global,
    named: Tag,
    tag: Tag,
    kind: Kind,
    value: &Option<Text>,
) -> Result<Option<Option<Tree>>, OutOfMemory>
    ensures { IfOk result (λ tree. tree ≡ scalar_tree named tag kind value.now) }
{
    let Some(text) = value else {
        return Ok(None);
    };
    match scalar_node(alloc, place(named, tag), kind, text.as_str())? {
        Some(node) => Ok(Some(Some(Tree { tag, node }))),
        None => Ok(None),
    }
}

/// A structure has no value.
fn no_value(value: &Option<Text>) -> Option<Option<Tree>>
    ensures { result ≡ no_value value.now }
{
    match value {
        Some(_) => None,
        None => Some(None),
    }
}

/// The item where it is no structure, which has no value.
#[tactic(auto, unfolding(crate::specs::Reading::leaf))]
fn leaf(
    alloc: Global,
    named: Tag,
    tag: Tag,
    kind: Kind,
    value: &Option<Text>,
) -> Result<Option<Option<Tree>>, OutOfMemory>
    ensures { IfOk result (λ tree. tree ≡ leaf named tag kind value.now) }
{
    match kind {
        Kind::Structure => Ok(no_value(value)),
        _ => scalar_tree(alloc, named, tag, kind, value),
    }
}

/// What an element's name and attributes say; the text begins at the name.
#[tactic(auto, unfolding(crate::specs::Reading::head))]
fn head<'a>(
    alloc: Global,
    named: Tag,
    text: &str,
    name: &'a str,
    found: &Attributes,
    closed: bool,
) -> Result<Start<'a>, XmlError>
    ensures { Gives start_of result (head named name.now found.now closed) }
{
    let Some(tag) = tag_in(alloc, name, &found.tag)? else {
        return Err(XmlError::Misfit(misfit_at(text, Wanted::Tag)));
    };
    let Some(kind) = kind_in(&found.kind) else {
        return Err(XmlError::Misfit(misfit_at(text, Wanted::Type)));
    };
    match leaf(alloc, named, tag, kind, &found.value)? {
        Some(leaf) => Ok(Start {
            name,
            tag,
            leaf,
            closed,
        }),
        None => {
            let wanted = Wanted::Value(kind, place(named, tag));
            Err(XmlError::Misfit(misfit_at(text, wanted)))
        }
    }
}

/// Reads the tag that starts an element, of which `<` was read.
#[tactic(auto, unfolding(crate::specs::Reading::start))]
pub(crate) fn read_start<'a>(
    alloc: Global,
    named: Tag,
    text: &'a str,
) -> Result<(Start<'a>, &'a str), XmlError>
    ensures { Gives (λ x. (start_of x.0, x.1.now)) result (start named text.now) }
{
    let (name, rest) = word(text);
    if name.is_empty() {
        return Err(XmlError::Misfit(misfit_at(text, Wanted::Name)));
    }
    let (found, rest) = all_attributes(alloc, rest)?;
    let Some((closed, rest)) = tag_end(rest) else {
        return Err(XmlError::Misfit(misfit_at(rest, Wanted::AttributeOrEnd)));
    };
    let start = head(alloc, named, text, name, &found, closed)?;
    Ok((start, rest))
}
