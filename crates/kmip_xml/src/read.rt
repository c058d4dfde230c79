//! Reading XML as a tree.
ghost use Rattle.std.specs.Prelude.{◌≡◌, IfOk, not, is_some};
ghost use Rattle.std.specs.Str.{chars};
ghost use Rattle.std.specs.List.{list_all};
ghost use Rattle.kmip_encodings.specs.XmlGrammar.{is_xml_char};
ghost use Rattle.kmip_xml.specs.Given.{Gives};
ghost use Rattle.kmip_xml.specs.Reading.{whole, is_end, turn, Adds, all_contents, inner, item, only};
ghost use Rattle.kmip_xml.specs.Reading.{tree_of};

use crate::error::{Misfit, Wanted, XmlError, misfit_at};
use crate::markup::{comment, declared, end_tag};
use crate::scan::{after, trimmed};
use crate::start::{Start, read_start};
use crate::values::is_xml_char;
use kmip_encodings::{named_after, unnamed};
use kmip_wire::{Node, OutOfMemory, Tag, Tree, Trees};
use std::alloc::Global;

/// What stands at the front of an element's contents.
#[derive(Drop)]
pub(crate) enum Turn {
    /// Their end.
    End,
    /// A comment.
    Comment,
    /// An item.
    Item(Tree),
}

fn is_end(text: &str) -> bool
    ensures { result ≡ is_end text.now }
{
    text.is_empty() || after("</", text).is_some()
}

/// The element of a start tag and its items, which only a structure has.
fn whole(tag: Tag, leaf: Option<Tree>, items: Trees) -> Option<Tree>
    ensures { result ≡ whole tag leaf items }
{
    match leaf {
        None => Some(Tree {
            tag,
            node: Node::Structure(items),
        }),
        Some(tree) => if items.len() == 0 { Some(tree) } else { None },
    }
}

/// Reads a comment or an element, or finds the end, behind white space.
#[cycle(read)]
#[tactic(auto, unfolding(crate::specs::Reading::turn))]
fn read_turn<'a>(
    alloc: Global,
    text: &'a str,
    levels: u32,
    named: Tag,
) -> Result<(Turn, &'a str), XmlError>
    ensures { Gives (λ x. (x.0, x.1.now)) result (turn (item levels named) text.now) }
{
    let text = trimmed(text);
    if let Some(inner) = after("<!--", text) {
        return match comment(inner) {
            Some(rest) => Ok((Turn::Comment, rest)),
            None => Err(XmlError::Misfit(misfit_at(text, Wanted::Comment))),
        };
    }
    if is_end(text) {
        return Ok((Turn::End, text));
    }
    let Some(inner) = after("<", text) else {
        return Err(XmlError::Misfit(misfit_at(text, Wanted::Element)));
    };
    match read_item(alloc, inner, levels, named) {
        Ok((tree, rest)) => Ok((Turn::Item(tree), rest)),
        Err(error) => Err(error),
    }
}

/// Adds the item that was read, if any, to those before it. Returns where names are looked up behind
/// what was read; `None` at the end.
fn add(trees: &mut Trees, named: Tag, turn: Turn) -> Result<Option<Tag>, OutOfMemory>
    ensures { IfOk result (λ next. Adds trees.old named turn trees.new next) }
{
    match turn {
        Turn::End => Ok(None),
        Turn::Comment => Ok(Some(named)),
        Turn::Item(tree) => {
            let next = named_after(named, &tree);
            trees.push(tree)?;
            Ok(Some(next))
        }
    }
}

/// Reads elements and comments up to the end of the text or of the element around.
#[cycle(read)]
fn read_contents(alloc: Global, text: &str, levels: u32) -> Result<(Trees, &str), XmlError>
    ensures { Gives (λ x. (x.0, x.1.now)) result (all_contents (item levels) text.now) }
{
    let mut trees = Trees::new(alloc);
    let mut named = unnamed();
    let mut rest = text;
    for _ in 0..text.len() {
        let (turn, behind) = match read_turn(alloc, rest, levels, named) {
            Ok(read) => read,
            Err(error) => return Err(error),
        };
        match add(&mut trees, named, turn) {
            Ok(Some(next)) => {
                named = next;
                rest = behind;
            }
            Ok(None) => return Ok((trees, behind)),
            Err(_) => return Err(XmlError::OutOfMemory),
        }
    }
    Err(XmlError::Misfit(misfit_at(rest, Wanted::Element)))
}

/// Reads what an element has in it, and the tag at its end.
#[cycle(read)]
#[tactic(auto, unfolding(crate::specs::Reading::inner))]
fn read_inner<'a>(
    alloc: Global,
    name: &str,
    closed: bool,
    text: &'a str,
    levels: u32,
) -> Result<(Trees, &'a str), XmlError>
    ensures { Gives (λ x. (x.0, x.1.now)) result (inner (item levels) name.now closed text.now) }
{
    if closed {
        return Ok((Trees::new(alloc), text));
    }
    match read_contents(alloc, text, levels) {
        Ok((items, rest)) => match end_tag(name, rest) {
            Some(behind) => Ok((items, behind)),
            None => Err(XmlError::Misfit(misfit_at(rest, Wanted::ElementEnd))),
        },
        Err(error) => Err(error),
    }
}

/// Reads an element of at most so many levels, of which `<` was read.
#[cycle(read)]
fn read_item<'a>(
    alloc: Global,
    text: &'a str,
    levels: u32,
    named: Tag,
) -> Result<(Tree, &'a str), XmlError>
    ensures { Gives (λ x. (x.0, x.1.now)) result (item levels named text.now) }
{
    if levels == 0 {
        return Err(XmlError::Misfit(misfit_at(text, Wanted::FewerLevels)));
    }
    let (start, rest) = read_start(alloc, named, text)?;
    let Start {
        name,
        tag,
        leaf,
        closed,
    } = start;
    match read_inner(alloc, name, closed, rest, levels - 1) {
        Ok((items, behind)) => match whole(tag, leaf, items) {
            Some(tree) => Ok((tree, behind)),
            None => Err(XmlError::Misfit(misfit_at(text, Wanted::NoElement))),
        },
        Err(error) => Err(error),
    }
}

/// The one item, where nothing follows it.
fn only(items: Trees, rest: &str) -> Option<Tree>
    ensures { result ≡ only items rest.now }
{
    if items.len() != 1 || !rest.is_empty() {
        return None;
    }
    items.into_vec().pop()
}

/// How many bytes there are from the first character on that XML lacks.
fn foreign_at(text: &str) -> Option<usize>
    ensures { is_some result ≡ not (list_all is_xml_char (chars text.now)) }
{
    let mut left = text.len();
    for ch in text.chars() {
        if !is_xml_char(ch) {
            return Some(left);
        }
        left = left.saturating_sub(ch.len_utf8());
    }
    None
}

/// The tree of a text of XML: one element, which is an item, with an element for each item in it,
/// maybe behind a declaration; comments and white space may stand round elements. Tests, and no
/// clause, say that what `to_xml` of kmip_encodings writes is read as the tree it was written of.
///
/// An element has the name of its tag, or it is `TTLV` with the attribute `tag`, which is `0x` and six
/// digits; it has the attributes `type`, Structure where it is left out, and `value`, which a structure
/// has not; in any order, and maybe `name`, which is not looked at. A value is one of these:
///
/// - of an Integer, a Long Integer, an Enumeration or an Interval a number in decimal, or `0x` and
///   digits: 16 of a Long Integer, and 8 of another;
/// - of a mask also the names of its bits with a space or a `|` between two, as `Encrypt Decrypt`;
/// - of an Enumeration also its number's name, as `SHA_256` or `SHA256`;
/// - of a Big Integer and a Byte String hex digits, of a Big Integer also behind `0x`;
/// - of a Boolean `true`, `false`, or `0x` and 16 digits;
/// - of a Date-Time a date with its offset from UTC, as `2001-01-01T12:00:00+02:00`, or `0x` and 16
///   digits.
///
/// Digits may be of either case. Document types and processing instructions are not read. A `Misfit`
/// has the place where reading stopped, and what was expected there; `refusal_of` says it to a person.
/// (XML 1.0; KMIP Additional Message Encodings 1.0, XML.)
#[tactic(auto, unfolding(crate::specs::Reading::tree_of))]
pub fn from_xml(alloc: Global, text: &str) -> Result<Tree, XmlError>
    ensures { Gives (λ tree. tree) result (tree_of text.now) }
{
    if let Some(left) = foreign_at(text) {
        let wanted = Wanted::Character;
        return Err(XmlError::Misfit(Misfit { left, wanted }));
    }
    let Some(rest) = declared(text) else {
        return Err(XmlError::Misfit(misfit_at(text, Wanted::DeclarationEnd)));
    };
    match read_contents(alloc, rest, 64) {
        Ok((items, behind)) => match only(items, behind) {
            Some(tree) => Ok(tree),
            None => Err(XmlError::Misfit(misfit_at(behind, Wanted::OneElement))),
        },
        Err(error) => Err(error),
    }
}
