//! Comments, the declaration and the ends of tags.
ghost use Rattle.std.specs.Prelude.{◌≡◌, option_map};
ghost use Rattle.kmip_xml.specs.Markup.{after_dashes, comment, declared, tag_end, end_tag};

use crate::scan::{after, around, spaced, trimmed};

/// What follows the first `--`.
fn after_dashes(text: &str) -> Option<&str>
    ensures { option_map (λ rest. rest.now) result ≡ after_dashes text.now }
{
    match text.split_once("--") {
        Some((_, rest)) => Some(rest),
        None => None,
    }
}

/// What follows a comment, of which `<!--` was read.
#[tactic(auto, unfolding(crate::specs::Markup::comment))]
pub(crate) fn comment(text: &str) -> Option<&str>
    ensures { option_map (λ rest. rest.now) result ≡ comment text.now }
{
    after(">", after_dashes(text)?)
}

/// What follows a declaration, where the text begins with one.
#[tactic(auto, unfolding(crate::specs::Markup::declared))]
pub(crate) fn declared(text: &str) -> Option<&str>
    ensures { option_map (λ rest. rest.now) result ≡ declared text.now }
{
    match after("<?xml", text) {
        Some(inner) => after(">", around('?', spaced(inner)?)?.1),
        None => Some(text),
    }
}

/// Whether the element is empty, by the end of its tag.
#[tactic(auto, unfolding(crate::specs::Markup::tag_end))]
pub(crate) fn tag_end(text: &str) -> Option<(bool, &str)>
    ensures { option_map (λ x. (x.0, x.1.now)) result ≡ tag_end text.now }
{
    match after("/>", text) {
        Some(rest) => Some((true, rest)),
        None => Some((false, after(">", text)?)),
    }
}

/// What follows the tag that ends the element of this name.
#[tactic(auto, unfolding(crate::specs::Markup::end_tag))]
pub(crate) fn end_tag<'a>(name: &str, text: &'a str) -> Option<&'a str>
    ensures { option_map (λ rest. rest.now) result ≡ end_tag name.now text.now }
{
    let inner = after("</", text)?;
    after(">", trimmed(after(name, inner)?))
}
