//! Prints well-formed items.
ghost use Rattle.std.specs.Prelude.{◌≡◌, ◌++◌, IfOk, option_map};
ghost use Rattle.kmip_wire.specs.Tree.{trees_of};
ghost use Rattle.kmip_wire.specs.Parts.{scalar_in};
ghost use Rattle.kmip_wire.specs.Items.{item_tree, trees_left};
ghost use Rattle.kmip_diag.specs.Skeleton.{skeleton, skeletons, mark_of};
ghost use Rattle.kmip_diag.specs.Printed.{printed, printed_all};

use crate::print::push_mark;
use crate::printer::PrettyPrinter;
use crate::token::Mark;
use kmip_wire::{Children, ItemRef, Kind, OutOfMemory, Text};
use std::alloc::Global;

/// What a diagnostic shows of the value of an item. `None` for a Structure.
fn mark_of(item: ItemRef<'_>) -> Option<Mark>
    ensures { result ≡ option_map mark_of (scalar_in (item_tree item.entry)) }
{
    match item.kind() {
        Kind::Structure => None,
        Kind::Integer => Some(Mark::Integer),
        Kind::LongInteger => Some(Mark::LongInteger),
        Kind::BigInteger => Some(Mark::BigInteger),
        Kind::Enumeration => match item.enumeration() {
            Some(number) => Some(Mark::Enumeration(number)),
            None => None,
        },
        Kind::Boolean => Some(Mark::Boolean),
        Kind::TextString => Some(Mark::TextString),
        Kind::ByteString => Some(Mark::ByteString),
        Kind::DateTime => Some(Mark::DateTime),
        Kind::Interval => Some(Mark::Interval),
    }
}

impl PrettyPrinter {
    /// Appends the text of an item.
    #[cycle(items)]
    pub(crate) fn print_item(
        &self,
        alloc: Global,
        text: &mut Text,
        item: ItemRef<'_>,
    ) -> Result<(), OutOfMemory>
        ensures { IfOk result (λ _. text.new ≡
            text.old ++ printed self.now (skeleton (item_tree item.entry))) }
    {
        self.push_tag(text, item.tag())?;
        if let Some(mark) = mark_of(item) {
            return push_mark(alloc, text, mark);
        }
        let Some(children) = item.children() else {
            return Ok(());
        };
        text.push_str("[")?;
        self.print_items(alloc, text, children)?;
        text.push_str("]")
    }

    /// Appends the texts of the children, one after another.
    #[cycle(items)]
    fn print_items(
        &self,
        alloc: Global,
        text: &mut Text,
        children: Children<'_>,
    ) -> Result<(), OutOfMemory>
        ensures { IfOk result (λ _. text.new ≡
            text.old ++ printed_all self.now (skeletons (trees_of (trees_left children.entry)))) }
    {
        for child in children {
            self.print_item(alloc, text, child)?;
        }
        Ok(())
    }
}
