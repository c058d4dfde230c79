//! Prints the diagnostic of any bytes, cut off or malformed ones too.
ghost use Rattle.std.specs.Prelude.{◌≡◌, IfOk, IfSome, option_map};
ghost use Rattle.kmip_wire.specs.Head.{value_of};
ghost use Rattle.kmip_diag.specs.declared.token.Token.TheVariants.{Open};
ghost use Rattle.kmip_diag.specs.Diagnostic.{opening_tag, diagnostic};

use crate::printer::PrettyPrinter;
use crate::steps::{contents, front, opening_tag};
use crate::token::Token;
use kmip_wire::{OutOfMemory, Text};
use std::alloc::Global;

/// If the bytes begin with the whole head of a structure: the piece that opens it, and the part of
/// its contents that is there.
fn opening(bytes: &[u8], level: u32) -> Option<(Token, &[u8])>
    ensures token { option_map (λ p. p.0) result ≡ option_map Open (opening_tag level bytes.now) }
    ensures contents { IfSome result (λ p. p.1.now ≡ value_of bytes.now) }
{
    let Some(tag) = opening_tag(bytes, level) else {
        return None;
    };
    Some((Token::Open(tag), contents(bytes)))
}

impl PrettyPrinter {
    /// The diagnostic of any bytes.
    ///
    /// The well-formed items at the front are printed one after another. For an item its tag is
    /// printed, and then `[`, the children and `]` for a Structure, and a letter for any other
    /// type; after `e` the number in hex and `:` follow. Where bytes are left that begin with the
    /// whole head of a Structure of level at most 64, its tag and `[` are printed, and then in the
    /// same way the part of its contents that is there. One `!` ends the text where any bytes were
    /// left. It fails only where memory runs out.
    pub fn to_diag_string(&self, alloc: Global, bytes: &[u8]) -> Result<Text, OutOfMemory>
        ensures { IfOk result (λ text. text ≡ diagnostic self.now bytes.now) }
    {
        let mut text = Text::new(alloc);
        let mut rest = bytes;
        let mut level = 1;
        let mut is_cut_off = false;
        while !rest.is_empty() {
            if let Some((item, after)) = front(rest, level) {
                self.print_item(alloc, &mut text, item)?;
                rest = after;
                continue;
            }
            let Some((token, contents)) = opening(rest, level) else {
                text.push_str("!")?;
                return Ok(text);
            };
            self.push_token(alloc, &mut text, &token)?;
            rest = contents;
            level += 1;
            is_cut_off = true;
        }
        if is_cut_off {
            text.push_str("!")?;
        }
        Ok(text)
    }
}
