//! Expands a diagnostic into lines that a person can read.
ghost use Rattle.std.specs.Prelude.{◌≡◌, MatchResult, Some, None};
ghost use Rattle.kmip_diag.specs.Expansion.{next_depth, expansion};

use crate::lines::push_line;
use crate::printer::PrettyPrinter;
use crate::token::Token;
use kmip_wire::Text;
use std::alloc::Global;

/// Why a text was not expanded.
#[derive(Clone, Copy, PartialEq, Eq, Debug)]
pub enum DiagError {
    /// The text is not what the printer, with its prefix, prints for items of at most 64 levels. A
    /// text with `!` never is.
    NotADiagnostic,
    /// Memory ran out.
    OutOfMemory,
}

/// The depth after a piece. `None` where an item would have a level above 64, or where `]` ends no
/// structure.
fn next_depth(depth: u32, token: &Token) -> Option<u32>
    ensures { result ≡ next_depth depth token.now }
{
    match token {
        Token::Scalar(_, _) => { if depth < 64 { Some(depth) } else { None } }
        Token::Open(_) => { if depth < 64 { Some(depth + 1) } else { None } }
        Token::Close => { if depth == 0 { None } else { Some(depth - 1) } }
    }
}

impl PrettyPrinter {
    /// One line for each item of a printed text, each with a line feed at its end. A line has two
    /// spaces for each level below the root, `Tag: NAME (0xTTTTTT), Type: TYPE (0xCC), Data: `, and
    /// then nothing for a Structure, the number in hex for an Enumeration and `<redacted>` for any
    /// other type. The name of a tag without a name is `Unknown`.
    pub fn expand(&self, alloc: Global, text: &str) -> Result<Text, DiagError>
        ensures { MatchResult result (λ lines. expansion self.now text.now ≡
            Some lines) (λ e. e ≡ DiagError.NotADiagnostic → expansion self.now text.now ≡ None) }
    {
        let mut again = Text::new(alloc);
        let mut lines = Text::new(alloc);
        let mut rest = text.as_bytes();
        let mut depth = 0;
        while !rest.is_empty() {
            let Some((token, after)) = self.read_token(rest) else {
                return Err(DiagError::NotADiagnostic);
            };
            let Some(next) = next_depth(depth, &token) else {
                return Err(DiagError::NotADiagnostic);
            };
            let Ok(()) = self.push_token(alloc, &mut again, &token) else {
                return Err(DiagError::OutOfMemory);
            };
            let Ok(()) = push_line(alloc, &mut lines, depth, &token) else {
                return Err(DiagError::OutOfMemory);
            };
            rest = after;
            depth = next;
        }
        if depth > 0 || again.as_str() != text {
            return Err(DiagError::NotADiagnostic);
        }
        Ok(lines)
    }
}
