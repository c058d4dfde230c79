//! The printer. To contracts it is its prefix.
ghost use Rattle.std.specs.Prelude.{◌≡◌, ℕ, Option, Some, None};

use std::marker::Model;

/// Prints and expands diagnostics. Its prefix, if it has one, is the upper 16 bits of the tags that
/// it writes with two hex digits; any other tag has six.
#[derive(Clone, Copy)]
pub struct PrettyPrinter {
    pub(crate) prefix: Option<u16>,
}

impl Model for PrettyPrinter {
    ghost Value = { Option ℕ };

    ghost view = { λ p. p.prefix };

    ghost inverse = { λ p. record { prefix = p } };
}

impl PrettyPrinter {
    /// A printer without a prefix, which writes each tag with six digits. It takes no memory.
    pub fn new() -> PrettyPrinter
        ensures { result ≡ None }
    {
        PrettyPrinter { prefix: None }
    }

    /// Sets the prefix, from 0 to 0xFFFF, in place of an earlier one. It takes no memory.
    pub fn with_tag_prefix(&mut self, prefix: u16)
        ensures { self.new ≡ Some prefix }
    {
        self.prefix = Some(prefix);
    }
}
