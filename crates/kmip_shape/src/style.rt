//! The styles in which values are shown.

/// How a value is shown.
#[derive(Clone, Copy, PartialEq, Eq, Drop)]
pub enum Style {
    /// Names without quotes, and a case as its name before its value: `{name=Name{name_value="a"}}`.
    Bare,
    /// JSON (RFC 8259).
    Json,
}
