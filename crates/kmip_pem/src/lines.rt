//! A text as its lines.
ghost use Rattle.std.specs.Prelude.{◌≡◌, ◌<◌, ◌∷◌, length, reverse};
ghost use Rattle.kmip_pem.specs.Lines.{is_line_end, is_white, without_white, trimmed};
ghost use Rattle.kmip_pem.specs.Lines.{lines_in};
ghost use Rattle.std.specs.List.{position};

/// A line, and the text behind it.
#[derive(Clone, Copy, Drop)]
pub(crate) struct Line<'a> {
    /// The line, without the white space round it.
    pub line: &'a [u8],
    /// What stands behind its end.
    pub behind: &'a [u8],
}

/// Whether a byte ends a line.
fn is_line_end(byte: u8) -> bool
    ensures { result ≡ is_line_end byte }
{
    byte == 10 || byte == 13
}

/// Whether a byte is white space.
fn is_white(byte: u8) -> bool
    ensures { result ≡ is_white byte }
{
    byte == 32 || (9 <= byte && byte <= 13)
}

/// A line without the white space before it.
fn trim_start(mut line: &[u8]) -> &[u8]
    ensures { result.now ≡ without_white line.now }
{
    while let [first, rest @ ..] = line
        && is_white(*first)
    {
        line = rest;
    }
    line
}

/// A line without the white space behind it.
fn trim_end(mut line: &[u8]) -> &[u8]
    ensures { result.now ≡ reverse (without_white (reverse line.now)) }
{
    while let [rest @ .., last] = line
        && is_white(*last)
    {
        line = rest;
    }
    line
}

/// A line without the white space round it.
fn trimmed(line: &[u8]) -> &[u8]
    ensures { result.now ≡ trimmed line.now }
{
    trim_end(trim_start(line))
}

/// Where the first line of a text ends.
fn line_end(text: &[u8]) -> Option<usize>
    ensures { result ≡ position is_line_end text.now }
{
    text.iter().position(|byte| is_line_end(*byte))
}

/// The first line of a text that is not empty.
pub(crate) fn first_line<'a>(text: &'a [u8]) -> Line<'a>
    requires { 0 < length text.now }
    ensures lines { lines_in text.now ≡ result.line.now ∷ lines_in result.behind.now }
    ensures shorter { length result.behind.now < length text.now }
{
    match line_end(text) {
        Some(end) => Line {
            line: trimmed(&text[..end]),
            behind: &text[end + 1..],
        },
        None => Line {
            line: trimmed(text),
            behind: &text[text.len()..],
        },
    }
}
