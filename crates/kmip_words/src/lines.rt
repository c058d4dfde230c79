//! The lines of what a call sent, and of its diagnostics.
ghost use Rattle.std.specs.Prelude.{◌≡◌, ◌++◌, codes, option_map, OnOk};
ghost use Rattle.hex.specs.Hex.{encode_upper};
ghost use Rattle.kmip_words.specs.Exchange.{or_empty, diagnostic_lines};

use kmip_wire::{OutOfMemory, Text};
use std::alloc::Global;

/// Adds `> ` and the bytes in upper-case hex, as a line.
#[tactic(auto, using(std::proofs::lemmas::List::append_assoc))]
pub fn show_sent(alloc: Global, sent: &[u8], output: &mut Text) -> Result<(), OutOfMemory>
    ensures { OnOk result (output.new ≡ output.old ++ (codes "> " ++ (encode_upper sent.now ++ codes "\n"))) }
{
    let text = hex::encode_upper(alloc, sent)?;
    output.push_str("> ")?;
    output.push_str(text.as_str())?;
    output.push_str("\n")?;
    Ok(())
}

/// Adds a diagnostic; nothing where there is none.
fn push_diagnostic(diagnostic: Option<&str>, output: &mut Text) -> Result<(), OutOfMemory>
    ensures { OnOk result (output.new ≡ output.old ++
        or_empty (option_map (λ text. text.now) diagnostic.entry)) }
{
    match diagnostic {
        Some(text) => output.push_str(text),
        None => Ok(()),
    }
}

/// Adds the diagnostics of a call's request and response as lines, where they are kept.
#[tactic(auto, using(std::proofs::lemmas::List::append_assoc))]
pub fn show_diagnostics(
    diag: bool,
    request: Option<&str>,
    response: Option<&str>,
    output: &mut Text,
) -> Result<(), OutOfMemory>
    ensures { OnOk result (output.new ≡ output.old ++ diagnostic_lines diag
        (option_map (λ text. text.now) request.entry)
        (option_map (λ text. text.now) response.entry)) }
{
    if !diag {
        return Ok(());
    }
    output.push_str(">~ ")?;
    push_diagnostic(request, output)?;
    output.push_str("\n<~ ")?;
    push_diagnostic(response, output)?;
    output.push_str("\n")
}
