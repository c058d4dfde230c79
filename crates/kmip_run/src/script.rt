//! The lines of a script.
ghost use Rattle.std.specs.Prelude.{◌≡◌, ◌<◌, ◌∷◌, ◌++◌, length, codes, OnOk};
ghost use Rattle.std.specs.Fmt.{decimal};
ghost use Rattle.kmip_run.specs.Script.{lines_of};

use kmip_wire::{OutOfMemory, Text};
use std::alloc::Global;

/// The first line of a script, without its line feed, and what follows it. The script is not empty.
pub fn first_line(script: &[u8]) -> (&[u8], &[u8])
    requires { 0 < length script.now }
    ensures lines { lines_of script.now ≡ result.0.now ∷ lines_of result.1.now }
    ensures shorter { length result.1.now < length script.now }
{
    match script.iter().position(|byte| *byte == b'\n') {
        Some(end) => (&script[..end], &script[end + 1..]),
        None => (script, &[]),
    }
}

/// Adds the line that says which line, counted from 1, is not of the grammar.
pub fn show_bad_line(alloc: Global, number: usize, output: &mut Text) -> Result<(), OutOfMemory>
    ensures { OnOk result
        (output.new ≡ output.old ++ (codes "! line " ++ (decimal number ++ codes "\n"))) }
{
    let text = format!(in alloc; "! line {number}\n")?;
    output.push_str(text.as_str())
}
