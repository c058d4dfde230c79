//! A report as lines of text.
ghost use Rattle.std.specs.Prelude.{◌≡◌, ◌++◌, OnOk};
ghost use Rattle.kmip_audit.specs.Printed.{shown_text, entry_text, entries_text, report_text};

use crate::reports::{Entry, Report};
use kmip_wire::{OutOfMemory, Text};
use std::alloc::Global;

/// A diagnostic, and `-` where there is none.
fn diagnostic_or_dash(text: &Option<Text>) -> &str
    ensures { result.now ≡ shown_text text.now }
{
    match text {
        Some(text) => text.as_str(),
        None => "-",
    }
}

/// Adds the three lines of an entry.
fn show_entry(
    alloc: Global,
    number: usize,
    entry: &Entry,
    output: &mut Text,
) -> Result<(), OutOfMemory>
    ensures { OnOk result (output.new ≡ output.old ++ entry_text number entry.now) }
{
    let outcome = entry.outcome;
    let request = diagnostic_or_dash(&entry.request);
    let response = diagnostic_or_dash(&entry.response);
    let text = format!(in alloc; "#{number} {outcome}\n>~ {request}\n<~ {response}\n")?;
    output.push_str(text.as_str())
}

/// Adds the lines of the entries, counted from 1.
fn show_entries(alloc: Global, entries: &[Entry], output: &mut Text) -> Result<(), OutOfMemory>
    ensures { OnOk result (output.new ≡ output.old ++ entries_text 1 entries.now) }
{
    let mut number = 0;
    for entry in entries {
        number += 1;
        show_entry(alloc, number, entry, output)?;
    }
    Ok(())
}

impl Report {
    /// Adds the report to a text: three lines for each entry, counted from 1, as `#1 answered Get`,
    /// `>~ ` with the diagnostic of the request and `<~ ` with that of the response, `-` where
    /// there is none; and then `sent ` and `received ` with the ends, as `whole` or `torn at 152`.
    ///
    /// `OutOfMemory` may leave a first part of it added.
    pub fn show(&self, alloc: Global, output: &mut Text) -> Result<(), OutOfMemory>
        ensures { OnOk result (output.new ≡ output.old ++ report_text self.now) }
    {
        show_entries(alloc, self.entries.as_slice(), output)?;
        let sent = self.sent_end;
        let received = self.received_end;
        let text = format!(in alloc; "sent {sent}\nreceived {received}\n")?;
        output.push_str(text.as_str())
    }
}
