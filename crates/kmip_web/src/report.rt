//! The report on two captured streams.
ghost use Rattle.std.specs.Prelude.{◌≡◌, IfOk};
ghost use Rattle.kmip_audit.specs.Report.{report_of};
ghost use Rattle.kmip_audit.specs.Printed.{report_text};

use kmip_audit::audit;
use kmip_wire::{OutOfMemory, Text};
use std::alloc::Global;

/// The report as text.
pub fn report_text(alloc: Global, sent: &[u8], received: &[u8]) -> Result<Text, OutOfMemory>
    ensures { IfOk result (λ text. text ≡ report_text (report_of sent.now received.now)) }
{
    let mut text = Text::new(alloc);
    let report = audit(alloc, sent, received)?;
    report.show(alloc, &mut text)?;
    Ok(text)
}
