//! The lines of a script, one call after the other.
ghost use Rattle.std.specs.Prelude.{◌≡◌, ◌≢◌, ◌<◌, IfOk, drop, length};
ghost use Rattle.kmip_words.specs.Exchange.{settings_of};
ghost use Rattle.kmip_run.specs.Script.{lines_of};
ghost use Rattle.kmip_run.specs.Transcript.{end_after, replay_from};
ghost use Rattle.kmip_run.specs.Performed.{Performs};
ghost use Rattle.kmip_run.specs.declared.status.ScriptEnd.TheVariants.{Answered, NotOfGrammar};

use crate::exchange::exchange;
use crate::output::{Cut, write_if_long};
use crate::script::{first_line, show_bad_line};
use crate::status::ScriptEnd;
use kmip_client::Client;
use kmip_link::{MemoryLink, Sink};
use kmip_wire::Text;
use kmip_words::call_of;
use std::alloc::Global;

/// The end after a call: `Failed` once some call returned an error.
pub fn end_after(end: ScriptEnd, failed: bool) -> ScriptEnd
    ensures { result ≡ end_after end failed }
{
    if failed { ScriptEnd::Failed } else { end }
}

/// Makes the calls of the lines, up to a line that is not of the grammar, and returns how they
/// ended. Their text is added to `output`, and a first part of it may be written by then: the rest
/// is kept, fewer than 65,536 bytes where fewer were kept before and each line is of the grammar.
/// `diag` is whether the client keeps diagnostics.
pub fn replay<K: Sink>(
    alloc: Global,
    client: &mut Client<MemoryLink>,
    diag: bool,
    script: &[u8],
    sink: &mut K,
    output: &mut Text,
) -> Result<ScriptEnd, Cut>
    requires { diag ≡ client.old.buffered }
    ensures performs { Performs
        (replay_from (settings_of client.old) (lines_of script.now) 1 Answered
        (drop client.old.link.pos client.old.link.ever))
        (K.state sink.old) (K.state sink.new) client.old.link client.new.link
        output.old output.new result }
    ensures short { IfOk result (λ end. end ≢ NotOfGrammar
        → length output.old < 65536 → length output.new < 65536) }
{
    let mut end = ScriptEnd::Answered;
    let mut number = 0;
    let mut rest = script;
    while !rest.is_empty() {
        let (line, later) = first_line(rest);
        number += 1;
        let Some(recorded) = call_of(alloc, line)? else {
            show_bad_line(alloc, number, output)?;
            return Ok(ScriptEnd::NotOfGrammar);
        };
        let failed = exchange(alloc, client, diag, recorded, output)?;
        write_if_long(sink, output)?;
        end = end_after(end, failed);
        rest = later;
    }
    Ok(end)
}
