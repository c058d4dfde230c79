//! The lines of a script, one call after the other over a server in memory.
ghost use Rattle.std.specs.Prelude.{◌≡◌, ◌++◌, IfOk};
ghost use Rattle.kmip_run.specs.Script.{lines_of};
ghost use Rattle.kmip_run.specs.Setup.{settings_for};
ghost use Rattle.kmip_run.specs.Transcript.{joined};
ghost use Rattle.kmip_run.specs.declared.status.ScriptEnd.TheVariants.{Answered};
ghost use Rattle.kmip_run.specs.declared.status.Status.TheVariants.{Ended};
ghost use Rattle.kmip_words.specs.Exchange.{settings_of};
ghost use Rattle.kmip_joined.specs.Reports.{IsJoined};
ghost use Rattle.kmip_joined.specs.World.{nothing_yet, world_of};

use crate::command::Options;
use crate::replay::end_after;
use crate::script::{first_line, show_bad_line};
use crate::setup::client_of;
use crate::status::ScriptEnd;
use kmip_client::Client;
use kmip_joined::{exchange, helper_call, joined_link};
use kmip_server::ServerLink;
use kmip_store::PlainMaker;
use kmip_wire::{OutOfMemory, Text};
use std::alloc::Global;

/// Makes the calls of the lines on a client that is joined to a server, up to a line that is not of
/// the grammar, and returns how they ended. `diag` is whether the client keeps diagnostics.
fn joined_lines(
    alloc: Global,
    client: &mut Client<ServerLink<PlainMaker>>,
    diag: bool,
    script: &[u8],
    output: &mut Text,
) -> Result<ScriptEnd, OutOfMemory>
    requires buffered { diag ≡ client.old.buffered }
    requires joined { IsJoined client.old.link }
    ensures status { IfOk result (λ end. Ended end ≡
        (joined (settings_of client.old) (lines_of script.now) 1 Answered
        (world_of client.old.link)).status) }
    ensures text { IfOk result (λ end. output.new ≡ output.old ++
        (joined (settings_of client.old) (lines_of script.now) 1 Answered
        (world_of client.old.link)).text) }
{
    let mut end = ScriptEnd::Answered;
    let mut number = 0;
    let mut rest = script;
    while !rest.is_empty() {
        let (line, later) = first_line(rest);
        number += 1;
        let Some(call) = helper_call(alloc, line)? else {
            show_bad_line(alloc, number, output)?;
            return Ok(ScriptEnd::NotOfGrammar);
        };
        let failed = exchange(alloc, client, diag, call, output)?;
        end = end_after(end, failed);
        rest = later;
    }
    Ok(end)
}

/// Makes the calls of a script on a client that is joined to a server with no objects, and returns
/// how they ended.
pub fn run_joined(
    alloc: Global,
    options: Options,
    script: &[u8],
    output: &mut Text,
) -> Result<ScriptEnd, OutOfMemory>
    ensures status { IfOk result (λ end. Ended end ≡
        (joined (settings_for options) (lines_of script.now) 1 Answered nothing_yet).status) }
    ensures text { IfOk result (λ end. output.new ≡ output.old ++
        (joined (settings_for options) (lines_of script.now) 1 Answered nothing_yet).text) }
{
    let diag = options.diag;
    let mut client = client_of(joined_link(alloc), options);
    joined_lines(alloc, &mut client, diag, script, output)
}
