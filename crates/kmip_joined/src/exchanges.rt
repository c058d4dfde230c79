//! A call over the server, and the lines of its report.
ghost use Rattle.std.specs.Prelude.{◌≡◌, IfOk, OnOk, option_map};
ghost use Rattle.kmip_words.specs.Exchange.{settings_of};
ghost use Rattle.kmip_joined.specs.Lines.{line_call};
ghost use Rattle.kmip_joined.specs.World.{world_of, joined_step};
ghost use Rattle.kmip_joined.specs.Reports.{IsJoined, IsShown, Runs};

use crate::answers::show_answer;
use crate::made::call_one;
use kmip_client::Client;
use kmip_server::{Call, CallAnswer, ServerLink};
use kmip_store::PlainMaker;
use kmip_wire::{OutOfMemory, Text};
use kmip_words::{show_diagnostics, show_sent};
use std::alloc::Global;

/// A text that may be absent, borrowed.
fn lent(text: &Option<Text>) -> Option<&str>
    ensures { option_map (λ t. t.now) result ≡ text.now }
{
    match text {
        Some(text) => Some(text.as_str()),
        None => None,
    }
}

/// Adds what a call sent, its diagnostics where they are kept, and its answer, and returns whether
/// this is an error.
fn show_report(
    alloc: Global,
    diag: bool,
    report: &CallAnswer,
    output: &mut Text,
) -> Result<bool, OutOfMemory>
    ensures { IfOk result (λ failed. IsShown diag report.now failed output.old output.new) }
{
    show_sent(alloc, report.sent.as_slice(), output)?;
    show_diagnostics(diag, lent(&report.req_diag), lent(&report.res_diag), output)?;
    let ending = show_answer(alloc, &report.answer, output)?;
    Ok(ending.is_failure())
}

/// Makes a call of the client, adds what it sent, its diagnostics where the client keeps them, and
/// its answer, and returns whether this is an error. `diag` is whether the client keeps
/// diagnostics.
///
/// `OutOfMemory` comes also where the server's response has no wire form. That does not happen: a
/// response is not much longer than the line of its call. But no contract says so.
pub fn exchange(
    alloc: Global,
    client: &mut Client<ServerLink<PlainMaker>>,
    diag: bool,
    call: Call,
    output: &mut Text,
) -> Result<bool, OutOfMemory>
    requires buffered { diag ≡ client.old.buffered }
    requires joined { IsJoined client.old.link }
    ensures settings { OnOk result (settings_of client.new ≡ settings_of client.old) }
    ensures joined { OnOk result (IsJoined client.new.link) }
    ensures runs { IfOk result (λ failed. Runs
        (joined_step (settings_of client.old) (line_call call) (world_of client.old.link))
        (world_of client.new.link) failed output.old output.new) }
{
    let answers = call_one(alloc, client, call)?;
    match answers.get(0) {
        Some(report) => show_report(alloc, diag, report, output),
        None => unreachable!(),
    }
}
