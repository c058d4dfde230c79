//! A call over its recorded response, and the lines of its report.
ghost use Rattle.std.specs.Prelude.{◌≡◌, ◌++◌, ◌≤◌, drop, length, codes, IfOk, OnOk};
ghost use Rattle.hex.specs.Hex.{encode_upper};
ghost use Rattle.kmip_words.specs.Exchange.{settings_of, step};
ghost use Rattle.kmip_run.specs.Transcript.{RunsCall};

use kmip_client::Client;
use kmip_link::MemoryLink;
use kmip_shape::Style;
use kmip_wire::{OutOfMemory, Text};
use kmip_words::{Recorded, answer, show_diagnostics, show_sent};
use std::alloc::Global;

/// Feeds a recorded response to the client's link.
pub fn feed(client: &mut Client<MemoryLink>, response: &[u8]) -> Result<(), OutOfMemory>
    ensures settings { settings_of client.new ≡ settings_of client.old }
    ensures fed { OnOk result
        (client.new.link ≡ record client.old.link { ever = client.old.link.ever ++ response.now }) }
    ensures left { OnOk result
        (drop client.new.link.pos client.new.link.ever ≡
        drop client.old.link.pos client.old.link.ever ++ response.now) }
{
    match client.inner().feed(response) {
        Ok(()) => Ok(()),
        Err(_) => Err(OutOfMemory),
    }
}

/// How many bytes the client has sent.
pub fn sent_len(client: &mut Client<MemoryLink>) -> usize
    ensures same { client.new ≡ client.old }
    ensures len { result ≡ length client.old.link.sent }
{
    client.inner().sent().len()
}

/// Adds what the client sent after the first `from` bytes.
#[tactic(auto, using(crate::proofs::Lines::rest_is))]
fn show_sent_from(
    alloc: Global,
    client: &mut Client<MemoryLink>,
    from: usize,
    output: &mut Text,
) -> Result<(), OutOfMemory>
    requires { from ≤ length client.old.link.sent }
    ensures same { client.new ≡ client.old }
    ensures text { OnOk result
        (output.new ≡ output.old
        ++ (codes "> " ++ (encode_upper (drop from client.old.link.sent) ++ codes "\n"))) }
{
    show_sent(alloc, &client.inner().sent()[from..], output)
}

/// Feeds the recorded response of a call, makes the call on the client, adds what it sent, its
/// diagnostics where the client keeps them, and its answer, and returns whether this is an error.
/// `diag` is whether the client keeps diagnostics.
pub fn exchange(
    alloc: Global,
    client: &mut Client<MemoryLink>,
    diag: bool,
    recorded: Recorded,
    output: &mut Text,
) -> Result<bool, OutOfMemory>
    requires { diag ≡ client.old.buffered }
    ensures settings { OnOk result (settings_of client.new ≡ settings_of client.old) }
    ensures runs { IfOk result
        (λ failed. RunsCall (step (settings_of client.old) recorded.call
        (drop client.old.link.pos client.old.link.ever ++ recorded.response))
        recorded.response client.old.link client.new.link failed output.old output.new) }
{
    feed(client, recorded.response.as_slice())?;
    let before = sent_len(client);
    let mut line = Text::new(alloc);
    let ending = answer(alloc, client, Style::Bare, recorded.call, &mut line)?;
    show_sent_from(alloc, client, before, output)?;
    show_diagnostics(
        diag,
        client.last_req_diag_str(),
        client.last_res_diag_str(),
        output,
    )?;
    output.push_str(line.as_str())?;
    Ok(ending.is_failure())
}
