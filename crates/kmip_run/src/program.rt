//! The program.
ghost use Rattle.std.specs.Prelude.{◌≡◌, ◌++◌, ◌⊎◌, [], drop, false, true, Some, IsTrue, IfOk};
ghost use Rattle.kmip_link.specs.State.{SourceState, SinkKeeps, FaultCountRose};
ghost use Rattle.kmip_words.specs.Streams.{WrotePart};
ghost use Rattle.kmip_run.specs.Script.{lines_of};
ghost use Rattle.kmip_run.specs.Setup.{settings_for};
ghost use Rattle.kmip_run.specs.Making.{counts_after, made_settings};
ghost use Rattle.kmip_run.specs.Transcript.{counted_transcript, lines_transcript, makes_calls};
ghost use Rattle.kmip_run.specs.Transcript.{reads_script, replay_from, Replays};
ghost use Rattle.kmip_run.specs.Performed.{Performs, Ends};
ghost use Rattle.kmip_run.specs.Program.{streams, RunsCommand, Runs, RunsTo};

use crate::auditing::audit_script;
use crate::command::{Command, Options, command_of};
use crate::explain::explain;
use crate::joined::run_joined;
use crate::make::make;
use crate::output::Cut;
use crate::replay::replay;
use crate::setup::client_of;
use crate::status::{ScriptEnd, Status};
use kmip_client::Client;
use kmip_link::{LinkError, MemoryLink, Sink, Source};
use kmip_wire::{List, OutOfMemory, Text};
use kmip_words::{read_up_to, write_out};
use std::alloc::Global;
use std::mem;

/// The most bytes that a script may have.
const MAX_SCRIPT: usize = 16_777_216;

/// Writes the whole text, and returns how the run ends, this being the end of its script.
fn finish<K: Sink>(sink: &mut K, text: &str, end: ScriptEnd) -> Status
    ensures keeps { SinkKeeps (K.state sink.old) (K.state sink.new) }
    ensures fault { result ≡ Status.SinkFailed →
        FaultCountRose (K.state sink.old).faults (K.state sink.new).faults }
    ensures status { (result ≡ Status.Ended end)
        ⊎ ((result ≡ Status.SinkFailed) ⊎ (result ≡ Status.OutOfMemory)) }
    ensures written { IsTrue (K.state sink.old).tells → result ≡ Status.Ended end →
        (K.state sink.new).sent ≡ (K.state sink.old).sent ++ text.now }
    ensures part { IsTrue (K.state sink.old).tells →
        WrotePart (K.state sink.old) (K.state sink.new) text.now }
{
    match write_out(sink, text.as_bytes()) {
        Ok(()) => Status::Ended(end),
        Err(LinkError::Fault) => Status::SinkFailed,
        Err(LinkError::OutOfMemory) => Status::OutOfMemory,
    }
}

/// Takes the link out of a client.
fn link_of(alloc: Global, client: &mut Client<MemoryLink>) -> MemoryLink
    ensures { result ≡ client.old.link }
{
    mem::replace(client.inner(), MemoryLink::new(alloc))
}

/// Replays a script on the link: moves it into a client, and back.
fn replay_on<K: Sink>(
    alloc: Global,
    options: Options,
    script: &[u8],
    sink: &mut K,
    link: &mut MemoryLink,
    output: &mut Text,
) -> Result<ScriptEnd, Cut>
    ensures { Performs
        (replay_from (settings_for options) (lines_of script.now) 1 ScriptEnd.Answered
        (drop link.old.pos link.old.ever))
        (K.state sink.old) (K.state sink.new) link.old link.new output.old output.new result }
{
    let moved = mem::replace(link, MemoryLink::new(alloc));
    let diag = options.diag;
    let mut client = client_of(moved, options);
    let end = replay(alloc, &mut client, diag, script, sink, output);
    *link = link_of(alloc, &mut client);
    end
}

/// Makes `count` exchanges on the link: moves it into a client, and back.
fn make_on(
    alloc: Global,
    count: u32,
    link: &mut MemoryLink,
    output: &mut Text,
) -> Result<ScriptEnd, OutOfMemory>
    ensures { IfOk result (λ end. Replays
        (counted_transcript count
        (counts_after made_settings count 1 (drop link.old.pos link.old.ever)))
        link.old link.new (Status.Ended end) output.old output.new) }
{
    let moved = mem::replace(link, MemoryLink::new(alloc));
    let options = Options {
        user: None,
        password: None,
        limit: None,
        diag: false,
    };
    let mut client = client_of(moved, options);
    let end = make(alloc, &mut client, count, output);
    *link = link_of(alloc, &mut client);
    end
}

/// Does what a command asks for with the whole script, and returns how it ended. What is not yet
/// written of its text is added to `output`.
fn perform<K: Sink>(
    alloc: Global,
    command: Command,
    script: &[u8],
    sink: &mut K,
    link: &mut MemoryLink,
    output: &mut Text,
) -> Result<ScriptEnd, Cut>
    requires { drop link.old.pos link.old.ever ≡ [] }
    ensures kept { makes_calls (Some command) ≡ false → link.new ≡ link.old }
    ensures performs { Performs (lines_transcript command (lines_of script.now))
        (K.state sink.old) (K.state sink.new) link.old link.new output.old output.new result }
{
    match command {
        Command::Replay(options) => replay_on(alloc, options, script, sink, link, output),
        Command::Explain => Ok(explain(alloc, script, output)?),
        Command::Make(count) => Ok(make_on(alloc, count, link, output)?),
        Command::Audit => Ok(audit_script(alloc, script, output)?),
        Command::Joined(options) => Ok(run_joined(alloc, options, script, output)?),
    }
}

/// Does what a command asks for with the whole script, writes its text, and returns how the run
/// ended.
fn carry_out<K: Sink>(
    alloc: Global,
    command: Command,
    script: &[u8],
    sink: &mut K,
    link: &mut MemoryLink,
) -> Status
    requires { drop link.old.pos link.old.ever ≡ [] }
    ensures kept { makes_calls (Some command) ≡ false → link.new ≡ link.old }
    ensures ends { Ends (lines_transcript command (lines_of script.now))
        (K.state sink.old) (K.state sink.new) link.old link.new result }
{
    let mut output = Text::new(alloc);
    match perform(alloc, command, script, sink, link, &mut output) {
        Ok(end) => finish(sink, output.as_str(), end),
        Err(Cut::SinkFailed) => Status::SinkFailed,
        Err(Cut::OutOfMemory) => Status::OutOfMemory,
    }
}

/// Whether the command reads a script.
fn reads_script(command: &Command) -> bool
    ensures { result ≡ reads_script (Some command.now) }
{
    match command {
        Command::Replay(_) | Command::Explain | Command::Audit | Command::Joined(_) => true,
        Command::Make(_) => false,
    }
}

/// Does what a command asks for that reads no script, and returns how the run ended. Nothing is
/// asked of the source, which stays as it is.
fn run_alone<K: Sink>(
    alloc: Global,
    command: Command,
    sink: &mut K,
    link: &mut MemoryLink,
) -> Status
    requires unread { reads_script (Some command) ≡ false }
    requires empty { drop link.old.pos link.old.ever ≡ [] }
    ensures { (source : SourceState) → RunsCommand (Some command)
        (streams source (K.state sink.old) link.old) (streams source (K.state sink.new) link.new)
        result }
{
    carry_out(alloc, command, &[], sink, link)
}

/// Reads the whole script, does with it what the command asks for, and returns how the run ended.
fn run_script<S: Source, K: Sink>(
    alloc: Global,
    command: Command,
    source: &mut S,
    sink: &mut K,
    link: &mut MemoryLink,
) -> Status
    requires reads { reads_script (Some command) ≡ true }
    requires empty { drop link.old.pos link.old.ever ≡ [] }
    ensures { RunsCommand (Some command)
        (streams (S.state source.old) (K.state sink.old) link.old)
        (streams (S.state source.new) (K.state sink.new) link.new) result }
{
    let mut script = Vec::new(alloc);
    match read_up_to(alloc, source, MAX_SCRIPT + 1, &mut script) {
        Ok(()) => {}
        Err(LinkError::Fault) => return Status::SourceFailed,
        Err(LinkError::OutOfMemory) => return Status::OutOfMemory,
    }
    if script.len() > MAX_SCRIPT {
        return Status::TooLong;
    }
    carry_out(alloc, command, &script, sink, link)
}

/// Does what the words ask for, and returns how the run ended.
fn run_words<S: Source, K: Sink>(
    alloc: Global,
    words: &List<Text>,
    source: &mut S,
    sink: &mut K,
    link: &mut MemoryLink,
) -> Status
    requires { drop link.old.pos link.old.ever ≡ [] }
    ensures { Runs words.now (streams (S.state source.old) (K.state sink.old) link.old)
        (streams (S.state source.new) (K.state sink.new) link.new) result }
{
    match command_of(alloc, words.as_slice()) {
        Ok(Some(command)) => {
            if reads_script(&command) {
                return run_script(alloc, command, source, sink, link);
            }
            run_alone(alloc, command, sink, link)
        }
        Ok(None) => finish(sink, "! words\n", ScriptEnd::NotOfGrammar),
        Err(OutOfMemory) => Status::OutOfMemory,
    }
}

/// Runs the program on the words after its name, and returns its exit status.
///
/// - 0: each call of the lines returned a payload, or each line was explained, or the report was
///   written, or the exchanges were made.
/// - 1: some call returned an error.
/// - 2: the words, or a line, are not of the grammar.
/// - 3: the source failed, and nothing was written.
/// - 4: the sink failed, and a part of the text was written.
/// - 5: memory ran out, and a part of the text, which may be none of it, was written.
/// - 6: the script is longer than 16,777,216 bytes, and nothing was written.
///
/// The link is fed the responses and keeps what was sent. Where the words are not of the grammar,
/// or their command makes no calls over it, and after 3 and 6, it is as it was; after 4 and 5 under
/// `replay` and `make` nothing is said of it. Words that are not of the grammar, and `make`, leave
/// the source as it was.
pub fn run<S: Source, K: Sink>(
    alloc: Global,
    words: &List<Text>,
    source: &mut S,
    sink: &mut K,
    link: &mut MemoryLink,
) -> u8
    requires { drop link.old.pos link.old.ever ≡ [] }
    ensures { RunsTo words.now (streams (S.state source.old) (K.state sink.old) link.old)
        (streams (S.state source.new) (K.state sink.new) link.new) result }
{
    run_words(alloc, words, source, sink, link).code()
}
