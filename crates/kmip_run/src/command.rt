//! What the words of the command line ask for.
ghost use Rattle.std.specs.Prelude.{◌≡◌, option_map, IfOk, Some};
ghost use Rattle.kmip_run.specs.Commands.{diag_of, options_of, replay_of, explain_of, make_of};
ghost use Rattle.kmip_run.specs.Commands.{audit_of, joined_of, command_of};

use kmip_wire::{OutOfMemory, Text};
use kmip_words::{copy_text, given_after, number_of, option_given};
use std::alloc::Global;

/// The most exchanges that `make` makes.
const MOST_EXCHANGES: u32 = 100_000;

/// What the words after `replay` or `joined` set.
#[derive(Drop)]
pub struct Options {
    /// `user=U`: the user name of the credential.
    pub user: Option<Text>,
    /// `password=P`: the password of the credential. It stands only after `user=U`.
    pub password: Option<Text>,
    /// `limit=N`: the most bytes that a response may have, its head counted.
    pub limit: Option<u32>,
    /// `diag`: the diagnostics of each call are shown.
    pub diag: bool,
}

/// What the program is to do.
#[derive(Drop)]
pub enum Command {
    /// `replay [user=U] [password=P] [limit=N] [diag]`: makes the calls of the script, over
    /// recorded responses.
    Replay(Options),
    /// `explain`: expands the diagnostics of the script.
    Explain,
    /// `make N`: makes N exchanges, at most 100,000, and counts. It reads no script.
    Make(u32),
    /// `audit`: reports on two captured streams, each one line of the script.
    Audit,
    /// `joined`, with the options of `replay`: makes the calls of the script, over a server in
    /// memory.
    Joined(Options),
}

/// Whether the words left are `diag`; `None` where they are anything else.
fn diag_of(words: &[Text]) -> Option<bool>
    ensures { result ≡ diag_of words.now }
{
    match words {
        [] => Some(false),
        [word] => match word.as_str() {
            "diag" => Some(true),
            _ => None,
        },
        _ => None,
    }
}

/// Options with these values.
fn options_with(
    alloc: Global,
    user: Option<&str>,
    password: Option<&str>,
    limit: Option<u32>,
    diag: bool,
) -> Result<Option<Options>, OutOfMemory>
    ensures { IfOk result (λ options. options ≡ Some (record {
      user = option_map (λ text. text.now) user.entry;
      password = option_map (λ text. text.now) password.entry;
      limit = limit;
      diag = diag;
    })) }
{
    let user = copy_text(alloc, user)?;
    let password = copy_text(alloc, password)?;
    Ok(Some(Options {
        user,
        password,
        limit,
        diag,
    }))
}

/// The options of calls; `None` where the words are not of the grammar.
fn options_of(alloc: Global, words: &[Text]) -> Result<Option<Options>, OutOfMemory>
    ensures { IfOk result (λ options. options ≡ options_of words.now) }
{
    let (user, words) = option_given("user=", words);
    let (password, words) = given_after(user, "password=", words);
    let (limit, words) = option_given("limit=", words);
    let Some(diag) = diag_of(words) else {
        return Ok(None);
    };
    match limit {
        Some(limit) => match number_of(limit) {
            Some(limit) => options_with(alloc, user, password, Some(limit), diag),
            None => Ok(None),
        },
        None => options_with(alloc, user, password, None, diag),
    }
}

/// `replay` with its options; `None` where its words are not of the grammar.
fn replay_of(alloc: Global, words: &[Text]) -> Result<Option<Command>, OutOfMemory>
    ensures { IfOk result (λ command. command ≡ replay_of words.now) }
{
    match options_of(alloc, words)? {
        Some(options) => Ok(Some(Command::Replay(options))),
        None => Ok(None),
    }
}

/// `joined` with its options; `None` where its words are not of the grammar.
fn joined_of(alloc: Global, words: &[Text]) -> Result<Option<Command>, OutOfMemory>
    ensures { IfOk result (λ command. command ≡ joined_of words.now) }
{
    match options_of(alloc, words)? {
        Some(options) => Ok(Some(Command::Joined(options))),
        None => Ok(None),
    }
}

/// `explain`; `None` where more words follow.
fn explain_of(words: &[Text]) -> Option<Command>
    ensures { result ≡ explain_of words.now }
{
    match words {
        [] => Some(Command::Explain),
        _ => None,
    }
}

/// `make` with the number of exchanges; `None` where its words are not of the grammar.
fn make_of(words: &[Text]) -> Option<Command>
    ensures { result ≡ make_of words.now }
{
    match words {
        [word] => match number_of(word.as_str()) {
            Some(count) if count <= MOST_EXCHANGES => Some(Command::Make(count)),
            _ => None,
        },
        _ => None,
    }
}

/// `audit`; `None` where more words follow.
fn audit_of(words: &[Text]) -> Option<Command>
    ensures { result ≡ audit_of words.now }
{
    match words {
        [] => Some(Command::Audit),
        _ => None,
    }
}

/// The command of the words after the program's name; `None` where they are not of the grammar.
pub fn command_of(alloc: Global, words: &[Text]) -> Result<Option<Command>, OutOfMemory>
    ensures { IfOk result (λ command. command ≡ command_of words.now) }
{
    let [name, options @ ..] = words else {
        return Ok(None);
    };
    match name.as_str() {
        "replay" => replay_of(alloc, options),
        "explain" => Ok(explain_of(options)),
        "make" => Ok(make_of(options)),
        "audit" => Ok(audit_of(options)),
        "joined" => joined_of(alloc, options),
        _ => Ok(None),
    }
}
