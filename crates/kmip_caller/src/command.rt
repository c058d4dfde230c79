//! What the words of the command line ask for.
ghost use Rattle.std.specs.Prelude.{◌≡◌, ◌∷◌, [], option_map, IfOk, Some, None, false};
ghost use Rattle.kmip_client.specs.Client.{credential_for};
ghost use Rattle.kmip_caller.specs.Commands.{first_of, limit_of, order_with, order_of};
ghost use Rattle.kmip_caller.specs.Commands.{one_word, command_of};
ghost use Rattle.kmip_caller.specs.declared.command.Command.TheVariants.{Make};

use kmip_wire::{List, OutOfMemory, Text, clone_items};
use kmip_words::{Settings, copy_text, given_after, number_of, option_given};
use std::alloc::Global;

/// The most bytes that a response may have where `limit=N` is not given: 1 MiB.
const DEFAULT_LIMIT: u32 = 1_048_576;

/// A call that is to be made.
#[derive(Drop)]
pub struct Order {
    /// `user=U`, `password=P` and `limit=N`: the credential, and the most bytes of a response, its
    /// head counted: 1,048,576 where `limit=N` is not given, and no limit where N is 0.
    pub settings: Settings,
    /// `record=FILE`: where the call and its response are recorded.
    pub file: Option<Text>,
    /// The words of the call.
    pub words: List<Text>,
}

/// What the program is to do.
#[derive(Drop)]
pub enum Command {
    /// `--help`: prints how it is called.
    Help,
    /// `--version`: prints its version.
    Version,
    /// `--grammar`: prints the calls as JSON.
    Grammar,
    /// `--operations`: prints the calls of the table, each with its words and what it asks for.
    Operations,
    /// Makes a call.
    Make(Order),
}

/// The first that is there of two texts that may be absent.
fn first_of<'a>(first: Option<&'a str>, second: Option<&'a str>) -> Option<&'a str>
    ensures { option_map (λ text. text.now) result ≡
        first_of (option_map (λ text. text.now) first.entry)
        (option_map (λ text. text.now) second.entry) }
{
    match first {
        Some(text) => Some(text),
        None => second,
    }
}

/// The limit of `limit=N`, where 0 is no limit.
fn limit_of(limit: u32) -> Option<u32>
    ensures { result ≡ limit_of limit }
{
    if limit == 0 { None } else { Some(limit) }
}

/// A call with these settings.
fn order_with(
    alloc: Global,
    user: Option<&str>,
    password: Option<&str>,
    limit: Option<u32>,
    file: Option<&str>,
    words: &[Text],
) -> Result<Option<Order>, OutOfMemory>
    ensures { IfOk result (λ order. order ≡ Some (order_with
        (credential_for (option_map (λ text. text.now) user.entry)
        (option_map (λ text. text.now) password.entry))
        limit (option_map (λ text. text.now) file.entry) words.now)) }
{
    let user = copy_text(alloc, user)?;
    let password = copy_text(alloc, password)?;
    let file = copy_text(alloc, file)?;
    let words = clone_items(words, alloc)?;
    Ok(Some(Order {
        settings: Settings::new(user, password, limit),
        file,
        words,
    }))
}

/// The call of these words; `None` where its options are not of the grammar. The password is that
/// of the words, or else that of the environment.
fn order_of(
    alloc: Global,
    environment: Option<&str>,
    words: &[Text],
) -> Result<Option<Order>, OutOfMemory>
    ensures { IfOk result
        (λ order. order ≡ order_of (option_map (λ text. text.now) environment.entry) words.now) }
{
    let (user, words) = option_given("user=", words);
    let (password, words) = given_after(user, "password=", words);
    let (limit, words) = option_given("limit=", words);
    let (file, words) = option_given("record=", words);
    let password = first_of(password, environment);
    match limit {
        Some(limit) => match number_of(limit) {
            Some(limit) => order_with(alloc, user, password, limit_of(limit), file, words),
            None => Ok(None),
        },
        None => order_with(alloc, user, password, Some(DEFAULT_LIMIT), file, words),
    }
}

/// The command of a call, where there is one.
fn make_command(order: Option<Order>) -> Option<Command>
    ensures { result ≡ option_map Make order }
{
    match order {
        Some(order) => Some(Command::Make(order)),
        None => None,
    }
}

/// The command of one word: `--help`, `--version`, `--grammar`, `--operations`, or else a call.
fn one_word(
    alloc: Global,
    environment: Option<&str>,
    word: &str,
    words: &[Text],
) -> Result<Option<Command>, OutOfMemory>
    ensures { IfOk result
        (λ command. command ≡ one_word word.now
        (option_map Make (order_of (option_map (λ text. text.now) environment.entry) words.now))) }
{
    match word {
        "--help" => Ok(Some(Command::Help)),
        "--version" => Ok(Some(Command::Version)),
        "--grammar" => Ok(Some(Command::Grammar)),
        "--operations" => Ok(Some(Command::Operations)),
        _ => Ok(make_command(order_of(alloc, environment, words)?)),
    }
}

/// The command of the words after the program's name; `None` where they are not of the grammar.
pub fn command_of(
    alloc: Global,
    environment: Option<&str>,
    words: &[Text],
) -> Result<Option<Command>, OutOfMemory>
    ensures { IfOk result
        (λ command. command ≡
        command_of (option_map (λ text. text.now) environment.entry) words.now) }
{
    match words {
        [word] => one_word(alloc, environment, word.as_str(), words),
        _ => Ok(make_command(order_of(alloc, environment, words)?)),
    }
}
