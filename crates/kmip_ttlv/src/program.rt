//! What the program writes for its input.
ghost use Rattle.std.specs.Prelude.{◌≡◌, ◌++◌, [], ◌∷◌, IfOk, MatchResult, filter, IsErrOf};
ghost use Rattle.kmip_wire.specs.Parses.{Parses};
ghost use Rattle.kmip_ttlv.specs.Program.{is_mark, bytes_in, WholeFails, Decodes};
ghost use Rattle.kmip_ttlv.specs.Program.{Encodes, Writes, Fails, command_of};
ghost use Rattle.hex.specs.Hex.{encode_upper};
ghost use Rattle.kmip_encodings.specs.Encoding.{json_text};
ghost use Rattle.kmip_encodings.specs.Xml.{xml_of};

use hex::FromHexError;
use kmip_encodings::{to_json, to_xml};
use kmip_wire::{
    Blob, OutOfMemory as NoMemory, Text, Tree, WireError, one_tree, read_tree, write_tree,
};
use kmip_xml::{TextError, from_text};
use std::alloc::Global;
use std::str;

/// What the words ask for.
#[derive(Clone, Copy, PartialEq, Eq, Debug, Drop)]
pub enum Command {
    /// `decode`: an item, in hex or as its bytes, as JSON.
    DecodeJson,
    /// `decode xml`: the same as XML.
    DecodeXml,
    /// `encode`: JSON or XML as the bytes of an item, in hex.
    Encode,
}

/// Why there is no output.
#[derive(Drop)]
pub enum Failure {
    /// The input is no item, or more than one.
    NotItem,
    /// The input is not UTF-8.
    NotText,
    /// The input is no XML and no JSON that means a tree.
    Unread(TextError),
    /// The tree has no bytes: an item is too long, or the bytes of a Big Integer are no multiple
    /// of 8.
    NoForm,
    /// Memory ran out.
    OutOfMemory,
}

impl From<NoMemory> for Failure {
    ghost use Rattle.std.specs.Prelude.{◌≡◌};
    ghost use Rattle.kmip_ttlv.specs.declared.program.Failure.TheVariants.{OutOfMemory};

    ghost from_gives = { λ _ e. e ≡ OutOfMemory };

    fn from(_cause: NoMemory) -> Failure {
        Failure::OutOfMemory
    }
}

/// What the words ask for; `None` where they are none of the program's.
pub fn command_of(words: &[Text]) -> Option<Command>
    ensures { result ≡ command_of words.now }
{
    match words {
        [word] => match word.as_str() {
            "decode" => Some(Command::DecodeJson),
            "encode" => Some(Command::Encode),
            _ => None,
        },
        [word, form] => match (word.as_str(), form.as_str()) {
            ("decode", "xml") => Some(Command::DecodeXml),
            _ => None,
        },
        _ => None,
    }
}

fn is_mark(byte: u8) -> bool
    ensures { result ≡ is_mark byte }
{
    !matches!(byte, b' ' | b'\t' | b'\n' | b'\r')
}

/// The input without its white space.
#[tactic(auto, using(std::proofs::lemmas::List::Elements::filter_more))]
fn marks(alloc: Global, input: &[u8]) -> Result<Vec<u8>, NoMemory>
    ensures { IfOk result (λ kept. kept.items ≡ filter is_mark input.now) }
{
    let mut kept = Vec::new(alloc);
    for byte in input {
        if is_mark(*byte) {
            kept.push(*byte)?;
        }
    }
    Ok(kept)
}

/// A copy of these bytes.
fn copy(alloc: Global, bytes: &[u8]) -> Result<Vec<u8>, NoMemory>
    ensures { IfOk result (λ copy. copy.items ≡ bytes.now) }
{
    let mut copy = Vec::new(alloc);
    copy.extend_from_slice(bytes)?;
    Ok(copy)
}

/// Appends a line feed.
fn end_line(line: &mut Vec<u8>) -> Result<(), NoMemory>
    ensures { IfOk result (λ _. line.new.items ≡ line.old.items ++ 10 ∷ []) }
{
    line.push(b'\n')?;
    Ok(())
}

/// The bytes that the input spells in hex, with white space anywhere, or else the input itself.
pub(crate) fn bytes_in(alloc: Global, input: &[u8]) -> Result<Vec<u8>, NoMemory>
    ensures { IfOk result (λ bytes. bytes.items ≡ bytes_in input.now) }
{
    match hex::decode(alloc, marks(alloc, input)?.as_slice()) {
        Ok(bytes) => Ok(bytes),
        Err(FromHexError::OutOfMemory) => Err(NoMemory),
        Err(_) => copy(alloc, input),
    }
}

/// The tree of the one item that the bytes are.
#[tactic(auto, using(crate::proofs::Whole::no_item))]
fn read_whole(alloc: Global, bytes: &[u8]) -> Result<Tree, Failure>
    ensures { MatchResult result (λ tree. Parses tree 1 bytes.now)
        (λ failure. WholeFails bytes.now failure) }
{
    one_tree();
    match read_tree(alloc, bytes) {
        Ok((tree, size)) => if size == bytes.len() {
            Ok(tree)
        } else {
            Err(Failure::NotItem)
        },
        Err(WireError::Malformed) => Err(Failure::NotItem),
        Err(WireError::NoForm) => Err(Failure::NotItem),
        Err(WireError::OutOfMemory) => Err(Failure::OutOfMemory),
    }
}

fn decode_json(alloc: Global, input: &[u8]) -> Result<Vec<u8>, Failure>
    ensures { MatchResult result (λ out. Decodes json_text input.now out.items)
        (λ failure. Fails input.now failure) }
{
    let tree = read_whole(alloc, &bytes_in(alloc, input)?)?;
    let mut out = Vec::new(alloc);
    to_json(alloc, &tree, &mut out)?;
    end_line(&mut out)?;
    Ok(out)
}

fn decode_xml(alloc: Global, input: &[u8]) -> Result<Vec<u8>, Failure>
    ensures { MatchResult result (λ out. Decodes xml_of input.now out.items)
        (λ failure. Fails input.now failure) }
{
    let tree = read_whole(alloc, &bytes_in(alloc, input)?)?;
    let text = to_xml(alloc, &tree)?;
    let mut out = copy(alloc, text.as_str().as_bytes())?;
    end_line(&mut out)?;
    Ok(out)
}

/// The digits of the bytes in upper-case hex, and a line feed.
fn line_of(alloc: Global, bytes: &[u8]) -> Result<Vec<u8>, NoMemory>
    ensures { IfOk result (λ line. line.items ≡ encode_upper bytes.now ++ 10 ∷ []) }
{
    let digits = hex::encode_upper(alloc, bytes)?;
    let mut line = copy(alloc, digits.as_str().as_bytes())?;
    end_line(&mut line)?;
    Ok(line)
}

fn encode(alloc: Global, input: &[u8]) -> Result<Vec<u8>, Failure>
    ensures { MatchResult result (λ out. Encodes input.now out.items)
        (λ failure. Fails input.now failure) }
{
    let Ok(text) = str::from_utf8(input) else {
        return Err(Failure::NotText);
    };
    let tree = match from_text(alloc, text) {
        Ok(tree) => tree,
        Err(error) => return Err(Failure::Unread(error)),
    };
    match write_tree(alloc, &tree) {
        Ok(bytes) => Ok(line_of(alloc, bytes.as_slice())?),
        Err(WireError::OutOfMemory) => Err(Failure::OutOfMemory),
        Err(_) => Err(Failure::NoForm),
    }
}

/// What is written for the input, or why there is nothing.
pub fn transcode(alloc: Global, command: Command, input: &[u8]) -> Result<Vec<u8>, Failure>
    ensures { MatchResult result (λ out. Writes command input.now out.items)
        (λ failure. Fails input.now failure) }
{
    match command {
        Command::DecodeJson => decode_json(alloc, input),
        Command::DecodeXml => decode_xml(alloc, input),
        Command::Encode => encode(alloc, input),
    }
}
