//! The program `kmip_ttlv`: it turns an item of KMIP into JSON or XML, and these into an item.
//!
//! It reads standard input to its end and writes standard output, so that it stands in pipes.
#![tactic(auto)]

mod laws;
mod messages;
mod program;
#[cfg(test)]
mod tests;

use kmip_wire::{List, OutOfMemory, Text};
use messages::message;
use program::{Failure, command_of, transcode};
use std::env;
use std::io::{Read, Write};
use std::process::ExitCode;

const HELP: &str = "\
Turns an item of KMIP, as it is sent, into JSON or XML, and these into an item.

    kmip_ttlv decode        hex digits or the bytes of an item, to JSON
    kmip_ttlv decode xml    the same, to XML
    kmip_ttlv encode        JSON, or XML where it begins with <, to hex digits

It reads standard input to its end and writes one line on standard output.

Status   0 done   1 the input is not what the words say, and standard error
         tells why   2 the words are not of this grammar
         3 the input cannot be read   4 the output cannot be written
         5 out of memory, or a word is not UTF-8
";

/// The words after the program's name. `OutOfMemory` comes also where one of them is not UTF-8.
fn given_words(rt: &HostRuntime) -> Result<List<Text>, OutOfMemory> {
    let mut words = List::new(rt.alloc());
    let Ok(args) = env::args(rt) else {
        return Err(OutOfMemory);
    };
    for word in args.skip(1) {
        words.push(Text::of(rt.alloc(), word.as_str())?)?;
    }
    Ok(words)
}

/// Says why there is no output, and returns the status.
fn complain(rt: &HostRuntime, input: &[u8], failure: &Failure) -> u8 {
    if let Failure::OutOfMemory = failure {
        return 5;
    }
    let Ok(text) = message(rt.alloc(), input, failure) else {
        return 5;
    };
    let _written = rt.stderr().write_all(text.as_str().as_bytes());
    1
}

fn run(rt: &HostRuntime) -> u8 {
    let Ok(words) = given_words(rt) else {
        return 5;
    };
    let Some(command) = command_of(words.as_slice()) else {
        let _written = rt.stderr().write_all(HELP.as_bytes());
        return 2;
    };
    let mut input = Vec::new(rt.alloc());
    if rt.stdin().read_to_end(&mut input).is_err() {
        return 3;
    }
    let output = match transcode(rt.alloc(), command, &input) {
        Ok(output) => output,
        Err(failure) => return complain(rt, &input, &failure),
    };
    match rt.stdout().write_all(&output) {
        Ok(()) => 0,
        Err(_) => 4,
    }
}

fn main(rt: HostRuntime) -> ExitCode {
    ExitCode::from(run(&rt))
}
