//! The program `kmip_run`: it makes calls of a KMIP client over recorded responses or over a server
//! in memory, explains diagnostics, reports on captured traffic, and makes exchanges from a number.
//!
//! Its words say what to do. Its standard input is the script: one call or one diagnostic a line,
//! or two lines of captured bytes; `make` reads none. It writes what each call sent and returned,
//! what each diagnostic shows, the outcome of each captured exchange, or how many exchanges were
//! made and their results. It ends with a status from 0 to 6, as `Status::code` says.
#![tactic(auto)]

mod auditing;
mod command;
mod exchange;
mod explain;
mod joined;
mod laws;
mod make;
#[cfg(test)]
mod make_tests;
mod output;
mod program;
mod replay;
mod respond;
mod script;
mod setup;
mod status;
#[cfg(test)]
mod tests;

use kmip_link::{MemoryLink, StdSink, StdSource};
use kmip_wire::{List, OutOfMemory, Text};
use status::Status;
use std::env;
use std::process::ExitCode;

/// The words after the program's name. `OutOfMemory` comes also where one of them is not UTF-8.
fn given_words(rt: &HostRuntime) -> Result<List<Text>, OutOfMemory> {
    let mut words = List::new(rt.alloc());
    let Ok(args) = env::args(rt) else {
        return Err(OutOfMemory);
    };
    for word in args.skip(1) {
        words.push(Text::of(rt.alloc(), word.as_str())?)?;
    }
    Ok(words)
}

fn main(rt: HostRuntime) -> ExitCode {
    let Ok(words) = given_words(&rt) else {
        return ExitCode::from(Status::OutOfMemory.code());
    };
    let mut source = StdSource::new(rt.stdin());
    let mut sink = StdSink::new(rt.stdout());
    let mut link = MemoryLink::new(rt.alloc());
    ExitCode::from(program::run(rt.alloc(), &words, &mut source, &mut sink, &mut link))
}
