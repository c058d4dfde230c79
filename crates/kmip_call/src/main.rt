//! The program `kmip_call`: it makes a call of a KMIP client over its own standard input and
//! output.
//!
//! These are the wire: what it writes there is the request's one canonical message, and what it
//! reads there is one response. So any program that carries bytes to a server and back, as
//! `openssl s_client`, `socat` or `stunnel` does over TLS, makes it a client of that server. The
//! answer is a line of JSON on standard error. The status is one from 0 to 5, as `Status::code`
//! says.
#![tactic(auto)]

use kmip_caller::{
    CLOSED_STREAM, Command, LastError, NO_FILE, NOT_UTF8, Order, Status, WRONG_LIMIT, Watched,
    command_of, file_in, grammar_json, help_text, operations_text, refuse, run, with_contents,
};
use kmip_link::{MemorySink, Sink, StdSink, StdSource};
use kmip_wire::{List, OutOfMemory, Text};
use kmip_words::{Ending, number_of};
use std::env::{self, VarError};
use std::fs::{self, File, OpenOptions};
use std::io::{self, ErrorKind, Write};
use std::os::fd::AsRawFd;
use std::os::unix::fs::{FileExt, OpenOptionsExt};
use std::process::ExitCode;

const VERSION: &str = "kmip_call 2.0\n";

/// Why the words or the password of the environment are not had.
#[derive(Drop)]
enum NotRead {
    OutOfMemory,
    /// One of them is not UTF-8.
    NotUtf8,
}

impl From<OutOfMemory> for NotRead {
    fn from(_: OutOfMemory) -> NotRead {
        NotRead::OutOfMemory
    }
}

/// The words after the program's name.
fn given_words(rt: &HostRuntime) -> Result<List<Text>, NotRead> {
    let mut words = List::new(rt.alloc());
    let args = match env::args(rt) {
        Ok(args) => args,
        Err(error) if error.kind() == ErrorKind::InvalidData => return Err(NotRead::NotUtf8),
        Err(_) => return Err(NotRead::OutOfMemory),
    };
    for word in args.skip(1) {
        words.push(Text::of(rt.alloc(), word.as_str())?)?;
    }
    Ok(words)
}

/// The password of the environment, `KMIP_PASSWORD`.
fn given_password(rt: &HostRuntime) -> Result<Option<Text>, NotRead> {
    match env::var(rt, "KMIP_PASSWORD") {
        Ok(password) => Ok(Some(Text::of(rt.alloc(), password.as_str())?)),
        Err(VarError::NotPresent) => Ok(None),
        Err(VarError::NotUnicode) => Err(NotRead::NotUtf8),
        Err(VarError::OutOfMemory) => Err(NotRead::OutOfMemory),
    }
}

/// Writes a text on standard output, and returns the status.
fn say(rt: &HostRuntime, text: &str) -> Status {
    let mut sink = StdSink::new(rt.stdout());
    match kmip_words::write_out(&mut sink, text.as_bytes()) {
        Ok(()) => Status::Ended(Ending::Answered),
        Err(_) => Status::NotWritten,
    }
}

/// Writes a text that was made on standard output, and returns the status.
fn say_made(rt: &HostRuntime, text: Result<Text, OutOfMemory>) -> Status {
    match text {
        Ok(text) => say(rt, text.as_str()),
        Err(OutOfMemory) => Status::OutOfMemory,
    }
}

/// Writes on standard error why no call is made, and returns the status.
fn refuse_with(rt: &HostRuntime, text: &str) -> Status {
    refuse(rt.alloc(), text, &mut StdSink::new(rt.stderr()))
}

/// What a file has that a word names by `@FILE`, or a descriptor by `@3`, up to its end.
fn read_named(rt: &HostRuntime, name: &str) -> io::Result<Vec<u8>> {
    let Some(number) = number_of(name) else {
        return fs::read(rt, name);
    };
    if number < 3 {
        let why = "0, 1 and 2 are the connection and the answer";
        return Err(io::Error::new(ErrorKind::InvalidInput, why));
    }
    let path = format!(in rt.alloc(); "/dev/fd/{number}")?;
    fs::read(rt, path.as_str())
}

/// What a file has that a word names, or why it cannot be read.
fn contents_of(rt: &HostRuntime, name: &str) -> Result<Result<Vec<u8>, Text>, OutOfMemory> {
    match read_named(rt, name) {
        Ok(contents) => Ok(Ok(contents)),
        Err(error) if error.kind() == ErrorKind::OutOfMemory => Err(OutOfMemory),
        Err(error) => {
            let why = format!(in rt.alloc(); "cannot read @{name}: {error}")?;
            Ok(Err(Text::of_string(why)))
        }
    }
}

/// Puts what a file has in the place of the word of a call that names it, where the word at this
/// place does. It returns why it cannot.
fn fill_at(rt: &HostRuntime, place: usize, order: &mut Order) -> Result<Option<Text>, OutOfMemory> {
    let Some(name) = file_in(order.words.as_slice(), place) else {
        return Ok(None);
    };
    let contents = match contents_of(rt, name)? {
        Ok(contents) => contents,
        Err(why) => return Ok(Some(why)),
    };
    let Some(words) = with_contents(rt.alloc(), &contents, place, order.words.as_slice())? else {
        let why = format!(in rt.alloc(); "@{name} is no JSON: it is not UTF-8")?;
        return Ok(Some(Text::of_string(why)));
    };
    order.words = words;
    Ok(None)
}

/// The descriptor that the word of a call at this place names, where it does.
fn descriptor_at(order: &Order, place: usize) -> Option<u32> {
    number_of(file_in(order.words.as_slice(), place)?)
}

/// Whether a word of a call behind this place names this descriptor.
fn is_named_behind(order: &Order, place: usize, number: u32) -> bool {
    for other in place..order.words.len() {
        match descriptor_at(order, other) {
            Some(found) if other != place && found == number => return true,
            _ => {}
        }
    }
    false
}

/// A descriptor that two words of a call name, whose contents are there once.
fn named_twice(order: &Order) -> Option<u32> {
    for place in 0..order.words.len() {
        match descriptor_at(order, place) {
            Some(number) if is_named_behind(order, place, number) => return Some(number),
            _ => {}
        }
    }
    None
}

/// Puts what files have in the places of the words of a call that name them. It returns why it
/// cannot.
fn fill(rt: &HostRuntime, order: &mut Order) -> Result<Option<Text>, OutOfMemory> {
    if let Some(number) = named_twice(order) {
        let why = format!(in rt.alloc(); "@{number} stands for two words, and has its bytes once")?;
        return Ok(Some(Text::of_string(why)));
    }
    for place in 0..order.words.len() {
        let refusal = fill_at(rt, place, order)?;
        if refusal.is_some() {
            return Ok(refusal);
        }
    }
    Ok(None)
}

/// Whether the file of records has this length and ends in a line feed, or is empty.
fn ends_a_line(file: &File, len: u64) -> bool {
    let mut last = [0u8];
    len == 0 || (matches!(file.read_at(&mut last, len - 1), Ok(1)) && last == [b'\n'])
}

/// Whether standard input, output or error is closed: then what is opened next has its number, and
/// would take the request or the answer in its place.
fn has_closed_stream(rt: &HostRuntime) -> bool {
    match OpenOptions::new().read(true).open(rt, "/dev/null") {
        Ok(file) => file.as_raw_fd() < 3,
        Err(_) => false,
    }
}

/// Opens the file of records to add to it. One that is not there is made for its owner alone.
fn open_record(rt: &HostRuntime, path: &str) -> io::Result<File> {
    let mut options = OpenOptions::new();
    options.read(true).append(true).create(true).mode(0o600);
    options.open(rt, path)
}

/// Adds a line at the end of a file, behind a line feed where its last line lacks its own.
fn add_line(mut file: &File, len: u64, line: &[u8]) -> io::Result<()> {
    if !ends_a_line(file, len) {
        file.write_all(b"\n")?;
    }
    file.write_all(line)
}

/// Adds a line at the end of a file. Where it cannot be written whole, what was written of it is
/// taken off the end again.
fn add_whole_line(file: &File, line: &[u8]) -> io::Result<()> {
    let len = file.metadata()?.len();
    let added = add_line(file, len, line);
    if added.is_err() {
        file.set_len(len)?;
    }
    added
}

/// The file of records. It is locked for each line that is added, which is the whole record of a
/// call, and not before: programs that wait for their servers keep no other from the file.
#[derive(Drop)]
struct RecordFile {
    file: File,
}

impl Write for RecordFile {
    fn write(&mut self, line: &[u8]) -> io::Result<usize> {
        self.file.lock()?;
        let added = add_whole_line(&self.file, line);
        let unlocked = self.file.unlock();
        added?;
        unlocked?;
        Ok(line.len())
    }

    fn flush(&mut self) -> io::Result<()> {
        Ok(())
    }
}

/// Makes a call over standard input and output, with this sink for its record, and returns the
/// status.
fn perform_over<F: Sink>(rt: &HostRuntime, order: &Order, kept: &mut F) -> Status {
    let last = LastError::new();
    let (stdout, stdin) = (rt.stdout(), rt.stdin());
    let mut wire = StdSink::new(Watched {
        stream: stdout,
        last: &last,
    });
    let mut source = StdSource::new(Watched {
        stream: stdin,
        last: &last,
    });
    let mut errors = StdSink::new(rt.stderr());
    run(
        rt.alloc(),
        order,
        &mut wire,
        &mut source,
        kept,
        &mut errors,
        &last,
    )
}

/// Makes a call, and returns the status. Where the file for the record cannot be opened, that is
/// `NoCall`, as for words that are no call, and nothing is sent.
fn perform(rt: &HostRuntime, order: &Order) -> Status {
    let Some(path) = &order.file else {
        return match MemorySink::new(rt.alloc(), &[]) {
            Ok(mut kept) => perform_over(rt, order, &mut kept),
            Err(_) => Status::OutOfMemory,
        };
    };
    match open_record(rt, path.as_str()) {
        Ok(file) => perform_over(rt, order, &mut StdSink::new(RecordFile { file })),
        Err(_) => refuse_with(rt, NO_FILE),
    }
}

/// Makes a call, whose words may name files, and returns the status. Where one cannot be read, that
/// is `NoCall`, and nothing is sent.
fn perform_named(rt: &HostRuntime, mut order: Order) -> Status {
    match fill(rt, &mut order) {
        Ok(None) => perform(rt, &order),
        Ok(Some(why)) => refuse_with(rt, why.as_str()),
        Err(OutOfMemory) => Status::OutOfMemory,
    }
}

fn main(rt: HostRuntime) -> ExitCode {
    if has_closed_stream(&rt) {
        return ExitCode::from(refuse_with(&rt, CLOSED_STREAM).code());
    }
    let (words, password) = match (given_words(&rt), given_password(&rt)) {
        (Ok(words), Ok(password)) => (words, password),
        (Err(NotRead::OutOfMemory), _) | (_, Err(NotRead::OutOfMemory)) => {
            return ExitCode::from(Status::OutOfMemory.code());
        }
        _ => return ExitCode::from(refuse_with(&rt, NOT_UTF8).code()),
    };
    let password = match &password {
        Some(password) => Some(password.as_str()),
        None => None,
    };
    let status = match command_of(rt.alloc(), password, words.as_slice()) {
        Ok(Some(Command::Help)) => say_made(&rt, help_text(rt.alloc())),
        Ok(Some(Command::Grammar)) => say_made(&rt, grammar_json(rt.alloc())),
        Ok(Some(Command::Operations)) => say_made(&rt, operations_text(rt.alloc())),
        Ok(Some(Command::Version)) => say(&rt, VERSION),
        Ok(Some(Command::Make(order))) => perform_named(&rt, order),
        Ok(None) => refuse_with(&rt, WRONG_LIMIT),
        Err(OutOfMemory) => Status::OutOfMemory,
    };
    ExitCode::from(status.code())
}
