//! What a run of the program does for a list of words, over sinks and sources in memory.
use kmip_caller::{Command, LastError, Status, WRONG_LIMIT, command_of, refuse, run};
use kmip_link::{MemorySink, MemorySource};
use kmip_test_messages::{expand, message};
use kmip_wire::{List, Text};
use kmip_words::read_up_to;
use std::alloc::Global;
use std::process::Abort;
use std::test::Fail;

/// The request of `rng 16`, and its response.
pub const RNG: &str = "REQ2(25, C4 i16)";

const RANDOM: &str = "OK2(25, C2 xDEADBEEF)";

/// The same request with the credential of alice, whose password is secret.
pub const RNG_BY_ALICE: &str =
    "78{77{69{6A i1,6B i2},0C{23{24 e1,25{99 \"alice\",A1 \"secret\"}}},0D i1},0F{5C e25,79{C4 i16}}}";

/// The line of `record=calls rng 16`.
pub const RECORD: &str = "rng 16 <OK2(25, C2 xDEADBEEF)>\n";

/// What is written where the sink failed, and where the source did.
pub const NOT_SENT: &str = "{\"error\":\"RequestWriteError\",\"text\":\"link failed\"}\n";

pub const NOT_READ: &str = "{\"error\":\"ResponseReadError\",\"text\":\"link failed\"}\n";

/// The calls that fail: of the sink that is the wire, of the source, and of the sinks of the record and the answer.
#[derive(Clone, Copy)]
pub struct Failing {
    pub wire: &'static [u64],
    pub source: &'static [u64],
    pub kept: &'static [u64],
    pub errors: &'static [u64],
}

pub const NONE: Failing = Failing {
    wire: &[],
    source: &[],
    kept: &[],
    errors: &[],
};

/// What the program sends and writes for these words over this response, with which status it ends, how many bytes of
/// the response it leaves unread, and what it records.
#[derive(Clone, Copy)]
pub struct Row {
    pub shows: &'static str,
    pub words: &'static [&'static str],
    /// The password of the environment.
    pub password: Option<&'static str>,
    pub response: &'static str,
    pub failing: Failing,
    pub sent: &'static str,
    pub line: &'static str,
    pub status: u8,
    pub left: usize,
    pub record: &'static str,
}

/// The call of `rng 16`, which is answered.
pub const ANSWERED: Row = Row {
    shows: "random bytes",
    words: &["rng", "16"],
    password: None,
    response: RANDOM,
    failing: NONE,
    sent: RNG,
    line: "{\"answer\":{\"random_bytes\":\"DEADBEEF\"}}\n",
    status: 0,
    left: 0,
    record: "",
};

/// The lines of words that are not those of `rng`, of an option of `sign` whose value is none, of
/// words that begin with an option, and of a limit that is none.
pub const NOT_RNG: &str =
    "{\"error\":\"GrammarError\",\"text\":\"the words are not those of rng N\"}\n";

/// The line of a number that is written otherwise.
pub const NO_NUMBER: &str =
    "{\"error\":\"GrammarError\",\"text\":\"rng: N is no number from -2147483648 to 2147483647 in decimal digits\"}\n";

pub const NOT_SIGN: &str =
    "{\"error\":\"GrammarError\",\"text\":\"sign: hash= is none of MD2, MD4, MD5, SHA1, SHA224, SHA256, SHA384, SHA512, RIPEMD160, Tiger, Whirlpool\"}\n";

pub const OPTION: &str =
    "{\"error\":\"GrammarError\",\"text\":\"an option is out of its place, or there is none of its name\"}\n";

pub const LIMIT: &str =
    "{\"error\":\"GrammarError\",\"text\":\"limit= takes a number from 0 to 4294967295\"}\n";

/// No words, for which nothing is sent or read.
pub const REFUSED: Row = Row {
    shows: "no words",
    words: &[],
    sent: "",
    line: "{\"error\":\"GrammarError\",\"text\":\"no call is given\"}\n",
    status: 2,
    left: 152,
    ..ANSWERED
};

/// The words as the program gets them.
pub fn list_of(alloc: Global, words: &[&str]) -> Result<List<Text>, Fail> {
    let mut list = List::new(alloc);
    for word in words {
        list.push(Text::of(alloc, word)?)?;
    }
    Ok(list)
}

/// The command of these words, with this password of the environment.
pub fn commanded(
    alloc: Global,
    words: &[&str],
    password: Option<&str>,
) -> Result<Option<Command>, Fail> {
    let words = list_of(alloc, words)?;
    Ok(command_of(alloc, password, words.as_slice())?)
}

/// What a run of the program writes to and reads from.
#[derive(Drop)]
struct Ends {
    wire: MemorySink,
    source: MemorySource,
    kept: MemorySink,
    errors: MemorySink,
}

fn ends_of(alloc: Global, row: &Row) -> Result<Ends, Fail> {
    let response = message(alloc, row.response)?;
    Ok(Ends {
        wire: MemorySink::new(alloc, row.failing.wire)?,
        source: MemorySource::new(alloc, response.as_slice(), row.failing.source)?,
        kept: MemorySink::new(alloc, row.failing.kept)?,
        errors: MemorySink::new(alloc, row.failing.errors)?,
    })
}

/// How many bytes are left in a source.
fn left_in(alloc: Global, source: &mut MemorySource) -> Result<usize, Fail> {
    let mut rest = Vec::new(alloc);
    read_up_to(alloc, source, 65536, &mut rest)?;
    Ok(rest.len())
}

/// That these bytes are those of the message in the notation.
fn is_message(
    rt: &impl Abort,
    alloc: Global,
    bytes: &[u8],
    text: &str,
    shows: &str,
) -> Result<(), Fail> {
    let found = hex::encode_upper(alloc, bytes)?;
    let wanted = hex::encode_upper(alloc, message(alloc, text)?.as_slice())?;
    assert_eq!(rt; found.as_str(), wanted.as_str(), "{shows}");
    Ok(())
}

fn is_text(rt: &impl Abort, bytes: &[u8], text: &str, shows: &str) {
    assert_eq!(rt; bytes, text.as_bytes(), "{shows}");
}

/// That the program ended with this status, and did what the row says.
fn is_as_the_row_says(
    rt: &impl Abort,
    alloc: Global,
    status: u8,
    ends: &mut Ends,
    row: &Row,
) -> Result<(), Fail> {
    let left = left_in(alloc, &mut ends.source)?;
    is_text(rt, ends.errors.written(), row.line, row.shows);
    assert_eq!(rt;
        [status as usize, left],
        [row.status as usize, row.left],
        "{}",
        row.shows
    );
    let record = expand(alloc, row.record.as_bytes())?;
    assert_eq!(rt; ends.kept.written(), record.as_slice(), "{}", row.shows);
    is_message(rt, alloc, ends.wire.written(), row.sent, row.shows)
}

/// Runs the program on a command, where that is a call, and refuses one that is none.
fn ordered(alloc: Global, command: &Option<Command>, ends: &mut Ends) -> Status {
    match command {
        Some(Command::Make(order)) => run(
            alloc,
            order,
            &mut ends.wire,
            &mut ends.source,
            &mut ends.kept,
            &mut ends.errors,
            &LastError::new(),
        ),
        None => refuse(alloc, WRONG_LIMIT, &mut ends.errors),
        _ => Status::NoCall,
    }
}

/// That the program does what the row says, for these words.
pub fn is_made_of(rt: &impl Abort, alloc: Global, words: &[&str], row: &Row) -> Result<(), Fail> {
    let mut ends = ends_of(alloc, row)?;
    let command = commanded(alloc, words, row.password)?;
    let status = ordered(alloc, &command, &mut ends);
    drop(command);
    is_as_the_row_says(rt, alloc, status.code(), &mut ends, row)
}

/// That the program does what the row says.
fn is_made(rt: &impl Abort, alloc: Global, row: &Row) -> Result<(), Fail> {
    is_made_of(rt, alloc, row.words, row)
}

/// That the program does what each row says.
pub fn are_made(rt: &impl Abort, alloc: Global, rows: &[Row]) -> Result<(), Fail> {
    for row in rows {
        is_made(rt, alloc, row)?;
    }
    Ok(())
}
