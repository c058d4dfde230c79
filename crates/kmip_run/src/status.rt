//! How a run of the program ends.
ghost use Rattle.std.specs.Prelude.{◌≡◌};
ghost use Rattle.kmip_run.specs.Program.{code_of};

/// How a script ended, or a command that reads none.
#[derive(Clone, Copy)]
pub enum ScriptEnd {
    /// Each call of the lines returned a payload, or each line was explained, or the report was
    /// written, or the exchanges were made.
    Answered,
    /// Some call returned an error.
    Failed,
    /// The words, or a line, are not of the grammar.
    NotOfGrammar,
}

/// How a run of the program ended.
#[derive(Clone, Copy)]
pub enum Status {
    /// The script came to this end, and the whole text was written.
    Ended(ScriptEnd),
    /// The source failed, and nothing was written.
    SourceFailed,
    /// The sink failed, and a part of the text was written.
    SinkFailed,
    /// Memory ran out, and a part of the text, which may be none of it, was written.
    OutOfMemory,
    /// The script is longer than 16,777,216 bytes, and nothing was written.
    TooLong,
}

impl Status {
    /// The exit status of the program.
    pub fn code(self) -> u8
        ensures { result ≡ code_of self }
    {
        match self {
            Status::Ended(ScriptEnd::Answered) => 0,
            Status::Ended(ScriptEnd::Failed) => 1,
            Status::Ended(ScriptEnd::NotOfGrammar) => 2,
            Status::SourceFailed => 3,
            Status::SinkFailed => 4,
            Status::OutOfMemory => 5,
            Status::TooLong => 6,
        }
    }
}
