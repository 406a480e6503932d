use crate::files::NamedBytes;
use crate::objects::Streams;
use crate::watched::Diary;

/// What a run left.
#[derive(Drop)]
pub struct Ran {
    /// The status with which it ended.
    pub status: u8,
    /// The objects outside but the store.
    pub streams: Streams,
    /// The files that are there, of those that were there before and of those that the words or a script name.
    pub files: Vec<NamedBytes>,
    /// The words, and behind them those of the lines of a script.
    pub words: Vec<String>,
    /// The calls of the store.
    pub diary: Diary,
}

impl Ran {
    /// The output.
    pub fn out(&self) -> &[u8] {
        self.streams.out.bytes()
    }

    /// The error output.
    pub fn err(&self) -> &[u8] {
        self.streams.err.bytes()
    }
}

/// How much of what the last run left was told.
#[derive(Drop)]
pub struct Last {
    /// What it left.
    pub ran: Ran,
    /// The files before the run.
    pub before: Vec<NamedBytes>,
    /// Whether the status was told.
    pub status_told: bool,
    /// How many bytes of the output were told.
    pub out_told: usize,
    /// How many bytes of the error output were told.
    pub err_told: usize,
    /// How many answers were told.
    pub answers_told: usize,
    /// The files that a line names.
    pub named: Vec<String>,
}
