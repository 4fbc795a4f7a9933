//! What was found so far.
use std::alloc::Global;

/// The file and the line that are being run, what was found so far, and what the last command has
/// written.
#[derive(Drop)]
pub(crate) struct Tally {
    pub(crate) file: String,
    pub(crate) line: u64,
    /// Whether the models of the file are migrated first.
    pub(crate) migrated: bool,
    /// How many commands of the file's cases were run.
    pub(crate) cases: u64,
    /// Whether the answer of a command of any file differed.
    pub(crate) differs: bool,
    pub(crate) last: Vec<u8>,
}

impl Tally {
    /// Makes a tally of which no file was begun.
    pub(crate) fn new(alloc: Global) -> Self {
        Tally {
            file: String::new(alloc),
            line: 0,
            migrated: false,
            cases: 0,
            differs: false,
            last: Vec::new(alloc),
        }
    }

    /// Begins a file of cases: no line is read, no command is run and nothing is written yet.
    pub(crate) fn begin_file(&mut self, name: String) {
        self.file = name;
        self.line = 0;
        self.cases = 0;
        self.last.clear();
    }

    /// Returns the status of the program where all files are run: 1 if an answer differed, else 0.
    pub(crate) fn status(&self) -> u8 {
        if self.differs { 1 } else { 0 }
    }
}
