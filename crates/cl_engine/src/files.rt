ghost use Rattle.std.specs.Prelude.{◌≡◌};
ghost use Rattle.cl_engine.specs.Files.{file_count};

/// The most bytes that a model file may have.
pub const FILE_LIMIT: u64 = 16_777_216;

/// The files that a command names behind its verb.
#[derive(Clone, Copy, PartialEq, Eq)]
pub enum Files {
    /// No file.
    Nothing,
    /// A model file, of which the command is given the bytes, whatever they are.
    Content,
    /// A model file, which has to hold a valid model.
    Model,
    /// A model file, which has to hold a valid model, and behind it a second file of at most
    /// `limit` bytes.
    ModelAnd { limit: u64 },
    /// A model file, of which the command is given the bytes where it holds no valid model; and
    /// beside a valid one a second file of at most `limit` bytes.
    ContentAnd { limit: u64 },
}

impl Files {
    /// Counts the files.
    pub fn count(self) -> usize
        ensures { result ≡ file_count self }
    {
        match self {
            Files::Nothing => 0,
            Files::Content | Files::Model => 1,
            Files::ModelAnd { .. } | Files::ContentAnd { .. } => 2,
        }
    }
}
