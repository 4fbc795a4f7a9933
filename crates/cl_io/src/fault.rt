use thiserror::Error;

/// Why a fetch returned no bytes.
#[derive(Clone, Copy, Debug, PartialEq, Eq, Error)]
pub enum FetchFault {
    /// The file couldn't be read.
    #[error("the file couldn't be read")]
    Failed,
    /// The file has more bytes than the limit.
    #[error("the file is too long: more than {taken} bytes")]
    Long {
        /// How many bytes were taken before the fetch stopped: more than the limit.
        taken: u64,
    },
    /// There is no memory for the file.
    #[error("memory ran out")]
    NoMemory,
}

/// Why a sink took no bytes.
#[derive(Clone, Copy, Debug, PartialEq, Eq, Error)]
pub enum SinkFault {
    /// The output couldn't be written.
    #[error("the output couldn't be written")]
    Failed,
}

/// Why a piece wasn't written whole.
#[derive(Clone, Copy, Debug, PartialEq, Eq, Error)]
pub enum WriteFault {
    /// The sink failed before the whole piece was written.
    #[error("the output stopped after {written} bytes")]
    Failed {
        /// How many bytes of the piece were written before the sink failed.
        written: u64,
    },
}
