//! The statuses that a call of `run`, and so the program, ends with.

/// The command did what it says.
pub const DONE: u8 = 0;

/// The words are no command.
pub const WORDS_REFUSED: u8 = 2;

/// A file couldn't be read.
pub const READ_FAULT: u8 = 3;

/// A file is longer than its limit.
pub const LONG_FILE: u8 = 4;

/// The model is refused.
pub const MODEL_REFUSED: u8 = 5;

/// The trace file is no trace of the model, or its run isn't legal.
pub const TRACE_REFUSED: u8 = 6;

/// A line of the list of edits is no edit, or its edit is refused.
pub const EDITS_REFUSED: u8 = 7;

/// Too many executions of runnables are counted for the run that is to be simulated.
pub const SIMULATION_REFUSED: u8 = 8;

/// The output couldn't be written whole.
pub const WRITE_FAULT: u8 = 9;

/// Memory ran out, and nothing was written.
pub const NO_MEMORY: u8 = 10;

/// An argument of the program isn't text, so there are no words to run. `run` never returns it.
pub const ARGUMENT_NOT_TEXT: u8 = 12;

/// A task isn't shown to meet its deadline, or a requirement isn't shown to be met.
pub const NOT_VERIFIED: u8 = 13;

/// The window that is to be drawn doesn't lie within the run.
pub const WINDOW_REFUSED: u8 = 14;

/// The model has no task, chain or requirement of the name that is asked for.
pub const NAME_UNKNOWN: u8 = 15;

/// The run that is asked for would have too many ticks.
pub const RUN_REFUSED: u8 = 16;
