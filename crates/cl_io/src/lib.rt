//! The outside as the program sees it: shelves that hold files, sinks that take text, and the words
//! of a command.
//!
//! The traits say what a caller may rely on, whatever stands behind them. The shelves and sinks in
//! memory are for tests and for callers that keep everything in the process.
#![tactic(auto)]

mod fault;
mod files;
mod mem_shelf;
mod mem_sink;
mod name_numbers;
mod shelf;
mod sink;
mod sure_shelf;
mod sure_sink;
mod words;

pub use fault::{FetchFault, SinkFault, WriteFault};
pub use mem_shelf::MemShelf;
pub use mem_sink::MemSink;
pub use name_numbers::{NameNumbers, Numbers};
pub use shelf::Shelf;
pub use sink::{Sink, write_all};
pub use sure_shelf::SureShelf;
pub use sure_sink::SureSink;
pub use words::Words;
