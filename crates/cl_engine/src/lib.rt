//! The engine of a program of commands: words, files and output, whatever the commands are. The
//! trait `Command` says which words spell a command, which files it needs and what its outcome is;
//! `run` reads the command, opens its files, asks it for its outcome and writes the outcome's text.
#![tactic(auto)]

mod command;
mod edges;
mod files;
mod given;
mod opening;
mod outcome;
mod running;
mod starting;
pub mod status;
mod words;

pub use command::Command;
pub use edges::{FileShelf, OutSink};
pub use files::{FILE_LIMIT, Files};
pub use given::Given;
pub use outcome::Outcome;
pub use running::run;
pub use starting::start;
pub use words::{Bounds, two_numbers};
