//! The commands of the program, and the calls that run them: `run` over any shelf and any sink, and
//! `start` on a real machine.
#![tactic(auto)]

mod command;
mod commands;
pub mod laws;
mod running;
mod subject;

pub use cl_engine::{FILE_LIMIT, FileShelf, OutSink, Outcome, status};
pub use cl_help::Topic;
pub use command::{Command, TRACE_LIMIT};
pub use running::{run, start};
pub use subject::What;
