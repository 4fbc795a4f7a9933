//! Traces: runs written as text, and read from it.
#![tactic(auto)]

mod ending;
mod guesses;
mod job_lines;
pub mod laws;
mod limits;
mod lines;
mod pieces;
mod reading;
mod run_lines;
mod writing;

pub use limits::{MOST_TRACE_NUMBER, MOST_TRACE_TICKS};
pub use reading::{TraceFault, read_trace};
pub use writing::write_trace;
