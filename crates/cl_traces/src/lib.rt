//! What to mend in a trace: the lines after that of a refusal.
#![tactic(auto)]

mod arrivals;
mod bad_line;
mod broken;
mod copying;
mod due;
pub mod laws;
mod lines;
mod pieces;
mod releases;
mod run_line;
mod schedule;
mod times;
mod title;

pub use bad_line::put_bad_trace_line;
pub use broken::put_broken_rule;
pub use title::is_titled_trace;
