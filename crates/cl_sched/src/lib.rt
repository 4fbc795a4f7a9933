//! The simulator: computes the legal run of a job table, or its part on some cores, from event to
//! event.
#![tactic(auto)]

mod core_progress;
mod progress;
mod simulating;

pub use core_progress::{CoreProgress, Next, Waiting};
pub use progress::Progress;
pub use simulating::{simulate, simulate_cores};
