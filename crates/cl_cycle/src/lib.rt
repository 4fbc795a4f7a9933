//! Which of the tasks above a task count by their phases, the cycle after which these come round
//! together, and how many jobs of a phase arrive from a moment on.
//!
//! Times are in ticks. Nothing here takes memory.
#![tactic(auto)]

mod counting;
mod cycle;
pub mod laws;

pub use counting::{arrivals_from, arrivals_of};
pub use cycle::{Cycle, MOST_IN_CYCLE, MOST_WORK};
