//! The limits of a simulation.

/// The most ticks of a simulated run.
pub const MOST_RUN_TICKS: u64 = 1_000_000_000;

/// The most executions of runnables that may be counted for a job table that is drawn.
pub const MOST_EXECUTIONS: u64 = 800_000;
