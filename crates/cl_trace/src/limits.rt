//! The limits of a trace. Times are in ticks.

/// The most ticks of the run of a trace.
pub const MOST_TRACE_TICKS: u64 = 1_000_000_000;

/// The greatest arrival, release and execution time of a job line.
pub const MOST_TRACE_NUMBER: u64 = 2_000_000_000_000;
