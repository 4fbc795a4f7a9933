//! Percentages of the greatest execution times.

/// The greatest percentage that `headroom` tries.
pub const MOST_PERCENT: u64 = 1_000;
