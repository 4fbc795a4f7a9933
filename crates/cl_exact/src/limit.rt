//! The limit on the hyperperiod of a chain. Times are in ticks.

/// The greatest number of times that the hyperperiod of a chain may hold the lesser of its first
/// and its last period.
pub const MOST_FIRST_JOBS: u64 = 1_000_000;

/// The error for a chain, or a part of one, whose hyperperiod exceeds the limit. It carries the
/// limit in ticks.
#[derive(Clone, Copy, PartialEq, Eq)]
pub struct HyperLimit {
    pub limit: u64,
}
