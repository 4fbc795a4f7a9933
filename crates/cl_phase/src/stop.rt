//! The groups of a chain on its walks. Times are in ticks.
use crate::pace::Pace;

/// A group of a chain on its walks: the pace of its arrivals, and the lag of the hop to the next
/// group. A job of the next group that just misses what a job of this one writes arrives less than
/// the lag after it.
#[derive(Clone, Copy, PartialEq, Eq)]
pub struct Stop {
    pub pace: Pace,
    /// The lag of the hop to the next group, 0 for the last group.
    pub lag: i64,
}

impl Default for Stop {
    fn default() -> Stop {
        Stop {
            pace: Pace::Free { greatest: 0 },
            lag: 0,
        }
    }
}
