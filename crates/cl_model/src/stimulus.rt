//! Stimuli: the patterns by which jobs of tasks arrive. Times are in ticks.
ghost use Rattle.std.specs.Prelude.{◌≡◌};
ghost use Rattle.cl_model.specs.{Kinds.is_periodic, Timing.{least_distance, greatest_distance, greatest_jitter}};

use crate::copying::TryCopy;
use crate::name::Name;
use cl_time::NoMemory;
use std::alloc::Global;

/// A pattern of arrivals.
#[derive(Clone, Copy, Debug, PartialEq, Eq)]
pub enum StimulusKind {
    /// Job `k` arrives at `offset + k * period`, and is released at most `jitter` later.
    Periodic {
        period: u64,
        offset: u64,
        jitter: u64,
    },
    /// Jobs arrive at distances from `least` to `greatest`, and each is released as it arrives.
    Sporadic {
        least: u64,
        greatest: u64,
    },
    /// Jobs arrive in bursts of `count`: job `q * count + r`, where `r < count`, arrives at
    /// `offset + q * period + r * distance`, and each is released as it arrives.
    Burst {
        period: u64,
        offset: u64,
        count: u64,
        distance: u64,
    },
}

/// A stimulus: a named pattern of arrivals, to which tasks refer.
#[derive(Debug, PartialEq, Eq, Drop)]
pub struct StimulusDef {
    pub name: Name,
    pub kind: StimulusKind,
}

impl StimulusKind {
    /// Whether the kind is `Periodic`.
    pub fn is_periodic(self) -> bool
        ensures { result ≡ is_periodic self }
    {
        matches!(self, StimulusKind::Periodic { .. })
    }

    /// Returns the least distance between consecutive arrivals. Of a burst it is the distance
    /// within the burst.
    pub fn least_distance(self) -> u64
        ensures { result ≡ least_distance self }
    {
        match self {
            StimulusKind::Periodic { period, .. } => period,
            StimulusKind::Sporadic { least, .. } => least,
            StimulusKind::Burst { distance, .. } => distance,
        }
    }

    /// Returns the greatest distance between consecutive arrivals. Of a burst it is the distance
    /// from the last job of one burst to the first job of the next, or 0 where that job doesn't
    /// arrive later.
    pub fn greatest_distance(self) -> u64
        ensures { result ≡ greatest_distance self }
    {
        match self {
            StimulusKind::Periodic { period, .. } => period,
            StimulusKind::Sporadic { greatest, .. } => greatest,
            StimulusKind::Burst {
                period,
                count,
                distance,
                ..
            } => period.saturating_sub(count.saturating_sub(1).saturating_mul(distance)),
        }
    }

    /// Returns the most ticks from the arrival of a job to its release: the jitter of a periodic
    /// kind, and 0 of any other.
    pub fn greatest_jitter(self) -> u64
        ensures { result ≡ greatest_jitter self }
    {
        match self {
            StimulusKind::Periodic { jitter, .. } => jitter,
            StimulusKind::Sporadic { .. } | StimulusKind::Burst { .. } => 0,
        }
    }
}

impl TryCopy for StimulusDef {
    fn try_copy(&self, _alloc: Global) -> Result<StimulusDef, NoMemory> {
        Ok(StimulusDef {
            name: self.name.copy(),
            kind: self.kind,
        })
    }
}
