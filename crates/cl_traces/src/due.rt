//! When the next job of a task may arrive. Times are in ticks.
ghost use Rattle.std.specs.Prelude.{◌≡◌, ◌+◌, ◌≤◌};
ghost use Rattle.cl_runs.specs.Pattern.{IsPattern, first_least, first_greatest, burst_gap, least_gap, greatest_gap};

use cl_model::StimulusKind;

/// The ticks at which the next job of a task may arrive: from `low` to `high`, both included.
#[derive(Clone, Copy)]
pub(crate) struct Due {
    pub(crate) low: u128,
    pub(crate) high: u128,
}

/// Computes the gap after a job of bursts: their distance within a burst, and after its last job
/// what is left of the period.
fn burst_gap(period: u64, count: u64, distance: u64, job: u64) -> u64
    requires { 1 ≤ count }
    ensures { result ≡ burst_gap period count distance job }
{
    if job % count < count - 1 {
        distance
    } else {
        period.saturating_sub((count - 1).saturating_mul(distance))
    }
}

/// Computes the least and the greatest gap after a job.
fn gaps(kind: StimulusKind, job: u64) -> (u64, u64)
    requires { IsPattern kind }
    ensures least { result.0 ≡ least_gap kind job }
    ensures greatest { result.1 ≡ greatest_gap kind job }
{
    match kind {
        StimulusKind::Periodic { period, .. } => (period, period),
        StimulusKind::Sporadic { least, greatest } => (least, greatest),
        StimulusKind::Burst {
            period,
            count,
            distance,
            ..
        } => {
            let gap = burst_gap(period, count, distance, job);
            (gap, gap)
        }
    }
}

impl Due {
    /// Returns the ticks at which the first job may arrive.
    pub(crate) fn first(kind: StimulusKind) -> Due
        ensures low { result.low ≡ first_least kind }
        ensures high { result.high ≡ first_greatest kind }
    {
        let (low, high) = match kind {
            StimulusKind::Periodic { offset, .. } | StimulusKind::Burst { offset, .. } => (
                offset, offset,
            ),
            StimulusKind::Sporadic { greatest, .. } => (0, greatest.saturating_sub(1)),
        };
        Due {
            low: u128::from(low),
            high: u128::from(high),
        }
    }

    /// Returns the ticks at which the next job may arrive, after the job with this number and
    /// arrival.
    pub(crate) fn after(kind: StimulusKind, job: u64, arrival: u64) -> Due
        requires { IsPattern kind }
        ensures low { result.low ≡ arrival + least_gap kind job }
        ensures high { result.high ≡ arrival + greatest_gap kind job }
    {
        let (least, greatest) = gaps(kind, job);
        Due {
            low: u128::from(arrival) + u128::from(least),
            high: u128::from(arrival) + u128::from(greatest),
        }
    }
}
