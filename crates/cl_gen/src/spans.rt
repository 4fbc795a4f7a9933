//! Spans of ticks: what wishes are clamped to, and when the jobs of a pattern may arrive.
ghost use Rattle.std.specs.Prelude.{◌≡◌, ◌≤◌, max, min};
ghost use Rattle.cl_model.specs.{Ranges.IsKindInRange, Timing.IsKindOrdered};
ghost use Rattle.cl_runs.specs.Pattern.{first_least, first_greatest, burst_gap, least_gap, greatest_gap};

use cl_model::{MOST_TICKS, StimulusKind};

/// The numbers of ticks from `least` to `greatest`.
#[derive(Clone, Copy)]
pub(crate) struct Span {
    pub(crate) least: u64,
    pub(crate) greatest: u64,
}

impl Span {
    /// Returns the number of the span that is nearest to a wish.
    pub(crate) fn clamp(self, wish: u64) -> u64
        requires { self.least ≤ self.greatest }
        ensures nearest { result ≡ max self.least (min wish self.greatest) }
        ensures least { self.least ≤ result }
        ensures greatest { result ≤ self.greatest }
    {
        wish.clamp(self.least, self.greatest)
    }
}

/// Returns when the first job of a pattern may arrive.
pub(crate) fn first_span(pattern: StimulusKind) -> Span
    requires range { IsKindInRange pattern }
    ensures least { result.least ≡ first_least pattern }
    ensures greatest { result.greatest ≡ first_greatest pattern }
{
    match pattern {
        StimulusKind::Periodic { offset, .. } | StimulusKind::Burst { offset, .. } => Span {
            least: offset,
            greatest: offset,
        },
        StimulusKind::Sporadic { greatest, .. } => Span {
            least: 0,
            greatest: greatest - 1,
        },
    }
}

/// Returns how many ticks after a job of bursts, given by its number, the next one arrives.
fn burst_gap(period: u64, count: u64, distance: u64, job: u64) -> u64
    requires { 1 ≤ count }
    ensures { result ≡ burst_gap period count distance job }
{
    if job % count + 1 < count {
        distance
    } else {
        period.saturating_sub((count - 1).saturating_mul(distance))
    }
}

/// Returns how many ticks after a job of a pattern, given by its number, the next one may arrive.
pub(crate) fn gaps_after(pattern: StimulusKind, job: u64) -> Span
    requires range { IsKindInRange pattern }
    requires ordered { IsKindOrdered pattern }
    ensures least { result.least ≡ least_gap pattern job }
    ensures greatest { result.greatest ≡ greatest_gap pattern job }
    ensures some { 1 ≤ result.least }
    ensures ordered { result.least ≤ result.greatest }
    ensures few { result.greatest ≤ MOST_TICKS }
{
    match pattern {
        StimulusKind::Periodic { period, .. } => Span {
            least: period,
            greatest: period,
        },
        StimulusKind::Sporadic { least, greatest } => Span { least, greatest },
        StimulusKind::Burst {
            period,
            count,
            distance,
            ..
        } => {
            let gap = burst_gap(period, count, distance, job);
            Span {
                least: gap,
                greatest: gap,
            }
        }
    }
}
