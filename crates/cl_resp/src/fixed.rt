//! Windows that begin at fixed moments. Times are in ticks, and moments may lie before 0.
ghost use Rattle.std.specs.Prelude.{◌≡◌, pos, ◌+ℤ◌, ◌-ℤ◌, ◌≤ℤ◌, ◌<◌, ◌≤◌, ◌*◌, false, [], nat_le, MatchOption};
ghost use Rattle.cl_model.specs.declared.limits.TheConstants.{MOST_TICKS};
ghost use Rattle.cl_stim.specs.{Phase.IsPhaseInRange, Integers.IsIntegerWithin};
ghost use Rattle.cl_resp.specs.{Asked.holds_within, Inner.{Phased.{asked_of, IsPhasedInRange, NoneBefore, IsLeastFrom}, Releases.{IsLaterOf, IsLastReleaseOf, IsLastReleaseBefore}}};

use crate::answering::small_demand;
use crate::counted::{Counted, time_in_phase};
use crate::phased::{InPhase, PhasedQuestion};
use crate::rising::Rising;
use cl_stim::MOST_WIDTH;

/// Finds the last moment before `start` at which a job of a task in phase can be released at the
/// latest.
fn last_release(above: &InPhase, start: i64) -> i64
    requires phase { IsPhaseInRange above.now.phase }
    requires jitter { above.now.jitter ≤ MOST_TICKS }
    requires start { IsIntegerWithin (20000 * MOST_TICKS) start }
    ensures { IsLastReleaseOf above.now start result }
{
    let jitter = above.jitter as i64;
    above.phase.last_arrival(start - 1 - jitter) + jitter
}

/// Returns the later of two moments, or the second where there is no first.
fn later_of(first: Option<i64>, second: i64) -> i64
    ensures { MatchOption first (result ≡ second) (λ found. IsLaterOf found second result) }
{
    match first {
        Some(found) if second < found => found,
        _ => second,
    }
}

impl PhasedQuestion {
    /// Computes what is asked at most of the `width` ticks from `start` on.
    fn demand(&self, start: i64, width: u64) -> u128
        requires in_range { IsPhasedInRange self.now }
        requires start { IsIntegerWithin (20000 * MOST_TICKS) start }
        requires width { width ≤ MOST_WIDTH }
        ensures { result ≡ (asked_of self.now).demand start width }
    {
        let mut needed = small_demand(&self.beside, width);
        for above in self.in_phase.as_slice() {
            needed += time_in_phase(above, start, width);
        }
        needed
    }

    /// Checks whether the window of `width` ticks from `start` on holds its own demand.
    pub(crate) fn holds(&self, start: i64, width: u64) -> bool
        requires in_range { IsPhasedInRange self.now }
        requires start { IsIntegerWithin (20000 * MOST_TICKS) start }
        requires width { width ≤ MOST_WIDTH }
        ensures { result ≡ nat_le ((asked_of self.now).demand start width) width }
    {
        self.demand(start, width) <= u128::from(width)
    }

    /// Finds the least window from `start` on that holds its own demand. The search begins at the
    /// width `least`, below which none does. `None` comes exactly where no window of at most `most`
    /// ticks does.
    pub(crate) fn window_from(&self, start: i64, least: u64, most: u64) -> Option<u64>
        requires in_range { IsPhasedInRange self.now }
        requires start { IsIntegerWithin (20000 * MOST_TICKS) start }
        requires none { NoneBefore (asked_of self.now) start least }
        requires some { 1 ≤ least }
        requires most { most ≤ MOST_WIDTH }
        ensures { MatchOption result
            (holds_within (asked_of self.now) start most ≡ false)
            (λ width. IsLeastFrom (asked_of self.now) start width × (width ≤ most)) }
    {
        let mut beside = Rising::new();
        let mut counted = Counted::new();
        let mut width = least;
        while width <= most {
            let needed = beside.demand(&self.beside, width, most)?
                + counted.demand(self, start, width, most)?;
            if needed <= width {
                return Some(width);
            }
            width = needed;
        }
        None
    }

    /// Finds the last moment before `start` at which a job of a task in phase can be released at
    /// the latest. `None` comes exactly where no task is in phase.
    pub(crate) fn last_release_before(&self, start: i64) -> Option<i64>
        requires in_range { IsPhasedInRange self.now }
        requires start { IsIntegerWithin (20000 * MOST_TICKS) start }
        ensures { MatchOption result (self.now.in_phase ≡ []) (IsLastReleaseBefore self.now start) }
    {
        let mut last: Option<i64> = None;
        for above in self.in_phase.as_slice() {
            last = Some(later_of(last, last_release(above, start)));
        }
        last
    }
}
