//! What the tasks in phase take of windows that only grow and begin at one moment, without counting
//! anew what stays the same. Times are in ticks, and moments may lie before 0.
ghost use Rattle.std.specs.Prelude.{◌≡◌, ℕ, ℤ, ◌*◌, ◌^◌, ◌<◌, ◌≤◌, List, MatchOption, IfSome, sum_by};
ghost use Rattle.cl_model.specs.declared.limits.TheConstants.{MOST_RUNNABLES};
ghost use Rattle.cl_stim.specs.{Phase.IsPhaseInRange, Integers.IsIntegerWithin};
ghost use Rattle.cl_resp.specs.{declared.phased.InPhase.InPhase, Inner.{Phased.{time_in_phase, IsPhasedInRange}, Rising.{taken_from, AreTaken}}};

use crate::phased::{InPhase, PhasedQuestion};
use cl_cycle::arrivals_from;
use cl_model::{MOST_TASKS_OF_CORE, MOST_TICKS};
use cl_stim::MOST_WIDTH;

/// Computes how long the jobs of a task in phase take at most of the `width` ticks from `start` on.
pub(crate) fn time_in_phase(above: &InPhase, start: i64, width: u64) -> u128
    requires phase { IsPhaseInRange above.now.phase }
    requires jitter { above.now.jitter ≤ MOST_TICKS }
    requires time { above.now.time ≤ MOST_RUNNABLES * MOST_TICKS }
    requires start { IsIntegerWithin (20000 * MOST_TICKS) start }
    requires width { width ≤ MOST_WIDTH }
    ensures taken { result ≡ time_in_phase start width above.now }
    ensures small { result ≤ 2 ^ 64 * (MOST_RUNNABLES * MOST_TICKS) }
{
    let from = start - above.jitter as i64;
    let arrivals = arrivals_from(&above.phase, from, width + above.jitter);
    u128::from(arrivals) * u128::from(above.time)
}

/// Finds the widest window from `start` on of which the jobs of a task in phase take just as long
/// as of `width` ticks: up to the next arrival.
fn widest(above: &InPhase, start: i64, width: u64) -> u64
    requires phase { IsPhaseInRange above.now.phase }
    requires start { IsIntegerWithin (20000 * MOST_TICKS) start }
    requires width { width ≤ MOST_WIDTH }
    ensures no_narrower { width ≤ result }
    ensures as_long { (between : ℕ) → width ≤ between → between ≤ result
        → time_in_phase start between above.now ≡ time_in_phase start width above.now }
{
    (above.phase.first_arrival(start + width as i64) - start) as u64
}

/// How many ticks each task in phase takes of a window, and the widest one from the same moment on
/// of which it is known to take just as many. At first this is 0 for each, since each window has a
/// tick or more.
#[derive(Drop)]
pub(crate) struct Counted {
    ticks: [u64; MOST_TASKS_OF_CORE],
    until: [u64; MOST_TASKS_OF_CORE],
}

impl Counted {
    pub(crate) fn new() -> Counted
        ensures { (start : ℤ) (above : List InPhase) (from : ℕ) → 1 ≤ from
            → AreTaken (taken_from start) above result.ticks result.until from }
    {
        Counted {
            ticks: [0; MOST_TASKS_OF_CORE],
            until: [0; MOST_TASKS_OF_CORE],
        }
    }

    /// Computes how many ticks the tasks in phase take at most of the `width` ticks from `start`
    /// on. `None` comes only where they are more than `end`. A task is counted anew only where the
    /// window has outgrown the one up to which its ticks are known.
    pub(crate) fn demand(
        &mut self,
        question: &PhasedQuestion,
        start: i64,
        width: u64,
        end: u64,
    ) -> Option<u64>
        requires in_range { IsPhasedInRange question.now }
        requires start { IsIntegerWithin (20000 * MOST_TICKS) start }
        requires width { width ≤ end }
        requires end { end ≤ MOST_WIDTH }
        requires kept { AreTaken (taken_from start) question.now.in_phase
            self.old.ticks self.old.until width }
        ensures demand { MatchOption result
            (end < sum_by (time_in_phase start width) question.now.in_phase)
            (λ needed. needed ≡ sum_by (time_in_phase start width) question.now.in_phase) }
        ensures small { IfSome result (λ needed. needed ≤ MOST_TASKS_OF_CORE * MOST_WIDTH) }
        ensures kept { AreTaken (taken_from start) question.now.in_phase
            self.new.ticks self.new.until width }
    {
        let mut needed = 0;
        for (place, above) in question.in_phase.as_slice().iter().enumerate() {
            if self.until[place] < width {
                let ticks = time_in_phase(above, start, width);
                if ticks > u128::from(end) {
                    return None;
                }
                self.ticks[place] = ticks as u64;
                self.until[place] = widest(above, start, width);
            }
            needed += self.ticks[place];
        }
        Some(needed)
    }
}
