//! What runs ahead of a runnable, and how its lead is found. Times are in ticks.
ghost use Rattle.std.specs.Prelude.{◌≡◌, ℕ, ◌+◌, ◌*◌, ◌^◌, ◌<◌, ◌≤◌, pos, true};
ghost use Rattle.cl_model.specs.declared.limits.TheConstants.{MOST_TICKS, MOST_RUNNABLES};
ghost use Rattle.cl_stim.specs.Phase.{IsPhaseInRange, arrives_at};
ghost use Rattle.cl_lead.specs.{Ahead.least_lead, Inner.Sure.{sure_time, ahead_in, LATEST_COUNTED, IsSureTaskInRange, IsWorkInRange, NoneArrives, IsQuiet, IsFirstCounted, IsRaised, IsLeastLeadAfter}};

use arrayvec::ArrayVec;
use cl_cycle::arrivals_from;
use cl_model::MOST_TASKS_OF_CORE;
use cl_stim::{MOST_WIDTH, Phase};

/// A periodic task in phase above another.
#[derive(Clone, Copy, PartialEq, Eq)]
pub(crate) struct SureTask {
    /// When its jobs arrive.
    pub(crate) phase: Phase,
    /// How long after its arrival a job is released at most.
    pub(crate) jitter: u64,
    /// The least execution time of a job.
    pub(crate) time: u64,
}

impl Default for SureTask {
    fn default() -> SureTask {
        SureTask {
            phase: Phase {
                period: 1,
                offset: 0,
                count: 1,
                distance: 1,
            },
            jitter: 0,
            time: 0,
        }
    }
}

/// What the lead of a runnable depends on.
#[derive(Drop)]
pub(crate) struct SureWork {
    /// When jobs of its task arrive.
    pub(crate) arrivals: Phase,
    /// After how many ticks these and those of the tasks above come round.
    pub(crate) cycle: u64,
    /// The least times before it in its job.
    pub(crate) before: u64,
    /// The deadline of its task.
    pub(crate) deadline: u64,
    /// The periodic tasks in phase above, in file order.
    pub(crate) above: ArrayVec<SureTask, MOST_TASKS_OF_CORE>,
}

/// Computes how long the jobs of a task run at least that are surely released from a moment on, up
/// to `width` ticks later.
fn sure_time(above: &SureTask, from: u64, width: u64) -> u128
    requires in_range { IsSureTaskInRange above.now }
    requires from { from ≤ LATEST_COUNTED }
    requires width { width ≤ MOST_WIDTH }
    ensures taken { result ≡ sure_time from width above.now }
    ensures small { result ≤ 2 ^ 64 * (MOST_RUNNABLES * MOST_TICKS) }
{
    let ticks = (width + 1).saturating_sub(above.jitter);
    let arrivals = arrivals_from(&above.phase, from as i64, ticks);
    u128::from(arrivals) * u128::from(above.time)
}

/// Finds a moment before another, with no arrival between them: the last arrival, or 0.
fn last_before(phase: &Phase, until: u64) -> u64
    requires phase { IsPhaseInRange phase.now }
    requires some { 1 ≤ until }
    requires until { until ≤ LATEST_COUNTED }
    ensures before { result < until }
    ensures none { NoneArrives phase.now result until }
{
    phase.last_arrival(until as i64 - 1).max(0) as u64
}

/// Finds the first arrival at or after a moment.
fn first_from(phase: &Phase, moment: u64) -> u64
    requires phase { IsPhaseInRange phase.now }
    requires moment { moment ≤ LATEST_COUNTED }
    ensures not_before { moment ≤ result }
    ensures near { result ≤ moment + MOST_TICKS }
    ensures arrives { arrives_at phase.now (pos result) ≡ true }
    ensures first { (between : ℕ) → moment ≤ between → arrives_at phase.now (pos between) ≡ true
        → result ≤ between }
{
    phase.first_arrival(moment as i64) as u64
}

impl SureWork {
    /// Computes how long those above run at least that are surely released from a moment on, up to
    /// `width` ticks later.
    fn taken(&self, from: u64, width: u64) -> u128
        requires in_range { IsWorkInRange self.now }
        requires from { from ≤ LATEST_COUNTED }
        requires width { width ≤ MOST_WIDTH }
        ensures taken { result ≡ (ahead_in self.now).work from width }
        ensures small { result ≤ MOST_TASKS_OF_CORE * (2 ^ 64 * (MOST_RUNNABLES * MOST_TICKS)) }
    {
        let mut taken = 0;
        for above in self.above.as_slice() {
            taken += sure_time(above, from, width);
        }
        taken
    }

    /// Finds a moment before another, with no moment between them from which more is counted than
    /// from the next: the last arrival, or 0.
    fn last_beginning(&self, arrival: u64, until: u64) -> u64
        requires in_range { IsWorkInRange self.now }
        requires some { 1 ≤ until }
        requires until { until ≤ LATEST_COUNTED }
        ensures before { result < until }
        ensures none { (between : ℕ) → result < between → between < until
            → IsQuiet self.now arrival between }
    {
        let mut last = if arrival < until { arrival } else { 0 };
        for above in self.above.as_slice() {
            last = last.max(last_before(&above.phase, until));
        }
        last
    }

    /// Finds the first moment from which on something is counted for a job: the tick after the
    /// arrival before, or 0.
    fn first_counted(&self, arrival: u64) -> u64
        requires in_range { IsWorkInRange self.now }
        requires arrival { arrival ≤ self.now.cycle }
        ensures { IsFirstCounted self.now arrival result }
    {
        (self.arrivals.last_arrival(arrival as i64 - 1) + 1).max(0) as u64
    }

    /// Raises a distance to the greatest from an arrival on that is needed by then, but to no more
    /// than `most`.
    fn raise(&self, arrival: u64, lead: u64, most: u64) -> u64
        requires in_range { IsWorkInRange self.now }
        requires arrival { arrival ≤ self.now.cycle }
        requires before { self.now.before ≤ lead }
        requires lead { lead < most }
        requires most { most ≤ self.now.deadline }
        ensures { IsRaised (ahead_in self.now) arrival lead most result }
    {
        let first = self.first_counted(arrival);
        let mut raised = lead;
        let mut until = arrival + lead + 1;
        while until > first {
            let from = self.last_beginning(arrival, until).max(first);
            let own = if from <= arrival { self.before } else { 0 };
            let needed = self.taken(from, arrival + lead - from) + u128::from(own);
            if needed > u128::from(arrival + most - from) {
                return most;
            }
            raised = raised.max((from + needed as u64).saturating_sub(arrival));
            until = from;
        }
        raised
    }

    /// Finds the lead after an arrival, if it is less than `most`; else `most`.
    fn lead_after(&self, arrival: u64, most: u64) -> u64
        requires in_range { IsWorkInRange self.now }
        requires arrival { arrival ≤ self.now.cycle }
        requires before { self.now.before ≤ most }
        requires most { most ≤ self.now.deadline }
        ensures { IsLeastLeadAfter (ahead_in self.now) arrival most result }
    {
        let mut lead = self.before;
        while lead < most {
            let raised = self.raise(arrival, lead, most);
            if raised == lead {
                return lead;
            }
            lead = raised;
        }
        most
    }

    /// Finds the lead: the least after an arrival of the cycle. No lead is raised further than the
    /// least so far, and all is done where that is no more than the least times before.
    pub(crate) fn lead(&self) -> u64
        requires { IsWorkInRange self.now }
        ensures { result ≡ least_lead (ahead_in self.now) }
    {
        let mut least = self.deadline;
        let mut arrival = first_from(&self.arrivals, 0);
        while arrival < self.cycle && least > self.before {
            least = self.lead_after(arrival, least);
            arrival = first_from(&self.arrivals, arrival + 1);
        }
        least
    }
}
