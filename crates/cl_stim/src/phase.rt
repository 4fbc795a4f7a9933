//! Phases: fixed arrivals, and the first and the last of them about a moment. Times are in ticks.
ghost use Rattle.std.specs.Prelude.{◌≡◌, ◌≤◌, ◌<◌, pos, ◌+ℤ◌, ◌-ℤ◌, ◌≤ℤ◌, IfSome};
ghost use Rattle.cl_model.specs.{declared.limits.TheConstants.MOST_TICKS, Ranges.IsKindInRange, Timing.IsKindOrdered};
ghost use Rattle.cl_stim.specs.Phase.{IsPhaseInRange, phase_of, arrivals_in, since_turn, first_in_turn, last_in_turn, first_arrival, last_arrival, IsMoment};

use cl_model::StimulusKind;

/// Fixed arrivals: in each period those of a burst, or a single one. The periods go on without a
/// beginning or an end.
#[derive(Clone, Copy, PartialEq, Eq)]
pub struct Phase {
    pub period: u64,
    /// When the first period begins.
    pub offset: u64,
    /// How many jobs arrive in a period.
    pub count: u64,
    /// The distance between the arrivals of two consecutive jobs of a period.
    pub distance: u64,
}

impl Phase {
    /// Returns the phase of a stimulus whose arrivals are fixed, and `None` for a sporadic one.
    pub fn of(kind: StimulusKind) -> Option<Phase>
        requires range { IsKindInRange kind }
        requires ordered { IsKindOrdered kind }
        ensures phase { result ≡ phase_of kind }
        ensures in_range { IfSome result IsPhaseInRange }
    {
        match kind {
            StimulusKind::Periodic { period, offset, .. } => Some(Phase {
                period,
                offset,
                count: 1,
                distance: period,
            }),
            StimulusKind::Sporadic { .. } => None,
            StimulusKind::Burst {
                period,
                offset,
                count,
                distance,
            } => Some(Phase {
                period,
                offset,
                count,
                distance,
            }),
        }
    }

    /// Counts the jobs that arrive in `ticks` ticks, where these are whole periods.
    pub fn arrivals_in(&self, ticks: u64) -> u64
        requires phase { IsPhaseInRange self.now }
        ensures arrivals { result ≡ arrivals_in ticks self.now }
        ensures few { result ≤ ticks }
    {
        ticks / self.period * self.count
    }

    /// Computes how long before a moment the period that holds it began.
    pub fn since_turn(&self, moment: i64) -> u64
        requires phase { IsPhaseInRange self.now }
        requires moment { IsMoment moment }
        ensures since { result ≡ since_turn self.now moment }
        ensures within { result < self.now.period }
    {
        (moment - self.offset as i64).rem_euclid(self.period as i64) as u64
    }

    /// Computes how long after the beginning of a period the first arrival comes that isn't before
    /// `since` ticks of it. It divides only within a burst.
    fn first_in_turn(&self, since: u64) -> u64
        requires phase { IsPhaseInRange self.now }
        requires since { since < self.now.period }
        ensures first { result ≡ first_in_turn self.now since }
        ensures not_before { since ≤ result }
        ensures by_next { result ≤ self.now.period }
    {
        if since == 0 {
            0
        } else if since > (self.count - 1) * self.distance {
            self.period
        } else {
            since.div_ceil(self.distance) * self.distance
        }
    }

    /// Computes how long after the beginning of a period the last arrival comes that isn't after
    /// `since` ticks of it. It divides only within a burst.
    fn last_in_turn(&self, since: u64) -> u64
        requires phase { IsPhaseInRange self.now }
        requires since { since < self.now.period }
        ensures last { result ≡ last_in_turn self.now since }
        ensures not_after { result ≤ since }
    {
        let last = (self.count - 1) * self.distance;
        if since >= last {
            last
        } else {
            since / self.distance * self.distance
        }
    }

    /// Finds the first arrival at or after a moment.
    pub fn first_arrival(&self, moment: i64) -> i64
        requires phase { IsPhaseInRange self.now }
        requires moment { IsMoment moment }
        ensures first { result ≡ first_arrival self.now moment }
        ensures not_before { moment ≤ℤ result }
        ensures near { result ≤ℤ (moment +ℤ pos MOST_TICKS) }
    {
        let since = self.since_turn(moment);
        moment - since as i64 + self.first_in_turn(since) as i64
    }

    /// Finds the last arrival at or before a moment.
    pub fn last_arrival(&self, moment: i64) -> i64
        requires phase { IsPhaseInRange self.now }
        requires moment { IsMoment moment }
        ensures last { result ≡ last_arrival self.now moment }
        ensures not_after { result ≤ℤ moment }
        ensures near { (moment -ℤ pos MOST_TICKS) ≤ℤ result }
    {
        let since = self.since_turn(moment);
        moment - since as i64 + self.last_in_turn(since) as i64
    }
}
