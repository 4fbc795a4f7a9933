//! The pace of a group: how its arrivals follow each other. Times are in ticks.
ghost use Rattle.std.specs.Prelude.{◌≡◌, pos, ◌+ℤ◌, ◌-ℤ◌, ◌≤ℤ◌};
ghost use Rattle.cl_model.specs.declared.limits.TheConstants.{MOST_TICKS};
ghost use Rattle.cl_stim.specs.Phase.{IsMoment};
ghost use Rattle.cl_phase.specs.{Pace.{first_from, last_by, previous, next}, Whole.is_kept, Inner.Ranges.IsPaceInRange};

use cl_stim::Phase;

/// The most arrivals that the slowest of the kept phases of a chain may have in their hyperperiod.
pub const MOST_ARRIVALS: u64 = 1_000_000;

/// How the arrivals of a group follow each other, as far as the bounds know.
#[derive(Clone, Copy, PartialEq, Eq)]
pub enum Pace {
    /// They keep this phase.
    Kept(Phase),
    /// Each arrives at most `greatest` ticks after the one before it.
    Free { greatest: u64 },
}

impl Pace {
    /// Whether the group keeps its phase.
    pub(crate) fn is_kept(&self) -> bool
        ensures { result ≡ is_kept self.now }
    {
        matches!(self, Pace::Kept(_))
    }

    /// Finds the first arrival at or after a moment; without a phase the latest moment at which it
    /// may come.
    #[tactic(auto, unfolding(crate::specs::Pace::first_from))]
    pub(crate) fn first_from(&self, moment: i64) -> i64
        requires pace { IsPaceInRange self.now }
        requires moment { IsMoment moment }
        ensures first { result ≡ first_from self.now moment }
        ensures not_before { moment ≤ℤ result }
        ensures near { result ≤ℤ (moment +ℤ pos MOST_TICKS) }
    {
        match self {
            Pace::Kept(phase) => phase.first_arrival(moment),
            Pace::Free { greatest } => moment + (*greatest as i64 - 1),
        }
    }

    /// Finds the last arrival at or before a moment; without a phase the earliest moment at which
    /// it may have come.
    #[tactic(auto, unfolding(crate::specs::Pace::last_by))]
    pub(crate) fn last_by(&self, moment: i64) -> i64
        requires pace { IsPaceInRange self.now }
        requires moment { IsMoment moment }
        ensures last { result ≡ last_by self.now moment }
        ensures not_after { result ≤ℤ moment }
        ensures near { (moment -ℤ pos MOST_TICKS) ≤ℤ result }
    {
        match self {
            Pace::Kept(phase) => phase.last_arrival(moment),
            Pace::Free { greatest } => moment - (*greatest as i64 - 1),
        }
    }

    /// Finds the arrival before this one; without a phase the earliest moment at which it may have
    /// come.
    pub(crate) fn previous(&self, arrival: i64) -> i64
        requires pace { IsPaceInRange self.now }
        requires arrival { IsMoment (arrival -ℤ pos 1) }
        ensures before { result ≡ previous self.now arrival }
        ensures not_after { result ≤ℤ (arrival -ℤ pos 1) }
        ensures near { ((arrival -ℤ pos 1) -ℤ pos MOST_TICKS) ≤ℤ result }
    {
        self.last_by(arrival - 1)
    }

    /// Finds the arrival after this one; without a phase the latest moment at which it may come.
    pub(crate) fn next(&self, arrival: i64) -> i64
        requires pace { IsPaceInRange self.now }
        requires arrival { IsMoment (arrival +ℤ pos 1) }
        ensures after { result ≡ next self.now arrival }
        ensures not_before { (arrival +ℤ pos 1) ≤ℤ result }
        ensures near { result ≤ℤ ((arrival +ℤ pos 1) +ℤ pos MOST_TICKS) }
    {
        self.first_from(arrival + 1)
    }
}
