//! Periodic arrivals. Times are in ticks.
ghost use Rattle.cl_model.specs.Timing as timing;
ghost use Rattle.cl_runs.specs.Arrivals.{FollowPattern};
ghost use Rattle.cl_stim.specs.{Releases.most_releases, Stimulus.IsStimulus};
ghost use Rattle.cl_stim.specs.Inner.Laws as laws;

use crate::arrivals::Arrivals;
use std::marker::Model;

/// A periodic pattern: job `k` arrives at `offset + k * period`, and is released at most `jitter`
/// later.
#[derive(Clone, Copy, PartialEq, Eq)]
pub struct Periodic {
    pub(crate) period: u64,
    pub(crate) offset: u64,
    pub(crate) jitter: u64,
}

impl Model for Periodic {
    ghost use Rattle.cl_model.specs.declared.stimulus.StimulusKind.{StimulusKind};
    ghost use Rattle.cl_model.specs.declared.stimulus.StimulusKind.TheVariants as kinds;
    ghost use Rattle.cl_stim.specs.Stimulus.{IsStimulus};

    ghost Value = { StimulusKind };

    ghost view = { λ a. kinds.Periodic a.period a.offset a.jitter };

    ghost inverse = { elim [
      | kinds.Periodic period offset jitter ↦ record { period = period; offset = offset; jitter = jitter }
      | kinds.Sporadic least greatest ↦ record { period = 0; offset = 0; jitter = 0 }
      | kinds.Burst period offset count distance ↦ record { period = 0; offset = 0; jitter = 0 }
    ] };

    ghost invariant = { λ a. IsStimulus (kinds.Periodic a.period a.offset a.jitter) };
}

impl Arrivals for Periodic {
    ghost is_known = { IsStimulus };

    ghost are_lawful = { FollowPattern };

    ghost most = { most_releases };

    ghost least_distance = { timing.least_distance };

    ghost greatest_distance = { timing.greatest_distance };

    ghost jitter = { timing.greatest_jitter };

    #[tactic(auto, unfolding(crate::specs::Releases::most_releases))]
    fn most(&self, width: u64) -> u64 {
        (width + self.jitter).div_ceil(self.period)
    }

    fn widest(&self, width: u64) -> u64 {
        self.most(width) * self.period - self.jitter
    }

    fn least_gap(&self) -> u64 {
        self.period
    }

    fn greatest_gap(&self) -> u64 {
        self.period
    }

    fn jitter(&self) -> u64 {
        self.jitter
    }

    ghost never_falls = { laws.never_falls };

    ghost few = { laws.few };

    ghost gaps = { laws.gaps };

    ghost goes_on = { laws.goes_on };

    ghost released = { laws.released };
}
