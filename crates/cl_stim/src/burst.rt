//! Arrivals in bursts. Times are in ticks.
ghost use Rattle.std.specs.Prelude.{◌≡◌};
ghost use Rattle.cl_model.specs.Timing as timing;
ghost use Rattle.cl_runs.specs.Arrivals.{FollowPattern};
ghost use Rattle.cl_stim.specs.{Releases.most_releases, Stimulus.IsStimulus};
ghost use Rattle.cl_stim.specs.Inner.Laws as laws;

use crate::arrivals::Arrivals;
use cl_model::StimulusKind;
use std::marker::Model;

/// A pattern of bursts of `count` jobs: job `q * count + r`, where `r < count`, arrives at
/// `offset + q * period + r * distance`, and each is released as it arrives.
#[derive(Clone, Copy, PartialEq, Eq)]
pub struct Burst {
    pub(crate) period: u64,
    pub(crate) offset: u64,
    pub(crate) count: u64,
    pub(crate) distance: u64,
}

impl Model for Burst {
    ghost use Rattle.cl_model.specs.declared.stimulus.StimulusKind.{StimulusKind};
    ghost use Rattle.cl_model.specs.declared.stimulus.StimulusKind.TheVariants as kinds;
    ghost use Rattle.cl_stim.specs.Stimulus.{IsStimulus};

    ghost Value = { StimulusKind };

    ghost view = { λ a. kinds.Burst a.period a.offset a.count a.distance };

    ghost inverse = { elim [
      | kinds.Periodic period offset jitter ↦ record { period = 0; offset = 0; count = 0; distance = 0 }
      | kinds.Sporadic least greatest ↦ record { period = 0; offset = 0; count = 0; distance = 0 }
      | kinds.Burst period offset count distance ↦ record { period = period; offset = offset; count = count; distance = distance }
    ] };

    ghost invariant = { λ a. IsStimulus (kinds.Burst a.period a.offset a.count a.distance) };
}

impl Burst {
    /// Returns its kind.
    fn kind(&self) -> StimulusKind
        ensures kind { result ≡ self.now }
        ensures known { IsStimulus self.now }
    {
        StimulusKind::Burst {
            period: self.period,
            offset: self.offset,
            count: self.count,
            distance: self.distance,
        }
    }
}

impl Arrivals for Burst {
    ghost is_known = { IsStimulus };

    ghost are_lawful = { FollowPattern };

    ghost most = { most_releases };

    ghost least_distance = { timing.least_distance };

    ghost greatest_distance = { timing.greatest_distance };

    ghost jitter = { timing.greatest_jitter };

    #[tactic(auto, unfolding(crate::specs::Releases::most_releases))]
    fn most(&self, width: u64) -> u64 {
        let whole = width / self.period * self.count;
        let rest = width % self.period;
        whole + self.count.min(rest.div_ceil(self.distance))
    }

    fn widest(&self, width: u64) -> u64 {
        let begun = width / self.period * self.period;
        let released = (width % self.period).div_ceil(self.distance);
        if released < self.count {
            begun + released * self.distance
        } else {
            begun + self.period
        }
    }

    fn least_gap(&self) -> u64 {
        self.distance
    }

    fn greatest_gap(&self) -> u64 {
        self.period - (self.count - 1) * self.distance
    }

    fn jitter(&self) -> u64 {
        self.kind().greatest_jitter()
    }

    ghost never_falls = { laws.never_falls };

    ghost few = { laws.few };

    ghost gaps = { laws.gaps };

    ghost goes_on = { laws.goes_on };

    ghost released = { laws.released };
}
