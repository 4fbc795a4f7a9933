//! Sporadic arrivals. Times are in ticks.
ghost use Rattle.std.specs.Prelude.{◌≡◌};
ghost use Rattle.cl_model.specs.Timing as timing;
ghost use Rattle.cl_runs.specs.Arrivals.{FollowPattern};
ghost use Rattle.cl_stim.specs.{Releases.most_releases, Stimulus.IsStimulus};
ghost use Rattle.cl_stim.specs.Inner.Laws as laws;

use crate::arrivals::Arrivals;
use cl_model::StimulusKind;
use std::marker::Model;

/// A sporadic pattern: jobs arrive at distances from `least` to `greatest`, and each is released as
/// it arrives.
#[derive(Clone, Copy, PartialEq, Eq)]
pub struct Sporadic {
    pub(crate) least: u64,
    pub(crate) greatest: u64,
}

impl Model for Sporadic {
    ghost use Rattle.cl_model.specs.declared.stimulus.StimulusKind.{StimulusKind};
    ghost use Rattle.cl_model.specs.declared.stimulus.StimulusKind.TheVariants as kinds;
    ghost use Rattle.cl_stim.specs.Stimulus.{IsStimulus};

    ghost Value = { StimulusKind };

    ghost view = { λ a. kinds.Sporadic a.least a.greatest };

    ghost inverse = { elim [
      | kinds.Periodic period offset jitter ↦ record { least = 0; greatest = 0 }
      | kinds.Sporadic least greatest ↦ record { least = least; greatest = greatest }
      | kinds.Burst period offset count distance ↦ record { least = 0; greatest = 0 }
    ] };

    ghost invariant = { λ a. IsStimulus (kinds.Sporadic a.least a.greatest) };
}

impl Sporadic {
    /// Returns its kind.
    fn kind(&self) -> StimulusKind
        ensures kind { result ≡ self.now }
        ensures known { IsStimulus self.now }
    {
        StimulusKind::Sporadic {
            least: self.least,
            greatest: self.greatest,
        }
    }
}

impl Arrivals for Sporadic {
    ghost is_known = { IsStimulus };

    ghost are_lawful = { FollowPattern };

    ghost most = { most_releases };

    ghost least_distance = { timing.least_distance };

    ghost greatest_distance = { timing.greatest_distance };

    ghost jitter = { timing.greatest_jitter };

    #[tactic(auto, unfolding(crate::specs::Releases::most_releases))]
    fn most(&self, width: u64) -> u64 {
        width.div_ceil(self.least)
    }

    fn widest(&self, width: u64) -> u64 {
        self.most(width) * self.least
    }

    fn least_gap(&self) -> u64 {
        self.least
    }

    fn greatest_gap(&self) -> u64 {
        self.greatest
    }

    fn jitter(&self) -> u64 {
        self.kind().greatest_jitter()
    }

    ghost never_falls = { laws.never_falls };

    ghost few = { laws.few };

    ghost gaps = { laws.gaps };

    ghost goes_on = { laws.goes_on };

    ghost released = { laws.released };
}
