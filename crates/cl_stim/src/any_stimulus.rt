//! Arrivals of any kind. Times are in ticks.
ghost use Rattle.std.specs.Prelude.{◌≡◌};
ghost use Rattle.cl_model.specs.Timing as timing;
ghost use Rattle.cl_runs.specs.Arrivals.{FollowPattern};
ghost use Rattle.cl_stim.specs.{AnyStimulus.{kind_of, as_stimulus}, Releases.most_releases, Stimulus.IsStimulus};
ghost use Rattle.cl_stim.specs.Inner.Laws as laws;

use crate::arrivals::Arrivals;
use crate::burst::Burst;
use crate::periodic::Periodic;
use crate::sporadic::Sporadic;
use cl_model::StimulusKind;

/// A stimulus of any kind.
#[derive(Clone, Copy, PartialEq, Eq)]
pub enum AnyStimulus {
    Periodic(Periodic),
    Sporadic(Sporadic),
    Burst(Burst),
}

impl AnyStimulus {
    /// Makes the stimulus of this kind.
    pub fn of(kind: StimulusKind) -> AnyStimulus
        requires { IsStimulus kind }
        ensures { result ≡ as_stimulus kind }
    {
        match kind {
            StimulusKind::Periodic {
                period,
                offset,
                jitter,
            } => AnyStimulus::Periodic(Periodic {
                period,
                offset,
                jitter,
            }),
            StimulusKind::Sporadic { least, greatest } => AnyStimulus::Sporadic(Sporadic {
                least,
                greatest,
            }),
            StimulusKind::Burst {
                period,
                offset,
                count,
                distance,
            } => AnyStimulus::Burst(Burst {
                period,
                offset,
                count,
                distance,
            }),
        }
    }
}

impl Arrivals for AnyStimulus {
    ghost is_known = { λ any. IsStimulus (kind_of any) };

    ghost are_lawful = { λ any. FollowPattern (kind_of any) };

    ghost most = { λ any. most_releases (kind_of any) };

    ghost least_distance = { λ any. timing.least_distance (kind_of any) };

    ghost greatest_distance = { λ any. timing.greatest_distance (kind_of any) };

    ghost jitter = { λ any. timing.greatest_jitter (kind_of any) };

    fn most(&self, width: u64) -> u64 {
        match self {
            AnyStimulus::Periodic(periodic) => periodic.most(width),
            AnyStimulus::Sporadic(sporadic) => sporadic.most(width),
            AnyStimulus::Burst(burst) => burst.most(width),
        }
    }

    fn widest(&self, width: u64) -> u64 {
        match self {
            AnyStimulus::Periodic(periodic) => periodic.widest(width),
            AnyStimulus::Sporadic(sporadic) => sporadic.widest(width),
            AnyStimulus::Burst(burst) => burst.widest(width),
        }
    }

    fn least_gap(&self) -> u64 {
        match self {
            AnyStimulus::Periodic(periodic) => periodic.least_gap(),
            AnyStimulus::Sporadic(sporadic) => sporadic.least_gap(),
            AnyStimulus::Burst(burst) => burst.least_gap(),
        }
    }

    fn greatest_gap(&self) -> u64 {
        match self {
            AnyStimulus::Periodic(periodic) => periodic.greatest_gap(),
            AnyStimulus::Sporadic(sporadic) => sporadic.greatest_gap(),
            AnyStimulus::Burst(burst) => burst.greatest_gap(),
        }
    }

    fn jitter(&self) -> u64 {
        match self {
            AnyStimulus::Periodic(periodic) => periodic.jitter(),
            AnyStimulus::Sporadic(sporadic) => sporadic.jitter(),
            AnyStimulus::Burst(burst) => burst.jitter(),
        }
    }

    ghost never_falls = { λ any. laws.never_falls (kind_of any) };

    ghost few = { λ any. laws.few (kind_of any) };

    ghost gaps = { λ any. laws.gaps (kind_of any) };

    ghost goes_on = { λ any. laws.goes_on (kind_of any) };

    ghost released = { λ any. laws.released (kind_of any) };
}
