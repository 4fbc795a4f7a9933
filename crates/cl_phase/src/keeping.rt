//! Which phases of a chain are kept, one group after the other. Times are in ticks.
ghost use Rattle.std.specs.Prelude.{◌≡◌, ◌≤◌, ◌<◌, false, List, [], ◌∷◌, IfNone, IfSome, length};
ghost use Rattle.cl_model.specs.{Ranges.IsKindInRange, Timing.IsKindOrdered};
ghost use Rattle.cl_stim.specs.{declared.phase.Phase.Phase, Phase.IsPhaseInRange};
ghost use Rattle.cl_phase.specs.{Kept.come_round_soon, TightBounds.slowest, Inner.{Ranges.{IsPaceInRange, AreStopsInRange}, Keeping.{AreKept, AreKeptWith, IsBeside, AreKeptIn, arrives_seldom}}};

use crate::pace::{MOST_ARRIVALS, Pace};
use crate::stop::Stop;
use cl_model::{MOST_TICKS, StimulusKind};
use cl_stim::Phase;
use cl_time::lcm_upto;

/// What the next group needs to know of the phases that are kept so far.
#[derive(Clone, Copy)]
pub(crate) struct Keeping {
    /// The hyperperiod of these phases: the least common multiple of their periods, 1 while there
    /// is none.
    pub(crate) hyperperiod: u64,
    /// How many arrivals the slowest of these phases has in one hyperperiod. `u64::MAX` while there
    /// is none.
    pub(crate) fewest: u64,
}

impl Keeping {
    /// Starts without a kept phase.
    pub(crate) fn new() -> Keeping
        ensures { AreKept [] result }
    {
        Keeping {
            hyperperiod: 1,
            fewest: u64::MAX,
        }
    }

    /// Keeps one more phase. `None` comes exactly where each of them would then have more than
    /// `MOST_ARRIVALS` arrivals in the hyperperiod, as is so wherever the hyperperiod passes its
    /// limit.
    fn with(self, phase: &Phase) -> Option<Keeping>
        requires hyperperiod { 1 ≤ self.hyperperiod }
        requires phase { IsPhaseInRange phase.now }
        ensures some { IfSome result (λ keeping. 1 ≤ keeping.hyperperiod) }
        ensures too_long { IfNone result
            ((kept : List Phase) → AreKept kept self → come_round_soon (phase.now ∷ kept) ≡ false) }
        ensures soon { IfSome result
            (λ keeping. (kept : List Phase) → AreKept kept self
            → AreKeptWith phase.now kept keeping) }
    {
        let hyperperiod = lcm_upto(phase.period, self.hyperperiod, MOST_ARRIVALS * MOST_TICKS)?;
        let longer = hyperperiod / self.hyperperiod;
        let fewest = self
            .fewest
            .saturating_mul(longer)
            .min(phase.arrivals_in(hyperperiod));
        if fewest > MOST_ARRIVALS {
            return None;
        }
        Some(Keeping {
            hyperperiod,
            fewest,
        })
    }

    /// Finds the pace of a group with this stimulus beside the phases that are kept so far. Returns
    /// it with these phases, and with its own phase among them if the group keeps it.
    pub(crate) fn beside(self, kind: StimulusKind) -> (Pace, Keeping)
        requires hyperperiod { 1 ≤ self.hyperperiod }
        requires range { IsKindInRange kind }
        requires ordered { IsKindOrdered kind }
        ensures some { 1 ≤ result.1.hyperperiod }
        ensures beside { (kept : List Phase) → AreKept kept self
            → IsBeside kind kept result.0 result.1 }
    {
        let free = Pace::Free {
            greatest: kind.greatest_distance(),
        };
        let Some(phase) = Phase::of(kind) else {
            return (free, self);
        };
        match self.with(&phase) {
            Some(keeping) => (Pace::Kept(phase), keeping),
            None => (free, self),
        }
    }

    /// Checks whether a group keeps its phase, and no other group that keeps its own has fewer
    /// arrivals.
    fn is_slowest(&self, pace: &Pace) -> bool
        requires { IsPaceInRange pace.now }
        ensures { result ≡ arrives_seldom self.now.hyperperiod self.now.fewest pace.now }
    {
        match pace {
            Pace::Kept(phase) => phase.arrivals_in(self.hyperperiod) <= self.fewest,
            Pace::Free { .. } => false,
        }
    }

    /// Finds the place of the first group with the fewest arrivals, among those that keep their
    /// phase. It is 0 where none does.
    pub(crate) fn slowest(&self, stops: &[Stop]) -> usize
        requires stops { AreStopsInRange stops.now }
        requires kept { AreKeptIn stops.now self.now }
        ensures slowest { result ≡ slowest stops.now }
        ensures within { result < length stops.now }
    {
        for (place, stop) in stops.iter().enumerate() {
            if self.is_slowest(&stop.pace) {
                return place;
            }
        }
        0
    }
}
