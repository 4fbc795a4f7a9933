//! The stride in which the starts of walks are looked at. Times are in ticks.
ghost use Rattle.std.specs.Prelude.{◌*◌, ◌≤◌};
ghost use Rattle.std.specs.Int.{◌∣◌};
ghost use Rattle.cl_model.specs.declared.limits.TheConstants.{MOST_TICKS};
ghost use Rattle.cl_stim.specs.Phase.{IsPhaseInRange};
ghost use Rattle.cl_phase.specs.{declared.stride.TheConstants.MOST_TURNS, Inner.Ranges.{IsPaceInRange, AreStopsInRange}};

use crate::pace::Pace;
use crate::stop::Stop;
use cl_stim::Phase;

/// The most turns of a phase that a stride may take.
pub(crate) const MOST_TURNS: u64 = 16;

/// Each stride has to pass at least so many times for its length to be worth a search.
const LEAST_STRIDES: u64 = 64;

impl Pace {
    /// Finds by how much so many ticks miss whole turns of a kept phase.
    fn drift(&self, ticks: u64) -> u64
        requires { IsPaceInRange self.now }
    {
        match self {
            Pace::Kept(phase) => {
                let past = ticks % phase.period;
                past.min(phase.period - past)
            }
            Pace::Free { .. } => 0,
        }
    }
}

/// Sums by how much so many ticks miss whole turns of the phases that are kept.
fn drift_of(stops: &[Stop], ticks: u64) -> u64
    requires { AreStopsInRange stops.now }
{
    let mut drift: u64 = 0;
    for stop in stops {
        drift = drift.saturating_add(stop.pace.drift(ticks));
    }
    drift
}

/// Chooses a stride for the walks that start within `ticks` at arrivals of a group that keeps this
/// phase: some whole turns of it, after which the other phases are nearly the same again. Walks then
/// change evenly over many strides. Any whole turns would do, only more slowly.
pub(crate) fn stride_of(stops: &[Stop], phase: &Phase, ticks: u64) -> u64
    requires stops { AreStopsInRange stops.now }
    requires phase { IsPhaseInRange phase.now }
    ensures round { phase.now.period ∣ result }
    ensures some { 1 ≤ result }
    ensures short { result ≤ MOST_TURNS * MOST_TICKS }
{
    let mut best = 1;
    let mut least = drift_of(stops, phase.period);
    let most = (ticks / phase.period / LEAST_STRIDES).min(MOST_TURNS);
    for turns in 2..most + 1 {
        let drift = drift_of(stops, turns * phase.period);
        if drift < least {
            best = turns;
            least = drift;
        }
    }
    best * phase.period
}
