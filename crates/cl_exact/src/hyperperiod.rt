//! The hyperperiod of a chain, up to its limit. Times are in ticks.
ghost use Rattle.std.specs.Prelude.{◌≡◌, ◌↔◌, ℕ, ◌≤◌, ◌<◌, true, IsTrue, List, length, MatchOption};
ghost use Rattle.cl_model.specs.{declared.group.Group.Group, Groups.groups_at};
ghost use Rattle.cl_runs.specs.{TaskTiming.System, SystemOf.system_of};
ghost use Rattle.cl_exact.specs.{TimedPeriodic.is_timed_periodic_chain, Hyperperiod.{hyper_limit, IsWithinLimit}, Inner.{Beats.{AreBeats, AreBeatsOf}, Periods.IsLeastMultiple, Found.MOST_HYPERPERIOD}};

use crate::beat::Beat;
use crate::beats::beats_of;
use crate::limit::MOST_FIRST_JOBS;
use cl_model::ValidModel;
use cl_time::lcm_upto;

/// Computes the limit on the hyperperiod.
pub(crate) fn hyper_limit(beats: &[Beat]) -> u64
    requires { AreBeats beats.now }
    ensures some { 1 ≤ result }
    ensures few { result ≤ MOST_HYPERPERIOD }
    ensures limit { (system : System) (groups : List Group) → AreBeatsOf system groups beats.now
        → result ≡ hyper_limit system groups }
{
    MOST_FIRST_JOBS * beats[0].period.min(beats[beats.len() - 1].period)
}

/// Computes the hyperperiod, if it is at most `limit`.
pub(crate) fn hyperperiod(beats: &[Beat], limit: u64) -> Option<u64>
    requires beats { AreBeats beats.now }
    requires some { 1 ≤ limit }
    ensures { (ticks : ℕ) × IsLeastMultiple beats.now ticks
        × MatchOption result (limit < ticks) (λ found. (found ≡ ticks) × (ticks ≤ limit)) }
{
    let mut hyperperiod = 1;
    for beat in beats {
        hyperperiod = lcm_upto(hyperperiod, beat.period, limit)?;
    }
    Some(hyperperiod)
}

/// Checks whether the hyperperiod of a chain of a valid model, given by its number, whose tasks are
/// all timed and periodic, is within the limit on it, and so whether `exact` finds exact lengths.
///
/// It looks at each group of the chain once, counts no step, and takes no memory.
pub fn is_within_limit(model: &ValidModel, chain: u32) -> bool
    requires is_chain { chain < length model.now.chains }
    requires timed_periodic { is_timed_periodic_chain model.now chain ≡ true }
    ensures { IsTrue result ↔ IsWithinLimit (system_of model.now) (groups_at model.now chain) }
{
    let numbers = beats_of(model, model.groups(chain));
    let beats = numbers.as_slice();
    hyperperiod(beats, hyper_limit(beats)).is_some()
}
