//! How many jobs of a phase arrive from a moment on. Times are in ticks, and may lie before 0.
ghost use Rattle.std.specs.Prelude.{◌≡◌, ◌≤◌, ◌+◌, ◌*◌, ◌/◌, ◌%◌, min};
ghost use Rattle.std.specs.Int.{div_ceil};
ghost use Rattle.cl_model.specs.{declared.limits.TheConstants.MOST_TICKS, Ranges.IsKindInRange, Timing.IsKindOrdered};
ghost use Rattle.cl_stim.specs.{Phase.{IsPhaseInRange, IsMoment}, declared.arrivals.TheConstants.MOST_WIDTH};
ghost use Rattle.cl_cycle.specs.Counts.{arrivals_from, arrivals_of};

use cl_model::StimulusKind;
use cl_stim::Phase;

/// Returns when jobs of a stimulus can arrive: at its phase, or at any moment where its arrivals
/// aren't fixed.
pub fn arrivals_of(kind: StimulusKind) -> Phase
    requires range { IsKindInRange kind }
    requires ordered { IsKindOrdered kind }
    ensures arrivals { result ≡ arrivals_of kind }
    ensures in_range { IsPhaseInRange result }
{
    Phase::of(kind).unwrap_or(Phase {
        period: 1,
        offset: 0,
        count: 1,
        distance: 1,
    })
}

/// Counts the jobs of a phase that arrive in the first `ticks` ticks from the beginning of one of
/// its periods on. It divides only once where a period has one job.
fn arrivals_in_turns(phase: &Phase, ticks: u64) -> u64
    requires phase { IsPhaseInRange phase.now }
    requires ticks { ticks ≤ MOST_WIDTH + 2 * MOST_TICKS }
    ensures { result ≡ ticks / phase.now.period * phase.now.count
        + min phase.now.count (div_ceil (ticks % phase.now.period) phase.now.distance) }
{
    if phase.count == 1 {
        return ticks.div_ceil(phase.period);
    }
    let whole = ticks / phase.period * phase.count;
    let rest = ticks % phase.period;
    whole + phase.count.min(rest.div_ceil(phase.distance))
}

/// Counts the jobs of a phase that arrive in the `width` ticks from a moment on. It lists none of
/// them.
pub fn arrivals_from(phase: &Phase, from: i64, width: u64) -> u64
    requires phase { IsPhaseInRange phase.now }
    requires from { IsMoment from }
    requires width { width ≤ MOST_WIDTH + MOST_TICKS }
    ensures arrivals { result ≡ arrivals_from phase.now from width }
    ensures few { result ≤ width }
{
    let since = phase.since_turn(from);
    arrivals_in_turns(phase, since + width) - arrivals_in_turns(phase, since)
}
