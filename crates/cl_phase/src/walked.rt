//! The walk of a chain that shows why its tight bound is what it is. Times are in ticks.
ghost use Rattle.std.specs.Prelude.{◌≡◌, ◌<◌, ◌≤◌, pos, length, map, All, IfOk};
ghost use Rattle.cl_model.specs.{declared.{group.Group.Group, limits.TheConstants.MOST_STEPS}, Groups.IsGroupOf};
ghost use Rattle.cl_runs.specs.SystemOf.{system_of};
ghost use Rattle.cl_stim.specs.Integers.{IsIntegerWithin};
ghost use Rattle.cl_hop.specs.{Hops.IsNear, declared.group_timing.GroupTiming.GroupTiming};
ghost use Rattle.cl_phase.specs.{declared.pace.Pace.Pace, TightBounds.starts, Walks.pace_at, Walked.{start_among, missed, taken, walked_of}, Inner.{Ranges.{FARTHEST_START, LONGEST_HYPERPERIOD, AreStopsInRange, AreEndsInRange}, Longest.{span_between, length_of_kind}}};

use crate::course::course_of;
use crate::pace::Pace;
use crate::stop::Stop;
use crate::walk::{Ends, Longest, arrival_back, arrival_onward, lengths_at};
use cl_hop::GroupTiming;
use cl_model::{Group, LengthKind, List, MOST_STEPS, RequirementKind, ValidModel};
use cl_stim::Phase;
use cl_time::NoMemory;
use std::alloc::Global;

/// The arrivals of a walk along the groups of a chain. They may lie before 0.
#[derive(PartialEq, Eq, Drop)]
pub struct Walked {
    /// The place of the group from which the walk starts.
    pub place: usize,
    /// The arrivals of the jobs that just miss, from the first group to the one at `place`.
    pub missed: List<i64>,
    /// The arrivals of the jobs that take, from the group at `place` to the last.
    pub taken: List<i64>,
}

/// Returns how long walks are of a kind.
fn length_of(lengths: Longest, kind: RequirementKind) -> u64
    ensures { result ≡ length_of_kind kind lengths }
{
    match kind {
        RequirementKind::Length(LengthKind::Reaction | LengthKind::Age) => lengths.length,
        RequirementKind::Length(LengthKind::Reduced) => lengths.reduced,
        RequirementKind::Delay => lengths.delay,
    }
}

/// Finds the first arrival within `ticks` of the group at `place`, which keeps this phase, whose
/// walks are as long as `bound` of a kind. It is 0 where there is none.
fn start_of_phase(
    stops: &[Stop],
    ends: Ends,
    place: usize,
    phase: &Phase,
    ticks: u64,
    kind: RequirementKind,
    bound: u64,
) -> i64
    requires stops { AreStopsInRange stops.now }
    requires ends { AreEndsInRange ends }
    requires place { place < length stops.now }
    requires phase { pace_at stops.now place ≡ Pace.Kept phase.now }
    requires few { ticks ≤ LONGEST_HYPERPERIOD }
    ensures start { result ≡ pos (start_among kind stops.now (span_between ends) ends.write place bound (starts (Pace.Kept phase.now) ticks)) }
    ensures near { IsIntegerWithin FARTHEST_START result }
{
    let mut arrival = phase.first_arrival(0);
    while arrival < ticks as i64 {
        if length_of(lengths_at(stops, ends, place, arrival), kind) == bound {
            return arrival;
        }
        arrival = phase.first_arrival(arrival + 1);
    }
    0
}

/// Finds the first start within `ticks` whose walks are as long as `bound` of a kind. It is 0 where
/// there is none.
pub(crate) fn start_of(
    stops: &[Stop],
    ends: Ends,
    place: usize,
    ticks: u64,
    kind: RequirementKind,
    bound: u64,
) -> i64
    requires stops { AreStopsInRange stops.now }
    requires ends { AreEndsInRange ends }
    requires place { place < length stops.now }
    requires few { ticks ≤ LONGEST_HYPERPERIOD }
    ensures start { result ≡ pos (start_among kind stops.now (span_between ends) ends.write place bound (starts (pace_at stops.now place) ticks)) }
    ensures near { IsIntegerWithin FARTHEST_START result }
{
    match &stops[place].pace {
        Pace::Kept(phase) => start_of_phase(stops, ends, place, phase, ticks, kind, bound),
        Pace::Free { .. } => 0,
    }
}

/// Lists the arrivals of the jobs that just miss, from the first group to the one at `place`.
fn missed(alloc: Global, stops: &[Stop], place: usize, start: i64) -> Result<List<i64>, NoMemory>
    requires stops { AreStopsInRange stops.now }
    requires place { place < length stops.now }
    requires start { IsIntegerWithin FARTHEST_START start }
    ensures { IfOk result (λ arrivals. arrivals ≡ missed stops.now place start) }
{
    let mut arrivals = List::new(alloc);
    for group in 0..place + 1 {
        arrivals.push(arrival_back(stops, place, start, group))?;
    }
    Ok(arrivals)
}

/// Lists the arrivals of the jobs that take, from the group at `place` to the last.
fn taken(alloc: Global, stops: &[Stop], place: usize, start: i64) -> Result<List<i64>, NoMemory>
    requires stops { AreStopsInRange stops.now }
    requires place { place < length stops.now }
    requires start { IsIntegerWithin FARTHEST_START start }
    ensures { IfOk result (λ arrivals. arrivals ≡ taken stops.now place start) }
{
    let mut arrivals = List::new(alloc);
    for hops in 0..stops.len() - place {
        arrivals.push(arrival_onward(stops, place, start, place + hops))?;
    }
    Ok(arrivals)
}

/// Finds a walk of groups of a valid model that follow each other, a chain of it or a part of one,
/// that is as long as `reaction`, from what is known of each group. It is the first such walk from
/// the slowest group that keeps its phase, or from the first group where none keeps it. If no walk
/// is as long, the walk starts at 0.
///
/// `NoMemory` comes where there is no memory for the arrivals; it leaves nothing.
pub fn walk_lasting(
    alloc: Global,
    model: &ValidModel,
    groups: &[Group],
    timings: &[GroupTiming],
    reaction: u64,
) -> Result<Walked, NoMemory>
    requires some { 0 < length groups.now }
    requires few { length groups.now ≤ MOST_STEPS }
    requires of_tasks { All (IsGroupOf model.now) groups.now }
    requires as_many { length timings.now ≡ length groups.now }
    requires near { All IsNear timings.now }
    ensures { IfOk result (λ walk. (timing : Group → GroupTiming)
        → timings.now ≡ map timing groups.now
        → walk ≡ walked_of (system_of model.now) timing groups.now reaction) }
{
    let course = course_of(model, groups, timings);
    let stops = course.stops.as_slice();
    let place = course.keeping.slowest(stops);
    let start = start_of(
        stops,
        course.ends,
        place,
        course.keeping.hyperperiod,
        RequirementKind::Length(LengthKind::Reaction),
        reaction,
    );
    Ok(Walked {
        place,
        missed: missed(alloc, stops, place, start)?,
        taken: taken(alloc, stops, place, start)?,
    })
}
