//! The whole walk of a chain that attains a bound: the job of each group that just misses, and the
//! one that takes. Times are in ticks.
ghost use Rattle.std.specs.Prelude.{◌≡◌, ◌<◌, ◌≤◌, ◌^◌, ◌-◌, pos, ◌+ℤ◌, ◌-ℤ◌, ◌≤ℤ◌, length, map, All, IfOk};
ghost use Rattle.std.specs.List.{range_with_len};
ghost use Rattle.cl_model.specs.{declared.{group.Group.Group, limits.TheConstants.MOST_STEPS}, Groups.IsGroupOf, Ranges.IsKindInRange, Timing.IsKindOrdered};
ghost use Rattle.cl_runs.specs.SystemOf.{system_of};
ghost use Rattle.cl_stim.specs.{Integers.IsIntegerWithin, Phase.IsMoment};
ghost use Rattle.cl_hop.specs.{Hops.IsNear, declared.group_timing.GroupTiming.GroupTiming};
ghost use Rattle.cl_phase.specs.{Walks.pace_at, Whole.{is_kept, missed_at, taken_at, takes_before, counted_at, LATEST_STEADY, IsLeastTurns, IsWholeWalkOf}, Inner.Ranges.{FARTHEST_START, FARTHEST_JOB, FARTHEST_MOVE, AreStopsInRange}};

use crate::course::course_of;
use crate::stop::Stop;
use crate::walk::{arrival_back, arrival_onward};
use crate::walked::start_of;
use cl_hop::GroupTiming;
use cl_model::{Group, LengthKind, List, RequirementKind, StimulusKind, ValidModel};
use cl_time::NoMemory;
use std::alloc::Global;

/// The arrivals of a walk along the groups of a chain, two of each group: of its job that just
/// misses, and of its job that takes.
///
/// Each job that just misses has a job before it, also at the groups whose arrivals are fixed.
#[derive(PartialEq, Eq, Drop)]
pub struct WholeWalk {
    /// For each group, whether it keeps its phase.
    pub kept: List<bool>,
    /// For each group, the arrival of its job that just misses.
    pub missed: List<i64>,
    /// For each group, the arrival of its job that takes. Of the reduced age it is at the last group
    /// that of the job before the one that takes.
    pub taken: List<i64>,
    /// The last arrival of a job whose write the length needs: the greatest of those taken and, of
    /// the reduced age, that of the job after the last group's.
    pub until: i64,
}

/// Finds the arrival of the job that just misses at a group, on the walk from an arrival of the
/// group at `place`.
fn missed_at(stops: &[Stop], place: usize, start: i64, group: usize) -> i64
    requires stops { AreStopsInRange stops.now }
    requires place { place < length stops.now }
    requires start { IsIntegerWithin FARTHEST_START start }
    requires group { group < length stops.now }
    ensures misses { result ≡ missed_at stops.now place start group }
    ensures near { IsIntegerWithin FARTHEST_JOB result }
{
    if group <= place {
        arrival_back(stops, place, start, group)
    } else {
        let taken = arrival_onward(stops, place, start, group);
        stops[group].pace.previous(taken)
    }
}

/// Finds the arrival of the job that takes at a group, on the walk from an arrival of the group at
/// `place`.
fn taken_at(stops: &[Stop], place: usize, start: i64, group: usize) -> i64
    requires stops { AreStopsInRange stops.now }
    requires place { place < length stops.now }
    requires start { IsIntegerWithin FARTHEST_START start }
    requires group { group < length stops.now }
    ensures takes { result ≡ taken_at stops.now place start group }
    ensures near { IsIntegerWithin FARTHEST_JOB result }
{
    if place <= group {
        arrival_onward(stops, place, start, group)
    } else {
        let missed = arrival_back(stops, place, start, group);
        stops[group].pace.next(missed)
    }
}

/// Returns whether lengths of a kind end at the job before the one that takes at the last group.
fn takes_before(kind: RequirementKind) -> bool
    ensures { result ≡ takes_before kind }
{
    matches!(kind, RequirementKind::Length(LengthKind::Reduced))
}

/// Finds the arrival of the job of a group up to which lengths of a kind go, on the walk from an
/// arrival of the group at `place`: the one that takes, or at the last group the one before it.
fn counted_at(stops: &[Stop], place: usize, start: i64, kind: RequirementKind, group: usize) -> i64
    requires stops { AreStopsInRange stops.now }
    requires place { place < length stops.now }
    requires start { IsIntegerWithin FARTHEST_START start }
    requires group { group < length stops.now }
    ensures counts { result ≡ counted_at kind stops.now place start group }
    ensures near { IsMoment result }
{
    let takes = taken_at(stops, place, start, group);
    if takes_before(kind) && group == stops.len() - 1 {
        stops[group].pace.previous(takes)
    } else {
        takes
    }
}

/// Returns ticks as a signed number, and the greatest one where it doesn't hold them.
fn signed_ticks(ticks: u64) -> i64
    ensures { ticks ≤ 2 ^ 63 - 1 → result ≡ pos ticks }
{
    ticks.min(i64::MAX as u64) as i64
}

/// Returns how many ticks after the beginning of a run a stimulus has had a job, and one before it,
/// at the latest, where its arrivals are fixed: from then on they are those of its phase.
pub fn steady_from(kind: StimulusKind) -> i64
    ensures near { IsKindInRange kind → IsKindOrdered kind → IsIntegerWithin LATEST_STEADY result }
{
    let last = match kind {
        StimulusKind::Periodic { offset, .. } => offset,
        StimulusKind::Sporadic { .. } => return 0,
        StimulusKind::Burst {
            offset,
            count,
            distance,
            ..
        } => offset.saturating_add(count.saturating_sub(1).saturating_mul(distance)),
    };
    signed_ticks(last.saturating_add(kind.greatest_distance()))
}

/// Returns the least multiple of `turn`, 0 or more, by which a moment reaches another. Where 64 bits
/// don't hold it, it is `i64::MAX`.
pub fn turns_to_reach(moment: i64, goal: i64, turn: u64) -> i64
    ensures least { 1 ≤ turn
        → pos turn ≤ℤ pos (2 ^ 63 - 1)
        → ((goal -ℤ moment) +ℤ pos turn) ≤ℤ pos (2 ^ 63 - 1)
        → IsLeastTurns moment goal turn result }
{
    if goal <= moment {
        return 0;
    }
    let missing = goal.abs_diff(moment);
    signed_ticks(missing.div_ceil(turn.max(1)).saturating_mul(turn))
}

/// Finds from when on the arrivals of all groups are those of their phases.
fn all_steady_from(model: &ValidModel, groups: &[Group]) -> i64
    requires { All (IsGroupOf model.now) groups.now }
    ensures near { IsIntegerWithin LATEST_STEADY result }
{
    // So that it is known that the model is valid.
    let _ = model.plain();
    let mut steady = 0;
    for group in groups {
        steady = steady_from(model.stimulus_of(group.task)).max(steady);
    }
    steady
}

/// Finds the least arrival that has to have one before it, on the walk from an arrival of the group
/// at `place`: of the jobs that just miss and, of a delay, of the job that takes at the first group
/// in place of the one that misses there.
fn least_arrival(stops: &[Stop], place: usize, start: i64, kind: RequirementKind) -> i64
    requires stops { AreStopsInRange stops.now }
    requires place { place < length stops.now }
    requires start { IsIntegerWithin FARTHEST_START start }
    ensures near { IsIntegerWithin FARTHEST_JOB result }
{
    let mut least = taken_at(stops, place, start, 0);
    for group in 0..stops.len() {
        if group > 0 || !kind.is_delay() {
            least = least.min(missed_at(stops, place, start, group));
        }
    }
    least
}

impl WholeWalk {
    /// Lists the arrivals of the walk of a kind from an arrival of the group at `place`, moved by so
    /// many ticks.
    fn from(
        alloc: Global,
        stops: &[Stop],
        place: usize,
        start: i64,
        kind: RequirementKind,
        ticks: i64,
    ) -> Result<WholeWalk, NoMemory>
        requires stops { AreStopsInRange stops.now }
        requires place { place < length stops.now }
        requires start { IsIntegerWithin FARTHEST_START start }
        requires ticks { IsIntegerWithin FARTHEST_MOVE ticks }
        ensures kept { IfOk result (λ walk. walk.kept ≡ map (λ group. is_kept (pace_at stops.now group)) (range_with_len 0 (length stops.now))) }
        ensures missed { IfOk result (λ walk. walk.missed
            ≡ map (λ group. missed_at stops.now place start group +ℤ ticks) (range_with_len 0 (length stops.now))) }
        ensures taken { IfOk result (λ walk. walk.taken
            ≡ map (λ group. counted_at kind stops.now place start group +ℤ ticks) (range_with_len 0 (length stops.now))) }
    {
        let mut kept = List::with_room(alloc, stops.len())?;
        let mut missed = List::with_room(alloc, stops.len())?;
        let mut taken = List::with_room(alloc, stops.len())?;
        let mut until = start + ticks;
        for group in 0..stops.len() {
            kept.push(stops[group].pace.is_kept())?;
            missed.push(missed_at(stops, place, start, group) + ticks)?;
            taken.push(counted_at(stops, place, start, kind, group) + ticks)?;
            until = until.max(taken_at(stops, place, start, group) + ticks);
        }
        Ok(WholeWalk {
            kept,
            missed,
            taken,
            until,
        })
    }
}

/// Finds the whole walk of groups of a valid model that follow each other, a chain of it or a part
/// of one, that is as long as `bound` of this kind, from what is known of each group. It is the first
/// such walk from the slowest group that keeps its phase, or that from 0 of the first group where
/// none keeps it, moved by whole hyperperiods to where each of its jobs is there in a run, with a job
/// before it.
///
/// `NoMemory` comes where there is no memory for the arrivals; it leaves nothing.
pub fn whole_walk(
    alloc: Global,
    model: &ValidModel,
    groups: &[Group],
    timings: &[GroupTiming],
    kind: RequirementKind,
    bound: u64,
) -> Result<WholeWalk, NoMemory>
    requires some { 0 < length groups.now }
    requires few { length groups.now ≤ MOST_STEPS }
    requires of_tasks { All (IsGroupOf model.now) groups.now }
    requires as_many { length timings.now ≡ length groups.now }
    requires near { All IsNear timings.now }
    ensures walk { IfOk result (λ walk. (timing : Group → GroupTiming)
        → timings.now ≡ map timing groups.now
        → IsWholeWalkOf (system_of model.now) timing groups.now kind bound walk) }
    ensures kept { IfOk result (λ walk. length walk.kept ≡ length groups.now) }
    ensures missed { IfOk result (λ walk. length walk.missed ≡ length groups.now) }
    ensures taken { IfOk result (λ walk. length walk.taken ≡ length groups.now) }
{
    let course = course_of(model, groups, timings);
    let stops = course.stops.as_slice();
    let place = course.keeping.slowest(stops);
    let ticks = course.keeping.hyperperiod;
    let start = start_of(stops, course.ends, place, ticks, kind, bound);
    let steady = all_steady_from(model, groups);
    let moved = turns_to_reach(least_arrival(stops, place, start, kind), steady, ticks);
    WholeWalk::from(alloc, stops, place, start, kind, moved)
}
