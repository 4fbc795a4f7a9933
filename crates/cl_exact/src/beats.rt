//! The beats of groups of a model. Times are in ticks.
ghost use Rattle.std.specs.Prelude.{◌≡◌, true, false, ◌<◌, ◌≤◌, length, take, All};
ghost use Rattle.cl_model.specs.{declared.limits.TheConstants.MOST_STEPS, Groups.{IsGroupOf, group_at}, Validity.IsValid, Kinds.{is_timed, is_periodic}};
ghost use Rattle.cl_runs.specs.{TaskTiming.timing_at, SystemOf.system_of};
ghost use Rattle.cl_exact.specs.{TimedPeriodic.{is_timed_periodic_task, are_timed_periodic, is_timed_periodic_chain}, Inner.Beats.{IsBeat, IsBeatOf, AreBeatsOf}};

use crate::beat::Beat;
use arrayvec::ArrayVec;
use cl_model::{Group, MOST_STEPS, StimulusKind, ValidModel};

/// Checks whether a task is timed and periodic.
fn is_timed_periodic_task(model: &ValidModel, task: u32) -> bool
    requires { task < length model.now.tasks }
    ensures { result ≡ is_timed_periodic_task (timing_at (system_of model.now) task) }
{
    let timed = model.task(task).access.is_timed();
    let periodic = model.stimulus_of(task).is_periodic();
    timed && periodic
}

/// Counts the groups before the first whose task isn't timed and periodic.
pub(crate) fn timed_periodic_count(model: &ValidModel, groups: &[Group]) -> usize
    requires { All (IsGroupOf model.now) groups.now }
    ensures within { result ≤ length groups.now }
    ensures timed_periodic { are_timed_periodic (system_of model.now) (take result groups.now)
        ≡ true }
    ensures first_other { result < length groups.now
        → is_timed_periodic_task (timing_at (system_of model.now) (group_at groups.now result).task)
        ≡ false }
{
    for place in 0..groups.len() {
        if !is_timed_periodic_task(model, groups[place].task) {
            return place;
        }
    }
    groups.len()
}

/// Checks whether the tasks of these groups are all timed and periodic.
///
/// It looks at each group at most once, and takes no memory.
pub fn are_timed_periodic(model: &ValidModel, groups: &[Group]) -> bool
    requires { All (IsGroupOf model.now) groups.now }
    ensures { result ≡ are_timed_periodic (system_of model.now) groups.now }
{
    for group in groups {
        if !is_timed_periodic_task(model, group.task) {
            return false;
        }
    }
    true
}

/// Checks whether the tasks of a chain, given by its number, are all timed and periodic.
///
/// It looks at each group of the chain at most once, and takes no memory.
pub fn is_timed_periodic(model: &ValidModel, chain: u32) -> bool
    requires { chain < length model.now.chains }
    ensures { result ≡ is_timed_periodic_chain model.now chain }
{
    are_timed_periodic(model, model.groups(chain))
}

/// Returns the beat of a task that is timed and periodic.
fn beat_of(model: &ValidModel, task: u32) -> Beat
    requires is_task { task < length model.now.tasks }
    requires periodic { is_timed_periodic_task (timing_at (system_of model.now) task) ≡ true }
    ensures of { IsBeatOf (timing_at (system_of model.now) task) result }
    ensures beat { IsBeat result }
    ensures valid { IsValid model.now }
{
    let kind = model.stimulus_of(task);
    let deadline = model.task(task).deadline_under(kind);
    let StimulusKind::Periodic { period, offset, .. } = kind else {
        unreachable!();
    };
    Beat {
        offset,
        period,
        deadline,
    }
}

/// Lists the beats of groups whose tasks are all timed and periodic, in order.
pub(crate) fn beats_of(model: &ValidModel, groups: &[Group]) -> ArrayVec<Beat, MOST_STEPS>
    requires some { 0 < length groups.now }
    requires few { length groups.now ≤ MOST_STEPS }
    requires of_tasks { All (IsGroupOf model.now) groups.now }
    requires timed_periodic { are_timed_periodic (system_of model.now) groups.now ≡ true }
    ensures of { AreBeatsOf (system_of model.now) groups.now result.items }
    ensures valid { IsValid model.now }
{
    let mut beats = ArrayVec::new();
    for group in groups {
        beats.push(beat_of(model, group.task));
    }
    beats
}
