//! Whether a task of one model has the timing of a task of another. No call takes memory. Times are
//! in ticks.
ghost use Rattle.std.specs.Prelude.{◌≡◌, ◌<◌, ◌↔◌, length, map, IsTrue};
ghost use Rattle.cl_runs.specs.SystemOf.{range_of};
ghost use Rattle.cl_incr.specs.Inner.Standing.{timing_in};

use cl_model::{AccessKind, RunnableDef, StimulusKind, ValidModel};

/// Whether two runnables have the same range.
fn is_same_range(one: &RunnableDef, other: &RunnableDef) -> bool
    ensures { IsTrue result → range_of one.now ≡ range_of other.now }
{
    one.least == other.least && one.greatest == other.greatest && one.whole == other.whole
}

/// Whether the runnables of two tasks have the same ranges, one by one.
fn have_same_ranges(one: &[RunnableDef], other: &[RunnableDef]) -> bool
    ensures { IsTrue result → map range_of one.now ≡ map range_of other.now }
{
    if one.len() != other.len() {
        return false;
    }
    for place in 0..other.len() {
        if !is_same_range(&one[place], &other[place]) {
            return false;
        }
    }
    true
}

/// Whether two stimuli are of the same kind, with the same numbers.
fn is_same_kind(one: StimulusKind, other: StimulusKind) -> bool
    ensures { IsTrue result ↔ (one ≡ other) }
{
    one == other
}

/// Whether two tasks access labels in the same way.
fn is_same_access(one: AccessKind, other: AccessKind) -> bool
    ensures { IsTrue result ↔ (one ≡ other) }
{
    one == other
}

/// Whether a task of the new model has the timing of one of the old model.
pub(crate) fn has_same_timing(old: &ValidModel, was: u32, new: &ValidModel, task: u32) -> bool
    requires was { was < length old.now.tasks }
    requires task { task < length new.now.tasks }
    ensures { IsTrue result → timing_in old.now was ≡ timing_in new.now task }
{
    let one = old.task(was);
    let other = new.task(task);
    if old.core_of(was) != new.core_of(task) || one.priority != other.priority {
        return false;
    }
    let kind = old.stimulus_of(was);
    is_same_kind(kind, new.stimulus_of(task))
        && is_same_access(one.access, other.access)
        && one.deadline_under(kind) == other.deadline_under(kind)
        && have_same_ranges(one.runnables.as_slice(), other.runnables.as_slice())
}
