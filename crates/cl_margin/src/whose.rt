//! Whose execution times grow, and what that can change. Times are in ticks.
ghost use Rattle.std.specs.Prelude.{◌≡◌, ◌<◌, ◌≤◌, length, MatchBool};
ghost use Rattle.std.specs.List.{list_all};
ghost use Rattle.cl_model.specs.{Ranges.{IsRunnableInRange, IsTaskInRange, IsInRange}, Validity.IsValid};
ghost use Rattle.cl_margin.specs.{Grown.{grown, grown_greatest, grown_time}, Inner.Touched.{has_whole, reaches, touches, touches_chain, IsOfModel, are_times_within, IsMostInRange}};

use cl_model::{MOST_TICKS, RunnableDef, TaskDef, ValidModel};
use cl_scale::{MOST_PERCENT, scaled_time};

/// Whose greatest execution times grow.
#[derive(Clone, Copy, PartialEq, Eq)]
pub enum Whose {
    /// Those of every task.
    EveryTask,
    /// Those of one task alone, given by its number.
    OneTask { task: u32 },
}

/// Checks whether a runnable of a task runs whole.
fn has_whole(task: &TaskDef) -> bool
    ensures { result ≡ has_whole task.now }
{
    task.runnables.iter().any(|runnable| runnable.whole)
}

/// Checks whether the answer for a task may change as the times of one task grow: it is that task,
/// or one below it on its core, or one above it there that a whole runnable of it may block.
fn reaches(model: &ValidModel, grown: u32, task: u32) -> bool
    requires grown { grown < length model.now.tasks }
    requires task { task < length model.now.tasks }
    ensures { result ≡ reaches model.now grown task }
{
    let growing = model.task(grown);
    model.core_of(task) == model.core_of(grown)
        && (model.task(task).priority <= growing.priority || has_whole(growing))
}

impl Whose {
    /// Checks whether the answer for a task may change as these times grow.
    pub(crate) fn touches(self, model: &ValidModel, task: u32) -> bool
        requires whose { IsOfModel model.now self }
        requires task { task < length model.now.tasks }
        ensures { result ≡ touches model.now self task }
    {
        match self {
            Whose::EveryTask => true,
            Whose::OneTask { task: grown } => reaches(model, grown, task),
        }
    }

    /// Checks whether the bounds of a chain may change as these times grow.
    pub(crate) fn touches_chain(self, model: &ValidModel, chain: u32) -> bool
        requires whose { IsOfModel model.now self }
        requires chain { chain < length model.now.chains }
        ensures { result ≡ touches_chain model.now self chain }
    {
        for group in model.groups(chain) {
            if self.touches(model, group.task) {
                return true;
            }
        }
        false
    }

    /// Checks whether these times stay in range at a percentage.
    fn stays_within(self, model: &ValidModel, percent: u64) -> bool
        requires whose { IsOfModel model.now self }
        requires percent { percent ≤ MOST_PERCENT }
        ensures { MatchBool result (IsInRange (grown model.now self percent))
            (IsInRange (grown model.now self percent) → ⊥) }
    {
        let _valid = model.plain();
        match self {
            Whose::EveryTask => are_times_within(model, percent),
            Whose::OneTask { task } => is_within(model.task(task), percent),
        }
    }

    /// Finds the greatest percentage from 100 on at which these times stay in range.
    pub(crate) fn most_percent(self, model: &ValidModel) -> u64
        requires whose { IsOfModel model.now self }
        ensures { IsMostInRange model.now self result }
    {
        let _valid = model.plain();
        if self.stays_within(model, MOST_PERCENT) {
            return MOST_PERCENT;
        }
        let mut within = 100;
        let mut end = MOST_PERCENT;
        while end - within > 1 {
            let middle = (within + end) / 2;
            if self.stays_within(model, middle) {
                within = middle;
            } else {
                end = middle;
            }
        }
        within
    }
}

/// Checks whether the greatest times of a task stay in range at a percentage.
fn is_within(task: &TaskDef, percent: u64) -> bool
    requires percent { percent ≤ MOST_PERCENT }
    requires in_range { IsTaskInRange task.now }
    ensures { result ≡ are_times_within percent task.now }
{
    task.runnables
        .iter()
        .all(|runnable| grown_greatest(runnable, percent) <= MOST_TICKS)
}

/// Checks whether those of all tasks do.
fn are_times_within(model: &ValidModel, percent: u64) -> bool
    requires valid { IsValid model.now }
    requires percent { percent ≤ MOST_PERCENT }
    ensures { result ≡ list_all (are_times_within percent) model.now.tasks }
{
    for task in model.plain().tasks.as_slice() {
        if !is_within(task, percent) {
            return false;
        }
    }
    true
}

/// Computes the greatest time of a runnable at a percentage.
pub(crate) fn grown_greatest(runnable: &RunnableDef, percent: u64) -> u64
    requires percent { percent ≤ MOST_PERCENT }
    requires in_range { IsRunnableInRange runnable.now }
    ensures { result ≡ grown_greatest percent runnable.now }
{
    scaled_time(percent, runnable.least, runnable.greatest)
}

/// Computes the greatest time of a task at a percentage.
pub fn grown_time(model: &ValidModel, task: u32, percent: u64) -> u64
    requires task { task < length model.now.tasks }
    requires percent { percent ≤ MOST_PERCENT }
    ensures time { result ≡ grown_time model.now task percent }
    ensures valid { IsValid model.now }
{
    let mut time = 0;
    for runnable in model.task(task).runnables.as_slice() {
        time += grown_greatest(runnable, percent);
    }
    time
}
