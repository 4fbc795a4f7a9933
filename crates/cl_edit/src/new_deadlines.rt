//! The checks of deadlines for a new task: the deadlines of the tasks below it, and its own.
ghost use Rattle.std.specs.Prelude.{◌≡◌, ◌<◌, ◌^◌, ◌++◌, length, slice_get, Some};
ghost use Rattle.std.specs.List.{list_any};
ghost use Rattle.cl_model.specs.{Answers.Answers, Changes.with_new_task, Named.{is_some_and, kind_named}, Refusals.each, Timing.deadline_under, ValidTasks.{spans_too_many, deadline_check}, Validity.IsValid};
ghost use Rattle.cl_edit.specs.{FewListChecks.below_new_check, Inner.NewTasks.{outpaced_by, is_task_below}};

use crate::check_new_task::task_key;
use cl_model::{Code, Key, ModelFault, StimulusKind, TaskDef, ValidModel, refuse_when};
use cl_valid::spans_too_many;

/// Whether the stimuli of two tasks are known, and the deadline of the first spans too many least
/// distances of the second.
fn spans_distances(
    task: &TaskDef,
    kind: Option<StimulusKind>,
    other_kind: Option<StimulusKind>,
) -> bool
    ensures { result ≡ is_some_and kind
        (λ kind. is_some_and other_kind (spans_too_many (deadline_under kind task.now))) }
{
    match kind {
        Some(kind) => match other_kind {
            Some(other_kind) => spans_too_many(task.deadline_under(kind), other_kind),
            None => false,
        },
        None => false,
    }
}

/// Whether M42 refuses a task for another one: that one has a higher priority on the same core, and
/// the deadline of the task spans too many of its least distances.
fn is_outpaced_by(
    task: &TaskDef,
    kind: Option<StimulusKind>,
    other: &TaskDef,
    other_kind: Option<StimulusKind>,
) -> bool
    ensures { result ≡ outpaced_by task.now kind other.now other_kind }
{
    task.core == other.core
        && task.priority < other.priority
        && spans_distances(task, kind, other_kind)
}

/// Checks M42 for task `i`, against a new task if that has a higher priority on its core.
fn check_below(
    model: &ValidModel,
    new: &TaskDef,
    new_kind: Option<StimulusKind>,
    i: usize,
    task: &TaskDef,
) -> Result<(), ModelFault>
    requires valid { IsValid model.now }
    requires item { i < 2 ^ 32 }
    requires task { slice_get model.now.tasks i ≡ Some task.now }
    requires kind { new_kind ≡ kind_named model.now new.now.stimulus }
    ensures { Answers result (below_new_check model.now new.now i task.now) tt }
{
    let is_late = is_outpaced_by(task, Some(model.stimulus_of(i as u32)), new, new_kind);
    refuse_when(is_late, Code::M42, task_key(i, Key::Deadline))
}

/// Checks M42 for all tasks of the model, against a new task.
#[tactic(auto, using(cl_model::proofs::FirstRefusals::loop_faults))]
fn check_all_below(
    model: &ValidModel,
    new: &TaskDef,
    new_kind: Option<StimulusKind>,
    tasks: &[TaskDef],
) -> Result<(), ModelFault>
    requires valid { IsValid model.now }
    requires tasks { tasks.now ≡ model.now.tasks }
    requires count { length tasks.now < 2 ^ 32 }
    requires kind { new_kind ≡ kind_named model.now new.now.stimulus }
    ensures { Answers result (each (below_new_check model.now new.now) tasks.now) tt }
{
    for (i, task) in tasks.iter().enumerate() {
        check_below(model, new, new_kind, i, task)?;
    }
    Ok(())
}

/// Whether M42 refuses a new task for task `i`: that task has a higher priority on the same core,
/// and the deadline of the new task spans too many of its least distances.
fn is_above(
    model: &ValidModel,
    new: &TaskDef,
    kind: Option<StimulusKind>,
    i: usize,
    task: &TaskDef,
) -> bool
    requires valid { IsValid model.now }
    requires item { i < 2 ^ 32 }
    requires task { slice_get model.now.tasks i ≡ Some task.now }
    requires kind { kind ≡ kind_named model.now new.now.stimulus }
    ensures { result ≡ is_task_below model.now new.now task.now }
{
    is_outpaced_by(new, kind, task, Some(model.stimulus_of(i as u32)))
}

/// Whether the deadline of a new task spans too many least distances of a task of higher priority
/// on its core.
fn is_late(model: &ValidModel, new: &TaskDef, kind: Option<StimulusKind>, tasks: &[TaskDef]) -> bool
    requires valid { IsValid model.now }
    requires tasks { tasks.now ≡ model.now.tasks }
    requires count { length tasks.now < 2 ^ 32 }
    requires kind { kind ≡ kind_named model.now new.now.stimulus }
    ensures { result ≡ list_any (is_task_below model.now new.now) tasks.now }
{
    for (i, task) in tasks.iter().enumerate() {
        if is_above(model, new, kind, i, task) {
            return true;
        }
    }
    false
}

/// Checks M42 for a new task, which gets number `i`.
fn check_deadline(
    model: &ValidModel,
    task: &TaskDef,
    kind: Option<StimulusKind>,
    tasks: &[TaskDef],
    i: usize,
) -> Result<(), ModelFault>
    requires valid { IsValid model.now }
    requires tasks { tasks.now ≡ model.now.tasks }
    requires item { i ≡ length model.now.tasks }
    requires few { i < 2 ^ 32 }
    requires kind { kind ≡ kind_named model.now task.now.stimulus }
    ensures { Answers result (deadline_check (with_new_task model.now task.now) i task.now) tt }
{
    let is_late = is_late(model, task, kind, tasks);
    refuse_when(is_late, Code::M42, task_key(i, Key::Deadline))
}

/// Checks M42 for all tasks of the model against a new task, and then for the new task itself.
#[tactic(auto, using(cl_model::proofs::FirstRefusals::faults))]
pub(crate) fn check_deadlines(
    model: &ValidModel,
    task: &TaskDef,
    kind: Option<StimulusKind>,
    tasks: &[TaskDef],
) -> Result<(), ModelFault>
    requires valid { IsValid model.now }
    requires tasks { tasks.now ≡ model.now.tasks }
    requires count { length tasks.now < 2 ^ 32 }
    requires kind { kind ≡ kind_named model.now task.now.stimulus }
    ensures { Answers result
        (each (below_new_check model.now task.now) tasks.now ++ deadline_check (with_new_task model.now task.now) (length tasks.now) task.now) tt }
{
    check_all_below(model, task, kind, tasks)?;
    check_deadline(model, task, kind, tasks, tasks.len())?;
    Ok(())
}
