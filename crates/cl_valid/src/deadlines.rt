//! The check of deadlines against the tasks of higher priority.
ghost use Rattle.std.specs.Prelude.{◌≡◌, [], map, slice_get, Some};
ghost use Rattle.std.specs.List.{list_any};
ghost use Rattle.cl_model.specs.{Answers.Answers, Named.core_names, Ranges.IsInRange, ValidTasks.{spans_too_many, task_checks, deadline_check, deadline_checks}};
ghost use Rattle.cl_valid.specs.Inner.{TasksByShare.outpaces, Tables.{names_of, shares_by_core}};

use crate::names::Names;
use crate::places::entry_of;
use crate::shares::{Share, SharesByCore};
use cl_model::{
    Code, Key, MOST_DISTANCES, ModelFault, Part, Place, StimulusKind, SystemModel, TaskDef,
    kind_named, refuse_when,
};

/// Whether a deadline, together with the greatest jitter of a stimulus of a task of higher
/// priority, exceeds `MOST_DISTANCES` least distances of that stimulus. Times are in ticks.
pub fn spans_too_many(deadline: u64, above: StimulusKind) -> bool
    ensures { result ≡ spans_too_many deadline above }
{
    let limit = u128::from(MOST_DISTANCES) * u128::from(above.least_distance());
    limit < u128::from(deadline) + u128::from(above.greatest_jitter())
}

fn is_outpaced_by(task: &TaskDef, deadline: u64, other: &Share) -> bool
    ensures { result ≡ outpaces task.now.priority deadline other.now }
{
    match other.kind {
        Some(kind) => task.priority < other.priority && spans_too_many(deadline, kind),
        None => false,
    }
}

fn is_outpaced(task: &TaskDef, deadline: u64, others: &[Share]) -> bool
    ensures { result ≡ list_any (outpaces task.now.priority deadline) others.now }
{
    others
        .iter()
        .any(|other| is_outpaced_by(task, deadline, other))
}

/// Checks M42 for task `i`.
fn check_deadline(
    model: &SystemModel,
    names: &Names,
    shares: &SharesByCore,
    i: usize,
    task: &TaskDef,
) -> Result<(), ModelFault>
    requires in_range { IsInRange model.now }
    requires task { slice_get model.now.tasks i ≡ Some task.now }
    requires passed { task_checks model.now ≡ [] }
    requires names { names.now ≡ names_of model.now }
    requires shares { shares.now ≡ shares_by_core model.now model.now.tasks }
    ensures { Answers result (deadline_check model.now i task.now) tt }
{
    let Some(core) = names.cores.number_of(&task.core) else {
        unreachable!();
    };
    let Some(kind) = kind_named(model, &names.stimuli, &task.stimulus) else {
        unreachable!();
    };
    let is_late = is_outpaced(task, task.deadline_under(kind), shares.on(core));
    refuse_when(
        is_late,
        Code::M42,
        entry_of(Part::Task, i).at_key(Key::Deadline),
    )
}

/// Checks M42 for each task. Fails with the first refusal.
#[tactic(auto, using(cl_model::proofs::FirstRefusals::loop_faults))]
pub fn check_deadlines(
    model: &SystemModel,
    names: &Names,
    shares: &SharesByCore,
) -> Result<(), ModelFault>
    requires in_range { IsInRange model.now }
    requires passed { task_checks model.now ≡ [] }
    requires names { names.now ≡ names_of model.now }
    requires shares { shares.now ≡ shares_by_core model.now model.now.tasks }
    ensures { Answers result (deadline_checks model.now) tt }
{
    let tasks = model.tasks.as_slice();
    for (i, task) in tasks.iter().enumerate() {
        check_deadline(model, names, shares, i, task)?;
    }
    Ok(())
}
