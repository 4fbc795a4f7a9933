//! The checks of tasks.
ghost use Rattle.std.specs.Prelude.{◌≡◌, ◌<◌, ◌^◌, ◌+◌, ◌==◌, map, length, take, slice_get, Some, IfOk, OnOk};
ghost use Rattle.std.specs.List.{list_any};
ghost use Rattle.cl_model.specs.{Answers.{Answers, Passes}, Named.{index_of, core_names, stimulus_names, kind_named}, NameSets.AreDistinctNames, Ranges.IsInRange, ValidTasks.{task_key, core_check, stimulus_check, late_check, release_check, room_check, empty_check, naming_checks}};
ghost use Rattle.cl_model.specs.ValidTasks.{task_check, task_checks};
ghost use Rattle.cl_valid.specs.Inner.{TasksByShare.{share_priority_check, share_checks}, Tables.{names_of, share_of, shares_by_core, kept_of}};

use crate::names::Names;
use crate::places::entry_of;
use crate::runnables::{LabelUses, check_body};
use crate::shares::{Share, SharesByCore};
use cl_model::{
    Code, Key, List, MOST_RUNNABLES_OF_MODEL, MOST_TASKS_OF_CORE, ModelFault, NameSet, Part, Place,
    StimulusKind, SystemModel, TaskDef, kind_named, refuse_when,
};
use std::alloc::Global;

/// What is kept of the tasks that have been checked so far.
#[derive(Drop)]
pub struct TasksSoFar<'a> {
    pub shares: SharesByCore,
    pub uses: LabelUses<'a>,
}

/// Returns the place of a key of task `i`.
fn task_key(i: usize, key: Key) -> Place
    requires { i < 2 ^ 32 }
    ensures { result ≡ task_key i key }
{
    entry_of(Part::Task, i).at_key(key)
}

/// Checks M29 for task `i` and returns the number of its core.
fn core_for(cores: &NameSet, i: usize, task: &TaskDef) -> Result<usize, ModelFault>
    requires { i < 2 ^ 32 }
    ensures checked { Passes result (core_check cores.now i task.now) }
    ensures core { IfOk result (λ core. index_of task.now.core cores.now ≡ Some core) }
    ensures within { IfOk result (λ core. core < length cores.now) }
{
    match cores.number_of(&task.core) {
        Some(core) => Ok(core),
        None => Err(ModelFault::refused(Code::M29, task_key(i, Key::Core))),
    }
}

/// Checks M30 for task `i` and returns the kind of its stimulus.
fn kind_for(
    model: &SystemModel,
    stimuli: &NameSet,
    i: usize,
    task: &TaskDef,
) -> Result<StimulusKind, ModelFault>
    requires item { i < 2 ^ 32 }
    requires stimuli { stimuli.now ≡ stimulus_names model.now }
    ensures checked { Passes result (stimulus_check (kind_named model.now task.now.stimulus) i) }
    ensures kind { IfOk result (λ kind. kind_named model.now task.now.stimulus ≡ Some kind) }
{
    match kind_named(model, stimuli, &task.stimulus) {
        Some(kind) => Ok(kind),
        None => Err(ModelFault::refused(Code::M30, task_key(i, Key::Stimulus))),
    }
}

fn has_priority(others: &[Share], priority: u64) -> bool
    ensures { result ≡ list_any (λ other. other.priority == priority) others.now }
{
    others.iter().any(|other| other.priority == priority)
}

fn check_priority(others: &[Share], i: usize, task: &TaskDef) -> Result<(), ModelFault>
    requires { i < 2 ^ 32 }
    ensures { Answers result (share_priority_check others.now i task.now) tt }
{
    let is_taken = has_priority(others, task.priority);
    refuse_when(is_taken, Code::M31, task_key(i, Key::Priority))
}

fn check_late(kind: StimulusKind, i: usize, task: &TaskDef) -> Result<(), ModelFault>
    requires { i < 2 ^ 32 }
    ensures { Answers result (late_check (Some kind) i task.now) tt }
{
    let is_late = kind.least_distance() < task.deadline_under(kind);
    refuse_when(is_late, Code::M32, task_key(i, Key::Deadline))
}

fn check_release(kind: StimulusKind, i: usize, task: &TaskDef) -> Result<(), ModelFault>
    requires { i < 2 ^ 32 }
    ensures { Answers result (release_check (Some kind) i task.now) tt }
{
    let is_late = task.deadline_under(kind) <= kind.greatest_jitter();
    refuse_when(is_late, Code::M33, task_key(i, Key::Stimulus))
}

fn check_room(others: &[Share], i: usize) -> Result<(), ModelFault>
    requires { i < 2 ^ 32 }
    ensures { Answers result (room_check (length others.now) i) tt }
{
    refuse_when(
        others.len() == MOST_TASKS_OF_CORE,
        Code::M34,
        task_key(i, Key::Core),
    )
}

fn check_empty(i: usize, task: &TaskDef) -> Result<(), ModelFault>
    requires { i < 2 ^ 32 }
    ensures { Answers result (empty_check i task.now) tt }
{
    refuse_when(
        task.runnables.len() == 0,
        Code::M35,
        entry_of(Part::Task, i),
    )
}

/// Checks M31 to M35 for task `i`. `others` are the shares of the earlier tasks of its core.
#[tactic(auto, using(cl_model::proofs::FirstRefusals::faults))]
fn check_share(
    others: &[Share],
    kind: StimulusKind,
    i: usize,
    task: &TaskDef,
) -> Result<(), ModelFault>
    requires { i < 2 ^ 32 }
    ensures { Answers result (share_checks others.now kind i task.now) tt }
{
    check_priority(others, i, task)?;
    check_late(kind, i, task)?;
    check_release(kind, i, task)?;
    check_room(others, i)?;
    check_empty(i, task)?;
    Ok(())
}

/// Checks M29 to M35 for task `i` and returns the number of its core and its share in it.
fn share_for(
    model: &SystemModel,
    names: &Names,
    shares: &SharesByCore,
    i: usize,
    task: &TaskDef,
) -> Result<(usize, Share), ModelFault>
    requires item { i < 2 ^ 32 }
    requires names { names.now ≡ names_of model.now }
    requires shares { shares.now ≡ shares_by_core model.now (take i model.now.tasks) }
    ensures checked { Passes result (naming_checks model.now i task.now) }
    ensures core { IfOk result
        (λ found. index_of task.now.core (core_names model.now) ≡ Some found.0) }
    ensures within { IfOk result (λ found. found.0 < length shares.now) }
    ensures share { IfOk result (λ found. found.1 ≡ share_of model.now task.now) }
{
    let core = core_for(&names.cores, i, task)?;
    let kind = kind_for(model, &names.stimuli, i, task)?;
    check_share(shares.on(core), kind, i, task)?;
    let share = Share {
        priority: task.priority,
        kind: Some(kind),
    };
    Ok((core, share))
}

/// Checks M29 to M41 for task `i` and keeps what later checks need of it.
fn check_task<'a>(
    alloc: Global,
    model: &SystemModel,
    names: &Names,
    kept: &mut TasksSoFar<'a>,
    i: usize,
    task: &'a TaskDef,
) -> Result<(), ModelFault>
    requires in_range { IsInRange model.now }
    requires task { slice_get model.now.tasks i ≡ Some task.now }
    requires names { names.now ≡ names_of model.now }
    requires apart { AreDistinctNames (core_names model.now) }
    requires kept { kept.old ≡ kept_of model.now (take i model.now.tasks) }
    ensures checked { Answers result (task_check model.now i task.now) tt }
    ensures kept { OnOk result (kept.new ≡ kept_of model.now (take (i + 1) model.now.tasks)) }
{
    let place = entry_of(Part::Task, i);
    let (core, share) = share_for(model, names, &kept.shares, i, task)?;
    kept.shares.put(core, share)?;
    check_body(alloc, &names.labels, &mut kept.uses, place, task)?;
    let too_many = kept.uses.each.len() > MOST_RUNNABLES_OF_MODEL;
    refuse_when(too_many, Code::M41, place)?;
    Ok(())
}

/// Checks M29 to M41 for each task and returns what is kept of all of them. Fails with the first
/// refusal, or with `NoMemory` where memory runs out.
pub fn kept_tasks<'a>(
    alloc: Global,
    model: &'a SystemModel,
    names: &Names,
) -> Result<TasksSoFar<'a>, ModelFault>
    requires in_range { IsInRange model.now }
    requires names { names.now ≡ names_of model.now }
    requires apart { AreDistinctNames (core_names model.now) }
    ensures { Answers result (task_checks model.now) (kept_of model.now model.now.tasks) }
{
    // each label is written at most once
    let mut written = NameSet::new(alloc);
    written.reserve(names.labels.len())?;
    let each = List::with_room(alloc, names.runnables.len())?;
    let shares = SharesByCore::new(alloc, model.cores.len())?;
    let mut kept = TasksSoFar {
        shares,
        uses: LabelUses { written, each },
    };
    let tasks = model.tasks.as_slice();
    for (i, task) in tasks.iter().enumerate() {
        check_task(alloc, model, names, &mut kept, i, task)?;
    }
    Ok(kept)
}
