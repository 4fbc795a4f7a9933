//! Whether a task may be added to a valid model, by the few checks that it needs.
ghost use Rattle.std.specs.Prelude.{◌≡◌, ◌+◌, ◌==◌, ◌&&◌, ◌<◌, ◌^◌, ◌++◌, ◌∷◌, [], map, length, nat_lt, nat_le, sum_by, OnOk, Some};
ghost use Rattle.std.specs.List.{list_any};
ghost use Rattle.cl_model.specs.{Answers.{Answers, Passes}, Named.{same_name, has_name, is_some_and, task_names, kind_named, tasks_on, runnable_names}, Ranges.IsTaskInRange, Refusals.{when, each}, Timing.{least_distance, greatest_jitter, deadline_under}, ValidNames.repeats};
ghost use Rattle.cl_model.specs.{ValidTasks.{task_key, core_check, stimulus_check, priority_check, late_check, release_check, room_check, empty_check}, Validity.{IsValid, refusals_of}, Changes.with_new_task};
ghost use Rattle.cl_model.specs.Place as places;
ghost use Rattle.cl_edit.specs.{Edited.all_names, FewListChecks.{new_task_name_check, new_runnables_check}, Inner.NewTasks.{added_naming_checks, added_count_check, added_checks, all_checks}};

use crate::new_deadlines::check_deadlines;
use crate::new_labels::check_labels;
use cl_model::{
    Code, CoreDef, Key, MOST_RUNNABLES_OF_MODEL, MOST_TASKS_OF_CORE, ModelFault, Name, NameSet,
    Part, Place, RunnableDef, StimulusKind, TaskDef, ValidModel, add_new, refuse_unless,
    refuse_when,
};
use cl_valid::entry_of;
use std::alloc::Global;

/// The place of a key of task `i`.
pub(crate) fn task_key(i: usize, key: Key) -> Place
    requires { i < 2 ^ 32 }
    ensures { result ≡ task_key i key }
{
    entry_of(Part::Task, i).at_key(key)
}

// ---- names

fn has_task(model: &ValidModel, name: &Name) -> bool
    ensures { result ≡ has_name name.now (task_names model.now) }
{
    model.task_named(name).is_some()
}

/// Checks M23: no task has the name of the new one.
fn check_task_name(model: &ValidModel, task: &TaskDef) -> Result<(), ModelFault>
    ensures { Answers result (new_task_name_check model.now task.now) tt }
{
    let is_taken = has_task(model, &task.name);
    let place = Part::Task.section_place().at_item(model.tasks());
    refuse_when(is_taken, Code::M23, place.at_key(Key::Name))
}

/// Checks M24 for one name: neither a runnable of the model nor an earlier runnable of the new task
/// has it. Then it is added to the names of the new runnables.
fn check_new_name(
    model: &ValidModel,
    new: &mut NameSet,
    name: &Name,
    place: Place,
) -> Result<(), ModelFault>
    ensures checked { Answers result
        (when (has_name name.now (all_names model.now ++ new.old)) Code.M24 place) tt }
    ensures names { OnOk result (new.new ≡ new.old ++ name.now ∷ []) }
{
    let is_taken = model.step_named(name).is_some();
    refuse_when(is_taken, Code::M24, place)?;
    add_new(new, name, Code::M24, place)
}

fn name_of_runnable(place: Place, p: usize) -> Place
    requires { p < 2 ^ 32 }
    ensures { result ≡ places.at_key Key.Name (places.at_sub p place) }
{
    place.at_sub(p as u32).at_key(Key::Name)
}

/// Checks M24 for the runnables of a new task at a place.
fn check_runnable_names(
    alloc: Global,
    model: &ValidModel,
    place: Place,
    runnables: &[RunnableDef],
) -> Result<(), ModelFault>
    requires { length runnables.now < 2 ^ 32 }
    ensures { Answers result
        (repeats Code.M24 (λ p. places.at_key Key.Name (places.at_sub p place)) (all_names model.now) (runnable_names runnables.now)) tt }
{
    let mut new = NameSet::new(alloc);
    for (p, runnable) in runnables.iter().enumerate() {
        let name_place = name_of_runnable(place, p);
        check_new_name(model, &mut new, &runnable.name, name_place)?;
    }
    Ok(())
}

// ---- what the task names

fn is_core(cores: &[CoreDef], name: &Name) -> bool
    ensures { result ≡ list_any (λ core. same_name name.now core.name) cores.now }
{
    cores.iter().any(|core| *name == core.name)
}

/// Checks M29: the core of the task is known.
fn check_core(cores: &[CoreDef], i: usize, task: &TaskDef) -> Result<(), ModelFault>
    requires { i < 2 ^ 32 }
    ensures { Answers result (core_check (map (λ core. core.name) cores.now) i task.now) tt }
{
    let is_known = is_core(cores, &task.core);
    refuse_unless(is_known, Code::M29, task_key(i, Key::Core))
}

/// Finds the kind of the stimulus of this name. There is none exactly where no stimulus has the
/// name.
fn kind_named(model: &ValidModel, name: &Name) -> Option<StimulusKind>
    ensures { result ≡ kind_named model.now name.now }
{
    let number = model.stimulus_named(name)?;
    Some(model.plain().stimuli.as_slice()[number as usize].kind)
}

/// Checks M30: the stimulus of the task is known.
fn check_stimulus(kind: Option<StimulusKind>, i: usize) -> Result<(), ModelFault>
    requires { i < 2 ^ 32 }
    ensures { Answers result (stimulus_check kind i) tt }
{
    refuse_unless(kind.is_some(), Code::M30, task_key(i, Key::Stimulus))
}

/// Whether one of the tasks has the core and the priority of another task.
fn has_priority(tasks: &[TaskDef], task: &TaskDef) -> bool
    ensures { result ≡ list_any
        (λ other. same_name task.now.core other.core && (other.priority == task.now.priority)) tasks.now }
{
    tasks.iter().any(|other| task.core == other.core && other.priority == task.priority)
}

/// Checks M31: no task of its core has its priority.
fn check_priority(tasks: &[TaskDef], i: usize, task: &TaskDef) -> Result<(), ModelFault>
    requires { i < 2 ^ 32 }
    ensures { Answers result (priority_check (tasks_on task.now.core tasks.now) i task.now) tt }
{
    let is_taken = has_priority(tasks, task);
    refuse_when(is_taken, Code::M31, task_key(i, Key::Priority))
}

fn is_due_late(kind: Option<StimulusKind>, task: &TaskDef) -> bool
    ensures { result ≡ is_some_and kind
        (λ kind. nat_lt (least_distance kind) (deadline_under kind task.now)) }
{
    match kind {
        Some(kind) => kind.least_distance() < task.deadline_under(kind),
        None => false,
    }
}

/// Checks M32: the deadline doesn't exceed the least distance of the stimulus.
fn check_late(kind: Option<StimulusKind>, i: usize, task: &TaskDef) -> Result<(), ModelFault>
    requires { i < 2 ^ 32 }
    ensures { Answers result (late_check kind i task.now) tt }
{
    let is_late = is_due_late(kind, task);
    refuse_when(is_late, Code::M32, task_key(i, Key::Deadline))
}

fn is_released_late(kind: Option<StimulusKind>, task: &TaskDef) -> bool
    ensures { result ≡ is_some_and kind
        (λ kind. nat_le (deadline_under kind task.now) (greatest_jitter kind)) }
{
    match kind {
        Some(kind) => task.deadline_under(kind) <= kind.greatest_jitter(),
        None => false,
    }
}

/// Checks M33: each job is released before its deadline.
fn check_release(kind: Option<StimulusKind>, i: usize, task: &TaskDef) -> Result<(), ModelFault>
    requires { i < 2 ^ 32 }
    ensures { Answers result (release_check kind i task.now) tt }
{
    let is_late = is_released_late(kind, task);
    refuse_when(is_late, Code::M33, task_key(i, Key::Stimulus))
}

fn count_on(tasks: &[TaskDef], core: &Name) -> usize
    ensures { result ≡ length (tasks_on core.now tasks.now) }
{
    tasks.iter().filter(|task| *core == task.core).count()
}

/// Checks M34: the core of the task isn't full.
fn check_room(tasks: &[TaskDef], i: usize, task: &TaskDef) -> Result<(), ModelFault>
    requires { i < 2 ^ 32 }
    ensures { Answers result (room_check (length (tasks_on task.now.core tasks.now)) i) tt }
{
    let is_full = count_on(tasks, &task.core) == MOST_TASKS_OF_CORE;
    refuse_when(is_full, Code::M34, task_key(i, Key::Core))
}

/// Checks M35: the task has a runnable.
fn check_empty(i: usize, task: &TaskDef) -> Result<(), ModelFault>
    requires { i < 2 ^ 32 }
    ensures { Answers result (empty_check i task.now) tt }
{
    let is_empty = task.runnables.len() == 0;
    refuse_when(is_empty, Code::M35, entry_of(Part::Task, i))
}

/// Checks M29 to M35 for a new task of number `i`, beside the tasks of the model.
#[tactic(auto, using(cl_model::proofs::FirstRefusals::faults))]
fn check_naming(
    cores: &[CoreDef],
    tasks: &[TaskDef],
    kind: Option<StimulusKind>,
    i: usize,
    task: &TaskDef,
) -> Result<(), ModelFault>
    requires { i < 2 ^ 32 }
    ensures { Answers result
        (added_naming_checks (map (λ core. core.name) cores.now) tasks.now kind i task.now) tt }
{
    check_core(cores, i, task)?;
    check_stimulus(kind, i)?;
    check_priority(tasks, i, task)?;
    check_late(kind, i, task)?;
    check_release(kind, i, task)?;
    check_room(tasks, i, task)?;
    check_empty(i, task)?;
    Ok(())
}

fn count_runnables(tasks: &[TaskDef]) -> usize
    requires { sum_by (λ task. length task.runnables) tasks.now < 2 ^ 64 }
    ensures { result ≡ sum_by (λ task. length task.runnables) tasks.now }
{
    tasks.iter().map(|task| task.runnables.len()).sum()
}

/// Checks M41 for a new task of number `i`: with those of the other tasks it doesn't have too many
/// runnables.
fn check_count(tasks: &[TaskDef], i: usize, task: &TaskDef) -> Result<(), ModelFault>
    requires few { sum_by (λ task. length task.runnables) tasks.now < 2 ^ 32 }
    requires item { i < 2 ^ 32 }
    requires task { IsTaskInRange task.now }
    ensures { Answers result (added_count_check tasks.now i task.now) tt }
{
    let count = count_runnables(tasks) + task.runnables.len();
    let too_many = MOST_RUNNABLES_OF_MODEL < count;
    refuse_when(too_many, Code::M41, entry_of(Part::Task, i))
}

// ---- the whole task

/// Checks M24 for the runnables of a new task.
fn check_new_runnables(alloc: Global, model: &ValidModel, task: &TaskDef) -> Result<(), ModelFault>
    requires { IsTaskInRange task.now }
    ensures { Answers result (new_runnables_check model.now task.now) tt }
{
    let place = entry_of(Part::Task, model.tasks() as usize);
    check_runnable_names(alloc, model, place, task.runnables.as_slice())
}

/// Checks M23 and M24 for a new task.
#[tactic(auto, using(cl_model::proofs::FirstRefusals::faults))]
fn check_names(alloc: Global, model: &ValidModel, task: &TaskDef) -> Result<(), ModelFault>
    requires { IsTaskInRange task.now }
    ensures { Answers result
        (new_task_name_check model.now task.now ++ new_runnables_check model.now task.now) tt }
{
    check_task_name(model, task)?;
    check_new_runnables(alloc, model, task)?;
    Ok(())
}

/// Checks M29 to M41 for a new task.
#[tactic(auto, using(cl_model::proofs::FirstRefusals::faults))]
fn check_added(
    alloc: Global,
    model: &ValidModel,
    kind: Option<StimulusKind>,
    i: usize,
    task: &TaskDef,
) -> Result<(), ModelFault>
    requires task { IsTaskInRange task.now }
    requires item { i ≡ length model.now.tasks }
    requires few { i < 2 ^ 32 }
    requires runnables { sum_by (λ task. length task.runnables) model.now.tasks < 2 ^ 32 }
    ensures { Answers result (added_checks model.now kind i task.now) tt }
{
    let plain = model.plain();
    let tasks = plain.tasks.as_slice();
    check_naming(plain.cores.as_slice(), tasks, kind, i, task)?;
    check_labels(alloc, model, entry_of(Part::Task, i), task)?;
    check_count(tasks, i, task)?;
    Ok(())
}

/// Checks M23, M24 and M29 to M42 for a new task.
#[tactic(auto, using(cl_model::proofs::FirstRefusals::faults))]
fn check_all(
    alloc: Global,
    model: &ValidModel,
    kind: Option<StimulusKind>,
    tasks: &[TaskDef],
    task: &TaskDef,
) -> Result<(), ModelFault>
    requires valid { IsValid model.now }
    requires tasks { tasks.now ≡ model.now.tasks }
    requires count { length tasks.now < 2 ^ 32 }
    requires runnables { sum_by (λ task. length task.runnables) model.now.tasks < 2 ^ 32 }
    requires kind { kind ≡ kind_named model.now task.now.stimulus }
    requires task { IsTaskInRange task.now }
    ensures { Answers result (all_checks model.now tasks.now kind task.now) tt }
{
    check_names(alloc, model, task)?;
    check_added(alloc, model, kind, tasks.len(), task)?;
    check_deadlines(model, task, kind, tasks)?;
    Ok(())
}

/// Checks whether a task may be added, for which there is room. `NoMemory` comes where memory ran
/// out.
pub(crate) fn check_new_task(
    alloc: Global,
    model: &ValidModel,
    task: &TaskDef,
) -> Result<(), ModelFault>
    requires { IsTaskInRange task.now }
    ensures { Passes result (refusals_of (with_new_task model.now task.now)) }
{
    let kind = kind_named(model, &task.stimulus);
    check_all(alloc, model, kind, model.plain().tasks.as_slice(), task)
}
