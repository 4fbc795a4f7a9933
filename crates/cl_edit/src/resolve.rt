//! Which change of a valid model an edit is: the names that it looks up become numbers. Times are
//! in ticks.
ghost use Rattle.std.specs.Prelude.{◌≡◌, ◌++◌, ◌||◌, nat_lt, length, map, unwrap_or};
ghost use Rattle.std.specs.List.{flat_map};
ghost use Rattle.cl_model.specs.{Answers.Answers, Groups.step_named, ByNumber.requirement_named, Named.{has_name, task_names, chain_names, requirement_names, kind_named}, Place.{top, section_place}, Refusals.unless};
ghost use Rattle.cl_edit.specs.declared.change.Change.TheVariants as changes;
ghost use Rattle.cl_edit.specs.{declared.edit.NamedPriority.NamedPriority, Changing.{task_number, chain_number, kind_change, by_number, exchanged, requirement_change, change_of}, Edited.{found, all_names, kind_found, edit_checks}, Inner.Kinds.{sets, with_numbers}};

use crate::change::Change;
use crate::edit::{Edit, NamedPriority};
use crate::kinds::kind_with;
use cl_model::{
    AccessKind, ChainDef, Code, List, MOST_CHAINS, MOST_REQUIREMENTS, MOST_TASKS, ModelFault, Name,
    Part, Place, RequirementDef, Step, TaskDef, TaskPriority, TryCopy, ValidModel, refuse_unless,
};
use std::alloc::Global;

/// The refusal E2 of a name that isn't there.
fn not_found() -> ModelFault
    ensures { result ≡ ModelFault.Refused (record { code = Code.E2; place = top }) }
{
    ModelFault::refused(Code::E2, Place::top())
}

// ---- numbers

/// Finds the number of the task of this name. E2 where no task has the name.
fn found_task(model: &ValidModel, name: &Name) -> Result<u32, ModelFault>
    ensures { Answers result (found name.now (task_names model.now)) (task_number model.now name.now) }
{
    match model.task_named(name) {
        Some(number) => Ok(number),
        None => Err(not_found()),
    }
}

/// Finds the number of the chain of this name. E2 where no chain has the name.
fn found_chain(model: &ValidModel, name: &Name) -> Result<u32, ModelFault>
    ensures { Answers result (found name.now (chain_names model.now)) (chain_number model.now name.now) }
{
    match model.chain_named(name) {
        Some(number) => Ok(number),
        None => Err(not_found()),
    }
}

/// Finds the runnable of this name. E2 where no runnable has the name.
fn found_step(model: &ValidModel, name: &Name) -> Result<Step, ModelFault>
    ensures { Answers result (found name.now (all_names model.now)) (step_named model.now name.now) }
{
    match model.step_named(name) {
        Some(step) => Ok(step),
        None => Err(not_found()),
    }
}

// ---- one kind of change each

fn range(
    model: &ValidModel,
    runnable: &Name,
    least: u64,
    greatest: u64,
) -> Result<Change, ModelFault>
    ensures { Answers result (found runnable.now (all_names model.now))
        (changes.Range (step_named model.now runnable.now) least greatest) }
{
    let step = found_step(model, runnable)?;
    Ok(Change::Range {
        step,
        least,
        greatest,
    })
}

fn whole(model: &ValidModel, runnable: &Name, whole: bool) -> Result<Change, ModelFault>
    ensures { Answers result (found runnable.now (all_names model.now))
        (changes.Whole (step_named model.now runnable.now) whole) }
{
    let step = found_step(model, runnable)?;
    Ok(Change::Whole { step, whole })
}

/// The change of a stimulus, whose numbers the edit sets. E2 where no stimulus has the name, E3
/// where the edit doesn't set its kind.
fn stimulus(model: &ValidModel, name: &Name, edit: &Edit) -> Result<Change, ModelFault>
    ensures { Answers result (kind_found (kind_named model.now name.now) (sets edit.now))
        (kind_change model.now name.now (with_numbers edit.now)) }
{
    let Some(stimulus) = model.stimulus_named(name) else {
        return Err(not_found());
    };
    let stimuli = model.plain().stimuli.as_slice();
    match kind_with(stimuli[stimulus as usize].kind, edit) {
        Some(kind) => Ok(Change::Stimulus { stimulus, kind }),
        None => Err(ModelFault::refused(Code::E3, Place::top())),
    }
}

fn deadline(model: &ValidModel, task: &Name, deadline: Option<u64>) -> Result<Change, ModelFault>
    ensures { Answers result (found task.now (task_names model.now))
        (changes.Deadline (task_number model.now task.now) deadline) }
{
    let task = found_task(model, task)?;
    Ok(Change::Deadline { task, deadline })
}

/// The change in which two tasks exchange their priorities.
fn swap(alloc: Global, model: &ValidModel, one: &Name, other: &Name) -> Result<Change, ModelFault>
    ensures { Answers result
        (found one.now (task_names model.now) ++ found other.now (task_names model.now))
        (changes.Priorities (exchanged model.now (task_number model.now one.now) (task_number model.now other.now))) }
{
    let one = found_task(model, one)?;
    let other = found_task(model, other)?;
    let mut priorities = List::new(alloc);
    priorities.push(TaskPriority {
        task: one,
        priority: model.task(other).priority,
    })?;
    priorities.push(TaskPriority {
        task: other,
        priority: model.task(one).priority,
    })?;
    Ok(Change::Priorities(priorities))
}

/// The priority that the task of a name gets, by its number. E2 where no task has the name.
fn found_priority(model: &ValidModel, named: &NamedPriority) -> Result<TaskPriority, ModelFault>
    ensures { Answers result (found named.now.task (task_names model.now)) (by_number model.now named.now) }
{
    let task = found_task(model, &named.task)?;
    Ok(TaskPriority {
        task,
        priority: named.priority,
    })
}

/// The change that sets these priorities. E2 where no task has one of the names.
fn priorities(
    alloc: Global,
    model: &ValidModel,
    named: &List<NamedPriority>,
) -> Result<Change, ModelFault>
    ensures { Answers result
        (flat_map (λ (p : NamedPriority). found p.task (task_names model.now)) named.now)
        (changes.Priorities (map (by_number model.now) named.now)) }
{
    let all = named.as_slice();
    let mut priorities = List::new(alloc);
    for one in all {
        let it = found_priority(model, one)?;
        priorities.push(it)?;
    }
    Ok(Change::Priorities(priorities))
}

fn move_task(
    model: &ValidModel,
    task: &Name,
    core: &Name,
    priority: u64,
) -> Result<Change, ModelFault>
    ensures { Answers result (found task.now (task_names model.now))
        (changes.Move (task_number model.now task.now) core.now priority) }
{
    let task = found_task(model, task)?;
    Ok(Change::Move {
        task,
        core: core.copy(),
        priority,
    })
}

fn access(model: &ValidModel, task: &Name, access: AccessKind) -> Result<Change, ModelFault>
    ensures { Answers result (found task.now (task_names model.now))
        (changes.Access (task_number model.now task.now) access) }
{
    let task = found_task(model, task)?;
    Ok(Change::Access { task, access })
}

/// The change that appends a task. M10 where there is no room for it.
fn add_task(alloc: Global, model: &ValidModel, task: &TaskDef) -> Result<Change, ModelFault>
    ensures { Answers result
        (unless (nat_lt (length model.now.tasks) MOST_TASKS) Code.M10 (section_place Part.Task))
        (changes.AddTask task.now) }
{
    let has_room = (model.tasks() as usize) < MOST_TASKS;
    refuse_unless(has_room, Code::M10, Part::Task.section_place())?;
    Ok(Change::AddTask(task.try_copy(alloc)?))
}

fn drop_task(model: &ValidModel, task: &Name) -> Result<Change, ModelFault>
    ensures { Answers result (found task.now (task_names model.now))
        (changes.DropTask (task_number model.now task.now)) }
{
    let task = found_task(model, task)?;
    Ok(Change::DropTask { task })
}

/// The change that appends a chain. M10 where there is no room for it.
fn add_chain(alloc: Global, model: &ValidModel, chain: &ChainDef) -> Result<Change, ModelFault>
    ensures { Answers result
        (unless (nat_lt (length model.now.chains) MOST_CHAINS) Code.M10 (section_place Part.Chain))
        (changes.AddChain chain.now) }
{
    let has_room = (model.chains() as usize) < MOST_CHAINS;
    refuse_unless(has_room, Code::M10, Part::Chain.section_place())?;
    Ok(Change::AddChain(chain.try_copy(alloc)?))
}

fn drop_chain(model: &ValidModel, chain: &Name) -> Result<Change, ModelFault>
    ensures { Answers result (found chain.now (chain_names model.now))
        (changes.DropChain (chain_number model.now chain.now)) }
{
    let chain = found_chain(model, chain)?;
    Ok(Change::DropChain { chain })
}

/// The change that appends a requirement. M10 where there is no room for it.
fn new_requirement(model: &ValidModel, requirement: RequirementDef) -> Result<Change, ModelFault>
    ensures { Answers result
        (unless (nat_lt (length model.now.requirements) MOST_REQUIREMENTS) Code.M10 (section_place Part.Requirement))
        (changes.AddRequirement requirement) }
{
    let has_room = (model.requirements() as usize) < MOST_REQUIREMENTS;
    refuse_unless(has_room, Code::M10, Part::Requirement.section_place())?;
    Ok(Change::AddRequirement(requirement))
}

/// The change that sets the requirement of its name, or appends it. M10 where there is no room for
/// it.
fn requirement(
    alloc: Global,
    model: &ValidModel,
    requirement: &RequirementDef,
) -> Result<Change, ModelFault>
    ensures { Answers result
        (unless (has_name requirement.now.name (requirement_names model.now)
        || nat_lt (length model.now.requirements) MOST_REQUIREMENTS) Code.M10 (section_place Part.Requirement))
        (requirement_change (requirement_named model.now requirement.now.name) requirement.now) }
{
    let to = requirement.try_copy(alloc)?;
    match model.requirement_named(&to.name) {
        Some(requirement) => Ok(Change::Requirement { requirement, to }),
        None => new_requirement(model, to),
    }
}

/// The change that removes the requirement of a name. E2 where no requirement has it.
fn drop_requirement(model: &ValidModel, requirement: &Name) -> Result<Change, ModelFault>
    ensures { Answers result (found requirement.now (requirement_names model.now))
        (changes.DropRequirement (unwrap_or (requirement_named model.now requirement.now) 0)) }
{
    match model.requirement_named(requirement) {
        Some(requirement) => Ok(Change::DropRequirement { requirement }),
        None => Err(not_found()),
    }
}

/// Finds which change of a valid model an edit is: E2 where it looks up a name that isn't there, E3
/// where the stimulus is of a kind that it doesn't set, and M10 where it adds a task, a chain or a
/// requirement to a full section. Only priorities, a task or a chain that is added, and a
/// requirement that is set take memory; `NoMemory` comes where there is none.
#[tactic(auto, unfolding(crate::specs::Edited::edit_checks, crate::specs::Changing::change_of))]
pub(crate) fn change_of(
    alloc: Global,
    model: &ValidModel,
    edit: &Edit,
) -> Result<Change, ModelFault>
    ensures { Answers result (edit_checks model.now edit.now) (change_of model.now edit.now) }
{
    match edit {
        Edit::Range {
            runnable,
            least,
            greatest,
        } => range(model, runnable, *least, *greatest),
        Edit::Whole {
            runnable,
            whole: is,
        } => whole(model, runnable, *is),
        Edit::Period { stimulus: name, .. } => stimulus(model, name, edit),
        Edit::Offset { stimulus: name, .. } => stimulus(model, name, edit),
        Edit::Jitter { stimulus: name, .. } => stimulus(model, name, edit),
        Edit::Distances { stimulus: name, .. } => stimulus(model, name, edit),
        Edit::Burst { stimulus: name, .. } => stimulus(model, name, edit),
        Edit::Deadline {
            task,
            deadline: given,
        } => deadline(model, task, *given),
        Edit::Swap { one, other } => swap(alloc, model, one, other),
        Edit::Priorities(named) => priorities(alloc, model, named),
        Edit::Move {
            task,
            core,
            priority,
        } => move_task(model, task, core, *priority),
        Edit::Kind { task, access: kind } => access(model, task, *kind),
        Edit::AddTask(task) => add_task(alloc, model, task),
        Edit::DropTask { task } => drop_task(model, task),
        Edit::AddChain(chain) => add_chain(alloc, model, chain),
        Edit::DropChain { chain } => drop_chain(model, chain),
        Edit::Requirement(to) => requirement(alloc, model, to),
        Edit::DropRequirement { requirement: name } => drop_requirement(model, name),
        Edit::Report | Edit::Tighten | Edit::Verify => Ok(Change::Nothing),
    }
}
