//! Changing a valid model in place.
ghost use Rattle.std.specs.Prelude.{◌≡◌, IfOk};
ghost use Rattle.cl_model.specs.{Answers.Gives, Changes.{with_new_task, with_new_chain, with_priorities, with_requirement, with_new_requirement}};
ghost use Rattle.cl_edit.specs.declared.change.Change.TheVariants as changes;
ghost use Rattle.cl_edit.specs.{Changing.{with_change, MayBeMade}, Edited.edited, Ranges.IsEditInRange};

use crate::change::Change;
use crate::check::check_edit;
use crate::edit::Edit;
use cl_model::{
    ChainDef, List, ModelFault, RequirementDef, TaskDef, TaskPriority, TryCopy, ValidModel,
};
use cl_time::NoMemory;
use std::alloc::Global;

impl Change {
    /// Makes the change of a valid model, which it consumes and changes in place. Only a task that
    /// is moved or added, a chain that is added, and a requirement that is set or added take
    /// memory. `NoMemory` comes where there is none for them, and leaves nothing of the model.
    pub fn make(&self, alloc: Global, model: ValidModel) -> Result<ValidModel, NoMemory>
        requires { MayBeMade model self.now }
        ensures { IfOk result (λ changed. changed ≡ with_change model self.now) }
    {
        match self {
            Change::Range {
                step,
                least,
                greatest,
            } => Ok(model.with_range(*step, *least, *greatest)),
            Change::Whole { step, whole } => Ok(model.with_whole(*step, *whole)),
            Change::Stimulus { stimulus, kind } => Ok(model.with_kind(*stimulus, *kind)),
            Change::Deadline { task, deadline } => Ok(model.with_deadline(*task, *deadline)),
            Change::Priorities(priorities) => Ok(set_priorities(model, priorities)),
            Change::Move {
                task,
                core,
                priority,
            } => model.with_place(*task, core, *priority),
            Change::Access { task, access } => Ok(model.with_access(*task, *access)),
            Change::AddTask(task) => add_task(alloc, model, task),
            Change::DropTask { task } => Ok(model.without_task(*task)),
            Change::AddChain(chain) => add_chain(alloc, model, chain),
            Change::DropChain { chain } => Ok(model.without_chain(*chain)),
            Change::Requirement { requirement, to } => {
                set_requirement(alloc, model, *requirement, to)
            }
            Change::AddRequirement(requirement) => add_requirement(alloc, model, requirement),
            Change::DropRequirement { requirement } => {
                Ok(model.without_requirement(*requirement))
            }
            Change::Nothing => Ok(model),
        }
    }
}

/// Sets the priorities of tasks of a valid model.
fn set_priorities(model: ValidModel, priorities: &List<TaskPriority>) -> ValidModel
    requires { MayBeMade model (changes.Priorities priorities.now) }
    ensures { result ≡ with_priorities model priorities.now }
{
    model.with_priorities(priorities.as_slice())
}

/// Adds a copy of a task behind the others.
fn add_task(alloc: Global, model: ValidModel, task: &TaskDef) -> Result<ValidModel, NoMemory>
    requires { MayBeMade model (changes.AddTask task.now) }
    ensures { IfOk result (λ changed. changed ≡ with_new_task model task.now) }
{
    model.with_task(task.try_copy(alloc)?)
}

/// Adds a copy of a chain behind the others.
fn add_chain(alloc: Global, model: ValidModel, chain: &ChainDef) -> Result<ValidModel, NoMemory>
    requires { MayBeMade model (changes.AddChain chain.now) }
    ensures { IfOk result (λ changed. changed ≡ with_new_chain model chain.now) }
{
    model.with_chain(alloc, chain.try_copy(alloc)?)
}

/// Puts a copy of a requirement in the place of the one of this number.
fn set_requirement(
    alloc: Global,
    model: ValidModel,
    number: u32,
    to: &RequirementDef,
) -> Result<ValidModel, NoMemory>
    requires { MayBeMade model (changes.Requirement number to.now) }
    ensures { IfOk result (λ changed. changed ≡ with_requirement model number to.now) }
{
    Ok(model.with_requirement(number, to.try_copy(alloc)?))
}

/// Adds a copy of a requirement behind the others.
fn add_requirement(
    alloc: Global,
    model: ValidModel,
    requirement: &RequirementDef,
) -> Result<ValidModel, NoMemory>
    requires { MayBeMade model (changes.AddRequirement requirement.now) }
    ensures { IfOk result (λ changed. changed ≡ with_new_requirement model requirement.now) }
{
    model.with_new_requirement(requirement.try_copy(alloc)?)
}

/// Applies an edit to a valid model, which it consumes and changes in place. It refuses the edit
/// exactly where `check_edit` does, with the same refusal. `NoMemory` comes where memory ran out.
/// Either error leaves nothing of the model.
pub fn edit_valid(alloc: Global, model: ValidModel, edit: &Edit) -> Result<ValidModel, ModelFault>
    requires { IsEditInRange edit.now }
    ensures { Gives result (edited model edit.now) }
{
    let change = check_edit(alloc, &model, edit)?;
    Ok(change.make(alloc, model)?)
}

/// Applies an edit to a copy of a valid model and returns the copy, which is valid. The model
/// itself stays as it is. The edit is refused exactly where `check_edit` refuses it, with the same
/// refusal. `NoMemory` comes where memory ran out. Either error leaves nothing of the copy.
pub fn apply_edit(alloc: Global, model: &ValidModel, edit: &Edit) -> Result<ValidModel, ModelFault>
    requires { IsEditInRange edit.now }
    ensures { Gives result (edited model.now edit.now) }
{
    edit_valid(alloc, model.copy(alloc)?, edit)
}
