//! The model that an edit makes of a valid one, whether or not it is valid itself.
ghost use Rattle.std.specs.Prelude.{◌≡◌, IfOk, OnOk};
ghost use Rattle.cl_model.specs.{Answers.Answers, Ranges.IsInRange};
ghost use Rattle.cl_edit.specs.{Changing.{with_change, IsChangeOf}, Edited.{edit_checks, with_edit}, Ranges.IsEditInRange};

use crate::change::Change;
use crate::edit::Edit;
use crate::resolve::change_of;
use cl_model::{ModelFault, SystemModel, ValidModel};
use cl_time::NoMemory;
use std::alloc::Global;

impl Change {
    /// Makes the change of a model in place. Only what is added takes memory. `NoMemory` comes
    /// where there is none for it.
    fn change(self, model: &mut SystemModel) -> Result<(), NoMemory>
        requires { IsChangeOf model.old self }
        ensures { OnOk result (model.new ≡ with_change model.old self) }
    {
        match self {
            Change::Range {
                step,
                least,
                greatest,
            } => model.set_range(step, least, greatest),
            Change::Whole { step, whole } => model.set_whole(step, whole),
            Change::Stimulus { stimulus, kind } => model.set_kind(stimulus as usize, kind),
            Change::Deadline { task, deadline } => model.set_deadline(task as usize, deadline),
            Change::Priorities(priorities) => model.set_priorities(priorities.as_slice()),
            Change::Move {
                task,
                core,
                priority,
            } => model.set_place(task as usize, &core, priority),
            Change::Access { task, access } => model.set_access(task as usize, access),
            Change::AddTask(task) => return model.tasks.push(task),
            Change::DropTask { task } => model.drop_task(task as usize),
            Change::AddChain(chain) => return model.chains.push(chain),
            Change::DropChain { chain } => model.drop_chain(chain as usize),
            Change::Requirement { requirement, to } => {
                model.set_requirement(requirement as usize, to);
            }
            Change::AddRequirement(requirement) => return model.requirements.push(requirement),
            Change::DropRequirement { requirement } => {
                model.drop_requirement(requirement as usize);
            }
            Change::Nothing => (),
        }
        Ok(())
    }
}

/// Makes the model that an edit makes of a valid one, whether or not it is valid itself. The valid
/// model stays as it is.
///
/// The edit is refused by its first checks alone: with E2 where it looks up a name that isn't there,
/// with E3 where the stimulus is of a kind that it doesn't set, and with M10 where it adds a task, a
/// chain or a requirement to a full section. `NoMemory` comes where memory ran out.
pub fn changed_model(
    alloc: Global,
    model: &ValidModel,
    edit: &Edit,
) -> Result<SystemModel, ModelFault>
    requires { IsEditInRange edit.now }
    ensures changed { Answers result (edit_checks model.now edit.now) (with_edit model.now edit.now) }
    ensures in_range { IfOk result IsInRange }
{
    let plain = model.plain();
    let change = change_of(alloc, model, edit)?;
    let mut changed = plain.copy(alloc)?;
    change.change(&mut changed)?;
    Ok(changed)
}
