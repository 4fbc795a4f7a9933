//! Whether an edit may be applied to a valid model, checked before any change.
ghost use Rattle.std.specs.Prelude.{◌++◌, IfOk};
ghost use Rattle.cl_model.specs.{Answers.{Answers, Passes}, Validity.{IsValid, refusals_of}};
ghost use Rattle.cl_edit.specs.{Changing.{with_change, IsChangeOf, MayBeMade, change_of}, Edited.{edit_checks, with_edit}, Ranges.IsEditInRange};

use crate::change::Change;
use crate::check_lists::{check_dropped_chain, check_dropped_task, check_new_chain};
use crate::check_move::check_move;
use crate::check_new_task::check_new_task;
use crate::check_priorities::check_priorities;
use crate::check_requirements::{check_new_requirement, check_requirement};
use crate::check_sets::{check_deadline, check_kind, check_range};
use crate::edit::Edit;
use crate::resolve::change_of;
use cl_model::{ModelFault, ValidModel};
use std::alloc::Global;

/// Checks whether a change leaves a valid model, by the few checks that it needs.
fn check_change(alloc: Global, model: &ValidModel, change: &Change) -> Result<(), ModelFault>
    requires valid { IsValid model.now }
    requires known { IsChangeOf model.now change.now }
    ensures { Passes result (refusals_of (with_change model.now change.now)) }
{
    match change {
        Change::Range {
            step,
            least,
            greatest,
        } => check_range(model, *step, *least, *greatest),
        Change::Stimulus { stimulus, kind } => check_kind(model, *stimulus, *kind),
        Change::Deadline { task, deadline } => check_deadline(model, *task, *deadline),
        Change::Priorities(priorities) => check_priorities(alloc, model, priorities.as_slice()),
        Change::Move {
            task,
            core,
            priority,
        } => check_move(model, *task, core, *priority),
        Change::AddTask(task) => check_new_task(alloc, model, task),
        Change::DropTask { task } => check_dropped_task(model, *task),
        Change::AddChain(chain) => check_new_chain(model, chain),
        Change::DropChain { chain } => check_dropped_chain(model, *chain),
        Change::Requirement { requirement, to } => check_requirement(model, *requirement, to),
        Change::AddRequirement(requirement) => check_new_requirement(model, requirement),
        Change::Whole { .. } => Ok(()),
        Change::Access { .. } => Ok(()),
        Change::DropRequirement { .. } => Ok(()),
        Change::Nothing => Ok(()),
    }
}

/// Checks whether an edit may be applied to a valid model, and finds which change of it the edit
/// is. Changes nothing.
///
/// The edit is refused with E2 where it looks up a name that isn't there, with E3 where the
/// stimulus is of a kind that it doesn't set, with M10 where it adds a task, a chain or a
/// requirement to a full section, and else exactly where the changed model isn't valid, with the
/// first refusal of that model. Only priorities, a task or a chain that is added, and a requirement
/// that is set take memory; `NoMemory` comes where there is none.
pub fn check_edit(alloc: Global, model: &ValidModel, edit: &Edit) -> Result<Change, ModelFault>
    requires { IsEditInRange edit.now }
    ensures change { Answers result
        (edit_checks model.now edit.now ++ refusals_of (with_edit model.now edit.now)) (change_of model.now edit.now) }
    ensures may_be_made { IfOk result (MayBeMade model.now) }
{
    let _valid = model.plain();
    let change = change_of(alloc, model, edit)?;
    check_change(alloc, model, &change)?;
    Ok(change)
}
