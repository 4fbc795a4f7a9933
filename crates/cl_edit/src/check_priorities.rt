//! Whether tasks of a valid model may get other priorities, checked before any change.
ghost use Rattle.std.specs.Prelude.{◌≡◌, ◌++◌, IfOk, All};
ghost use Rattle.cl_model.specs.{Answers.Passes, Changes.with_priorities, Validity.{IsValid, refusals_of}};
ghost use Rattle.cl_edit.specs.{Changing.IsPriorityOf, Inner.{Paces.{with_retiming, IsRetimingOf, priorities_of}, Pairs.pair_checks}};

use crate::pace::Retiming;
use crate::pairs::PairFault;
use cl_model::{ModelFault, TaskPriority, ValidModel};
use cl_time::NoMemory;
use std::alloc::Global;

/// The priority of each task.
fn priorities_of(alloc: Global, model: &ValidModel) -> Result<Vec<u64>, NoMemory>
    ensures { IfOk result (λ priorities. priorities.items ≡ priorities_of model.now) }
{
    let tasks = model.plain().tasks.as_slice();
    let mut priorities = Vec::with_capacity(alloc, tasks.len())?;
    for task in tasks {
        priorities.push(task.priority)?;
    }
    Ok(priorities)
}

/// The priority of each task after these are set.
fn priorities_after(
    alloc: Global,
    model: &ValidModel,
    set: &[TaskPriority],
) -> Result<Vec<u64>, NoMemory>
    requires { All (IsPriorityOf model.now) set.now }
    ensures { IfOk result (λ after. after.items ≡ priorities_of (with_priorities model.now set.now)) }
{
    let mut after = priorities_of(alloc, model)?;
    for it in set {
        after[it.task as usize] = it.priority;
    }
    Ok(after)
}

/// Checks M31 and then M42 for all tasks after a change.
#[tactic(auto, using(cl_model::proofs::FirstRefusals::faults))]
fn check_all_pairs(model: &ValidModel, change: Retiming<'_>) -> Result<(), ModelFault>
    requires valid { IsValid model.now }
    requires change { IsRetimingOf model.now change }
    ensures { let changed = with_retiming model.now change.entry in Passes result
        (pair_checks PairFault.Clash changed ++ pair_checks PairFault.Outpaced changed) }
{
    change.check_pairs(model, PairFault::Clash)?;
    change.check_pairs(model, PairFault::Outpaced)
}

/// Checks whether tasks may get these priorities. `NoMemory` where there is no memory for the
/// priorities of all tasks after them.
pub(crate) fn check_priorities(
    alloc: Global,
    model: &ValidModel,
    set: &[TaskPriority],
) -> Result<(), ModelFault>
    requires valid { IsValid model.now }
    requires set { All (IsPriorityOf model.now) set.now }
    ensures { Passes result (refusals_of (with_priorities model.now set.now)) }
{
    let after = priorities_after(alloc, model, set)?;
    let change = Retiming::Priorities {
        set,
        after: after.as_slice(),
    };
    check_all_pairs(model, change)
}
