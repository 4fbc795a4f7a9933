//! The best order of a core, filled from the lowest priority upward.
ghost use Rattle.std.specs.Prelude.{◌≡◌, ◌+◌, ◌<◌, ◌≤◌, length, find, IfOk, All, Option};
ghost use Rattle.std.specs.Option.{option_map};
ghost use Rattle.cl_model.specs.{ByNumber.tasks_of_core, Validity.IsValid};
ghost use Rattle.cl_runs.specs.SystemOf.{system_of};
ghost use Rattle.cl_tune.specs.Inner.Filling.{AreDistinct, fits, best_order};

use crate::fitting::{all_above, first_too_long_for_any, fits, longest_hold, put_above, without};
use cl_model::{MOST_TASKS_OF_CORE, MOST_TICKS, ValidModel};
use cl_time::{NoMemory, Steps};
use std::alloc::Global;
use std::sync::ledger::Ledger;

/// Finds the first unplaced task that passes below all other unplaced ones. There is none exactly
/// where none of them does.
fn first_fitting<L: Ledger>(
    alloc: Global,
    model: &ValidModel,
    block: u64,
    unplaced: &[u32],
    steps: &mut Steps<L>,
) -> Result<Option<u32>, NoMemory>
    requires valid { IsValid model.now }
    requires block { block ≤ MOST_TICKS }
    requires unplaced { All (λ other. other < length model.now.tasks) unplaced.now }
    requires few { length unplaced.now ≤ MOST_TASKS_OF_CORE }
    requires distinct { AreDistinct unplaced.now }
    ensures { IfOk result
        (λ found. found ≡ find (fits (system_of model.now) block unplaced.now) unplaced.now) }
{
    let Some((_, later)) = unplaced.split_first() else {
        return Ok(None);
    };
    let too_long = first_too_long_for_any(model, unplaced);
    // what all unplaced tasks take but the one that is tried: only one entry changes from one task
    // to the next
    let mut others = all_above(alloc, model, later)?;
    for (place, task) in unplaced.iter().enumerate() {
        let (fit, same) = fits(model, block, too_long, others, *task, steps);
        if fit {
            return Ok(Some(*task));
        }
        others = same;
        put_above(model, &mut others, place, *task);
    }
    Ok(None)
}

/// Finds the best order of a core, as its tasks from priority 1 upward. There is none exactly where
/// no order of the core passes.
pub(crate) fn best_order<L: Ledger>(
    alloc: Global,
    model: &ValidModel,
    core: u32,
    steps: &mut Steps<L>,
) -> Result<Option<Vec<u32>>, NoMemory>
    requires valid { IsValid model.now }
    requires core { core < length model.now.cores }
    ensures { IfOk result (λ order. option_map (λ order. order.items) order
        ≡ best_order (system_of model.now) (length (tasks_of_core model.now core)) 0 (tasks_of_core model.now core)) }
{
    let tasks = model.tasks_of_core(core);
    let mut order = Vec::new(alloc);
    let mut block = 0;
    let mut unplaced = Vec::from_slice(alloc, tasks)?;
    for _ in 0..tasks.len() {
        let Some(task) = first_fitting(alloc, model, block, unplaced.as_slice(), steps)? else {
            return Ok(None);
        };
        order.push(task)?;
        block = block.max(longest_hold(model, task));
        unplaced = without(alloc, unplaced.as_slice(), task)?;
    }
    Ok(Some(order))
}
