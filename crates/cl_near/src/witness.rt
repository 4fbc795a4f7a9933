//! The job tables of all cores that show what is seen of a chain or of a task. Times are in ticks.
ghost use Rattle.std.specs.Prelude.{◌≡◌, ◌<◌, ◌≤◌, true, length, replicate, IfOk};
ghost use Rattle.cl_gen.specs.declared.limits.TheConstants.{MOST_RUN_TICKS};
ghost use Rattle.cl_model.specs.Groups.{groups_at};
ghost use Rattle.cl_runs.specs.{SystemOf.system_of, Table.IsLawful};
ghost use Rattle.cl_near.specs.{Plans.IsPlanOfGroups, RunSizes.IsSizeOfRun};

use crate::chain_plan::ChainPlan;
use crate::chain_seen::{self, BothLengths};
use crate::run_size::{RunSize, size_of_run};
use crate::task_plan::TaskPlan;
use crate::task_seen;
use cl_model::{List, RequirementKind, ValidModel};
use cl_runs::JobTable;
use cl_time::NoMemory;
use std::alloc::Global;

/// Marks all cores of a model.
fn all_cores(alloc: Global, model: &ValidModel) -> Result<List<bool>, NoMemory>
    ensures { IfOk result (λ cores. cores ≡ replicate (length model.now.cores) true) }
{
    let mut cores = List::with_room(alloc, model.cores() as usize)?;
    for _ in 0..model.cores() {
        cores.push(true)?;
    }
    Ok(cores)
}

/// Finds how large the run of all cores is that lasts so many ticks. `NoMemory` comes where there is
/// no memory for a list of the cores; it leaves nothing.
pub fn size_of_whole_run(alloc: Global, model: &ValidModel, ticks: u64) -> Result<RunSize, NoMemory>
    ensures { IfOk result
        (IsSizeOfRun model.now ticks (replicate (length model.now.cores) true)) }
{
    let cores = all_cores(alloc, model)?;
    Ok(size_of_run(model, ticks, cores.as_slice()))
}

/// Makes the job table of the run of a chain in which its length of this kind is the greater of the
/// two of its plan. `NoMemory` comes where there is no memory for the runs; it leaves nothing.
pub fn witness_of_chain(
    alloc: Global,
    model: &ValidModel,
    plan: &ChainPlan,
    chain: u32,
    kind: RequirementKind,
) -> Result<JobTable, NoMemory>
    requires chain { chain < length model.now.chains }
    requires plan { IsPlanOfGroups model.now (groups_at model.now chain) plan.now }
    requires short { plan.now.ticks ≤ MOST_RUN_TICKS }
    ensures { IfOk result (IsLawful (system_of model.now)) }
{
    // So that it is known that the model is valid.
    let _valid = model.plain();
    let load = BothLengths::of(alloc, model, plan, chain, kind)?.longer();
    let cores = all_cores(alloc, model)?;
    chain_seen::planned_table(alloc, model, plan, cores.as_slice(), load)
}

/// Makes the job table of the run of a task. `NoMemory` comes where there is no memory for it; it
/// leaves nothing.
pub fn witness_of_task(
    alloc: Global,
    model: &ValidModel,
    plan: &TaskPlan,
) -> Result<JobTable, NoMemory>
    requires { plan.now.ticks ≤ MOST_RUN_TICKS }
    ensures { IfOk result (IsLawful (system_of model.now)) }
{
    // So that it is known that the model is valid.
    let _valid = model.plain();
    let cores = all_cores(alloc, model)?;
    task_seen::planned_table(alloc, model, plan, cores.as_slice())
}
