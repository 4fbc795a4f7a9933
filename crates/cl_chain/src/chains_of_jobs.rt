//! The complete chains of a job. Moments are in ticks.
ghost use Rattle.std.specs.Prelude.{◌<◌, length, IfOk};
ghost use Rattle.cl_model.specs.Groups.{groups_at};
ghost use Rattle.cl_runs.specs.{SystemOf.system_of, Run.IsInForm, Chains.{first_job, last_job, IsForwardChain, IsAgeChain}, RunChains.run_moments};
ghost use Rattle.cl_check.specs.InOrder.{AreGroupsInOrder};
ghost use Rattle.cl_chain.specs.JobChains.{option_of, IsChainOf};

use crate::backward_jobs::age_over;
use crate::forward_jobs::forward_over;
use crate::group_moments::moments_of_groups;
use crate::job_chain::JobChain;
use cl_model::ValidModel;
use cl_run_data::RunData;
use cl_time::NoMemory;
use std::alloc::Global;

/// Finds the complete forward chain whose first job is `job`: from the read of the job before it to
/// the write of the last job. Returns `None` exactly where the run has no such chain.
///
/// The run is in form, and in order: each execution time of the tasks of the chain's groups is 1
/// tick or more, and the arrivals of each such task rise. It need not be legal. `NoMemory` comes
/// where there is no memory for the moments of the chain's groups or for the chain; it leaves
/// nothing. Takes time linear in the stretches of the run, its numbers of tasks and cores, and, for
/// each group of the chain, the execution times of the jobs of its task.
pub fn forward(
    alloc: Global,
    model: &ValidModel,
    run: &RunData,
    chain: u32,
    job: u64,
) -> Result<Option<JobChain>, NoMemory>
    requires is_chain { chain < length model.now.chains }
    requires in_form { IsInForm (system_of model.now) run.now }
    requires ordered { AreGroupsInOrder (groups_at model.now chain) run.now }
    ensures { IfOk result (λ found.
        IsChainOf (IsForwardChain (run_moments (system_of model.now) run.now) (groups_at model.now chain)) first_job job (option_of found)) }
{
    let groups = moments_of_groups(alloc, model, run, chain)?;
    forward_over(alloc, groups.as_slice(), job)
}

/// Finds the complete backward chain whose last job is `job`: from its first read to the write of
/// the job after the last. Returns `None` exactly where the run has no such chain.
///
/// The run is in form, and in order: each execution time of the tasks of the chain's groups is 1
/// tick or more, and the arrivals of each such task rise. It need not be legal. `NoMemory` comes
/// where there is no memory for the moments of the chain's groups or for the chain; it leaves
/// nothing. Takes time linear in the stretches of the run, its numbers of tasks and cores, and, for
/// each group of the chain, the execution times of the jobs of its task.
pub fn backward(
    alloc: Global,
    model: &ValidModel,
    run: &RunData,
    chain: u32,
    job: u64,
) -> Result<Option<JobChain>, NoMemory>
    requires is_chain { chain < length model.now.chains }
    requires in_form { IsInForm (system_of model.now) run.now }
    requires ordered { AreGroupsInOrder (groups_at model.now chain) run.now }
    ensures { IfOk result (λ found.
        IsChainOf (IsAgeChain (run_moments (system_of model.now) run.now) (groups_at model.now chain)) last_job job (option_of found)) }
{
    let groups = moments_of_groups(alloc, model, run, chain)?;
    age_over(alloc, groups.as_slice(), job)
}
