//! Measuring the delays of a run: how long an event takes that comes with a job. Moments are in
//! ticks.
//!
//! A delay is a reaction to such an event. It takes the number of its job, reads as the job
//! arrives, and stands for the job before it; the job itself takes the next number.
ghost use Rattle.std.specs.Prelude.{◌≡◌, ◌-◌, ◌<◌, ◌≤◌, length, slice_index, slice_set, IfOk};
ghost use Rattle.cl_model.specs.{Groups.groups_at, Validity.IsValid};
ghost use Rattle.cl_runs.specs.{SystemOf.system_of, Run.IsInForm, Legal.IsLegal, Chains.first_job, Delays.IsDelayChain, RunChains.run_moments, Measured.{IsMeasured, IsMeasuredBy}};
ghost use Rattle.cl_run_data.specs.Parts.{ShowsGroups};
ghost use Rattle.cl_check.specs.{Apart.StandApart, InOrder.AreGroupsInOrder};
ghost use Rattle.cl_chain.specs.{GreatestDelays.IsGreatestDelayBy, JobChains.{option_of, measured_of}, Inner.{ChainsOver.{IsForwardOver, AreForwardOrdered}, GroupTables.AreTables, Events.{AreEventTables, IsDelayOver}}};

use crate::forward_jobs::forward_over;
use crate::group_moments::{GroupMoments, arrivals_of, moments_of_groups_apart};
use crate::job_chain::{JobChain, Measured};
use crate::measuring::{forward_rows, measured_over, moments_before};
use crate::rows::greatest;
use cl_check::tasks_apart;
use cl_model::{List, ValidModel};
use cl_run_data::RunData;
use cl_time::NoMemory;
use std::alloc::Global;

/// Puts an event before each job of the first of the groups of a chain.
fn with_events(
    alloc: Global,
    model: &ValidModel,
    run: &RunData,
    chain: u32,
    groups: List<GroupMoments>,
) -> Result<List<GroupMoments>, NoMemory>
    requires is_chain { chain < length model.now.chains }
    requires in_form { IsInForm (system_of model.now) run.now }
    requires tables { AreTables (system_of model.now) run.now (groups_at model.now chain) groups }
    requires some { 0 < length (groups_at model.now chain) }
    ensures { IfOk result
        (AreEventTables (system_of model.now) run.now (groups_at model.now chain)) }
{
    let mut groups = groups;
    let task = model.group(chain, 0).task;
    let reads = arrivals_of(alloc, run.table().jobs_of(task))?;
    let writes = moments_before(alloc, groups.as_slice()[0].writes.as_slice())?;
    *groups.item_mut(0) = GroupMoments { reads, writes };
    Ok(groups)
}

/// Finds when the jobs of each group of a chain read and write, with an event before each job of
/// the first.
fn moments_after_events(
    alloc: Global,
    model: &ValidModel,
    run: &RunData,
    apart: &RunData,
    chain: u32,
) -> Result<List<GroupMoments>, NoMemory>
    requires is_chain { chain < length model.now.chains }
    requires in_form { IsInForm (system_of model.now) run.now }
    requires ordered { AreGroupsInOrder (groups_at model.now chain) run.now }
    requires apart { StandApart (system_of model.now) run.now apart.now }
    ensures tables { IfOk result
        (AreEventTables (system_of model.now) run.now (groups_at model.now chain)) }
    ensures some { 0 < length (groups_at model.now chain) }
    ensures valid { IsValid model.now }
{
    let groups = moments_of_groups_apart(alloc, model, run, apart, chain)?;
    with_events(alloc, model, run, chain, groups)
}

/// Gives the first job of a chain that begins with an event its number in the run.
fn without_event(chain: JobChain) -> JobChain
    requires some { 0 < length chain.jobs }
    requires first { 1 ≤ slice_index chain.jobs 0 }
    ensures from { result.from ≡ chain.from }
    ensures to { result.to ≡ chain.to }
    ensures jobs { result.jobs ≡ slice_set chain.jobs 0 (slice_index chain.jobs 0 - 1) }
{
    let mut chain = chain;
    *chain.jobs.item_mut(0) -= 1;
    chain
}

/// Finds the complete forward chain of the first of the rows that last longest, where chains may end
/// before they begin.
fn greatest_forward(alloc: Global, groups: &[GroupMoments]) -> Result<Option<JobChain>, NoMemory>
    requires { AreForwardOrdered groups.now }
    ensures { IfOk result (λ found. IsGreatestDelayBy (IsForwardOver groups.now) (option_of found)) }
{
    let rows = forward_rows(alloc, groups)?;
    match greatest(&rows) {
        Some(place) => forward_over(alloc, groups, rows.jobs.as_slice()[place]),
        None => Ok(None),
    }
}

/// Finds the chain of the greatest delay over the moments of groups with an event before each job
/// of the first.
fn delay_over(alloc: Global, groups: &[GroupMoments]) -> Result<Option<JobChain>, NoMemory>
    requires { AreForwardOrdered groups.now }
    ensures { IfOk result (λ found. IsGreatestDelayBy (IsDelayOver groups.now) (option_of found)) }
{
    let found = greatest_forward(alloc, groups)?;
    match found {
        Some(chain) => Ok(Some(without_event(chain))),
        None => Ok(None),
    }
}

/// Finds the greatest delay of a chain of the model in a run: a longest of the chains that take an
/// event on, from the arrival of the first job to the write of the last, and, among equals, the one
/// of the least first job. Returns `None` exactly where the run has no such chain.
///
/// The run is in form, and in order: each execution time of the tasks of the chain's groups is 1
/// tick or more, and the arrivals of each such task rise. It need not be legal. Where it isn't, a
/// job may have run before it arrived; then a delay may be negative, and counts as that. `NoMemory`
/// comes where there is no memory for the moments of the chain's groups or for the chain; it leaves
/// nothing. Takes time linear in the stretches of the run, its numbers of tasks and cores, and, for
/// each group of the chain, the execution times of the jobs of its task, whatever the number of
/// ticks.
pub fn measure_delay(
    alloc: Global,
    model: &ValidModel,
    run: &RunData,
    chain: u32,
) -> Result<Option<JobChain>, NoMemory>
    requires is_chain { chain < length model.now.chains }
    requires in_form { IsInForm (system_of model.now) run.now }
    requires ordered { AreGroupsInOrder (groups_at model.now chain) run.now }
    ensures greatest { IfOk result (λ found.
        IsGreatestDelayBy (IsDelayChain (system_of model.now) run.now (groups_at model.now chain)) (option_of found)) }
    ensures legal { IsLegal (system_of model.now) run.now
        → IfOk result (λ found.
        IsMeasuredBy (IsDelayChain (system_of model.now) run.now (groups_at model.now chain)) first_job (option_of found)) }
{
    let apart = tasks_apart(alloc, model, run)?;
    measure_delay_apart(alloc, model, run, &apart, chain)
}

/// Finds the greatest delay of a chain of the model in a run as `measure_delay` does, for the same
/// runs and with the same errors. `apart` has a list of entries for each task, as `tasks_apart`
/// returns it.
///
/// Takes time linear, for each group of the chain, in the stretches of the list of its task and the
/// execution times of the jobs of that task.
pub fn measure_delay_apart(
    alloc: Global,
    model: &ValidModel,
    run: &RunData,
    apart: &RunData,
    chain: u32,
) -> Result<Option<JobChain>, NoMemory>
    requires is_chain { chain < length model.now.chains }
    requires in_form { IsInForm (system_of model.now) run.now }
    requires ordered { AreGroupsInOrder (groups_at model.now chain) run.now }
    requires apart { StandApart (system_of model.now) run.now apart.now }
    ensures greatest { IfOk result (λ found.
        IsGreatestDelayBy (IsDelayChain (system_of model.now) run.now (groups_at model.now chain)) (option_of found)) }
    ensures shown { ShowsGroups (system_of model.now) (groups_at model.now chain) run.now
        → IfOk result (λ found.
        IsMeasuredBy (IsDelayChain (system_of model.now) run.now (groups_at model.now chain)) first_job (option_of found)) }
{
    let groups = moments_after_events(alloc, model, run, apart, chain)?;
    delay_over(alloc, groups.as_slice())
}

/// Measures a chain of the model in a run as `measure` does, and finds its greatest delay as
/// `measure_delay` does, for the same runs and with the same errors. `apart` has a list of entries
/// for each task, as `tasks_apart` returns it.
///
/// Looks up the moments of the chain's groups once for both. Takes time linear, for each group of
/// the chain, in the stretches of the list of its task and the execution times of the jobs of that
/// task.
pub fn measure_with_delay_apart(
    alloc: Global,
    model: &ValidModel,
    run: &RunData,
    apart: &RunData,
    chain: u32,
) -> Result<(Measured, Option<JobChain>), NoMemory>
    requires is_chain { chain < length model.now.chains }
    requires in_form { IsInForm (system_of model.now) run.now }
    requires ordered { AreGroupsInOrder (groups_at model.now chain) run.now }
    requires apart { StandApart (system_of model.now) run.now apart.now }
    ensures measured { IfOk result (λ found.
        IsMeasured (run_moments (system_of model.now) run.now) (groups_at model.now chain) (measured_of found.0)) }
    ensures greatest { IfOk result (λ found.
        IsGreatestDelayBy (IsDelayChain (system_of model.now) run.now (groups_at model.now chain)) (option_of found.1)) }
{
    let groups = moments_of_groups_apart(alloc, model, run, apart, chain)?;
    let measured = measured_over(alloc, groups.as_slice())?;
    let events = with_events(alloc, model, run, chain, groups)?;
    let delay = delay_over(alloc, events.as_slice())?;
    Ok((measured, delay))
}
