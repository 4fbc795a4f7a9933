//! Measuring the chains of a run. Moments are in ticks.
ghost use Rattle.std.specs.Prelude.{◌≡◌, ◌-◌, ◌<◌, ◌∷◌, None, length, IfOk};
ghost use Rattle.cl_model.specs.Groups.{groups_at};
ghost use Rattle.cl_runs.specs.{SystemOf.system_of, Run.IsInForm, Chains.{first_job, last_job}, RunChains.run_moments, Measured.{IsMeasured, IsMeasuredBy, IsCountOf}};
ghost use Rattle.cl_check.specs.{Apart.StandApart, InOrder.AreGroupsInOrder, JobMoments.IsMomentOf};
ghost use Rattle.cl_chain.specs.{JobChains.{option_of, measured_of}, Inner.{GroupTables.AreMomentsAt, Hops.{IsOfNext, IsBeforeNext}, ChainsOver.{IsHead, IsForwardOver, IsAgeOver, IsReducedOver, AreForwardOrdered, AreOrdered, IsMeasuredOver}, Rows.AreRowsOf}};

use crate::backward_jobs::{age_over, next_write, reduced_over};
use crate::forward_jobs::forward_over;
use crate::group_moments::{GroupMoments, moments_of_groups_apart};
use crate::heads::heads;
use crate::job_chain::{JobChain, Measured};
use crate::rows::{Rows, longest, rows_of};
use crate::tails::tails;
use cl_check::tasks_apart;
use cl_model::{List, ValidModel};
use cl_run_data::RunData;
use cl_time::NoMemory;
use std::alloc::Global;

/// Lists for each job the moment of the job before it, none for job 0, with one entry more than
/// there are jobs.
pub(crate) fn moments_before(
    alloc: Global,
    moments: &[Option<u64>],
) -> Result<List<Option<u64>>, NoMemory>
    ensures { IfOk result (λ before. before ≡ None ∷ moments.now) }
{
    let mut before = List::with_room(alloc, moments.len() + 1)?;
    before.push(None)?;
    for moment in moments {
        before.push(*moment)?;
    }
    Ok(before)
}

/// Returns the write of the job after a job, where both write.
fn later_write(writes: &[Option<u64>], job: usize) -> Option<u64>
    ensures { IsMomentOf (IsOfNext writes.now job) result }
{
    let (_, next) = next_write(writes, job)?;
    Some(next)
}

/// Returns the write of a job, where the job after it writes too.
fn replaced_write(writes: &[Option<u64>], job: usize) -> Option<u64>
    ensures { IsMomentOf (IsBeforeNext writes.now job) result }
{
    let (write, _) = next_write(writes, job)?;
    Some(write)
}

/// Lists for each job the write of the job after it, where both write.
fn later_writes(alloc: Global, writes: &[Option<u64>]) -> Result<List<Option<u64>>, NoMemory>
    ensures { IfOk result (AreMomentsAt (IsOfNext writes.now)) }
{
    let mut later = List::with_room(alloc, writes.len())?;
    for job in 0..writes.len() {
        later.push(later_write(writes, job))?;
    }
    Ok(later)
}

/// Lists for each job its write, where the job after it writes too.
fn replaced_writes(alloc: Global, writes: &[Option<u64>]) -> Result<List<Option<u64>>, NoMemory>
    ensures { IfOk result (AreMomentsAt (IsBeforeNext writes.now)) }
{
    let mut replaced = List::with_room(alloc, writes.len())?;
    for job in 0..writes.len() {
        replaced.push(replaced_write(writes, job))?;
    }
    Ok(replaced)
}

/// Finds the forward chain of the first of the longest rows.
fn longest_forward(
    alloc: Global,
    groups: &[GroupMoments],
    rows: &Rows,
) -> Result<Option<JobChain>, NoMemory>
    requires ordered { AreOrdered groups.now }
    requires rows { AreRowsOf (IsForwardOver groups.now) first_job rows.now }
    ensures { IfOk result
        (λ found. IsMeasuredBy (IsForwardOver groups.now) first_job (option_of found)) }
{
    match longest(rows) {
        Some(place) => forward_over(alloc, groups, rows.jobs.as_slice()[place]),
        None => Ok(None),
    }
}

/// Finds the backward chain, to the write of the job after its last, of the first of the longest
/// rows.
fn longest_age(
    alloc: Global,
    groups: &[GroupMoments],
    rows: &Rows,
) -> Result<Option<JobChain>, NoMemory>
    requires ordered { AreOrdered groups.now }
    requires rows { AreRowsOf (IsAgeOver groups.now) last_job rows.now }
    ensures { IfOk result
        (λ found. IsMeasuredBy (IsAgeOver groups.now) last_job (option_of found)) }
{
    match longest(rows) {
        Some(place) => age_over(alloc, groups, rows.jobs.as_slice()[place]),
        None => Ok(None),
    }
}

/// Finds the backward chain, to the write of its last job, of the first of the longest rows.
fn longest_reduced(
    alloc: Global,
    groups: &[GroupMoments],
    rows: &Rows,
) -> Result<Option<JobChain>, NoMemory>
    requires ordered { AreOrdered groups.now }
    requires rows { AreRowsOf (IsReducedOver groups.now) last_job rows.now }
    ensures { IfOk result
        (λ found. IsMeasuredBy (IsReducedOver groups.now) last_job (option_of found)) }
{
    match longest(rows) {
        Some(place) => reduced_over(alloc, groups, rows.jobs.as_slice()[place]),
        None => Ok(None),
    }
}

/// Lists the rows of the complete forward chains.
pub(crate) fn forward_rows(alloc: Global, groups: &[GroupMoments]) -> Result<Rows, NoMemory>
    requires { AreForwardOrdered groups.now }
    ensures { IfOk result (AreRowsOf (IsForwardOver groups.now) first_job) }
{
    let starts = moments_before(alloc, groups[0].reads.as_slice())?;
    let ends = tails(alloc, groups)?;
    rows_of(alloc, starts.as_slice(), ends.as_slice())
}

/// Lists the rows of the complete backward chains, to the write of the job after the last.
fn age_rows(
    alloc: Global,
    groups: &[GroupMoments],
    starts: &[Option<u64>],
) -> Result<Rows, NoMemory>
    requires ordered { AreOrdered groups.now }
    requires heads { AreMomentsAt (IsHead groups.now (length groups.now - 1)) starts.now }
    ensures { IfOk result (AreRowsOf (IsAgeOver groups.now) last_job) }
{
    let ends = later_writes(alloc, groups[groups.len() - 1].writes.as_slice())?;
    rows_of(alloc, starts, ends.as_slice())
}

/// Lists the rows of the complete backward chains, to the write of the last job.
fn reduced_rows(
    alloc: Global,
    groups: &[GroupMoments],
    starts: &[Option<u64>],
) -> Result<Rows, NoMemory>
    requires ordered { AreOrdered groups.now }
    requires heads { AreMomentsAt (IsHead groups.now (length groups.now - 1)) starts.now }
    ensures { IfOk result (AreRowsOf (IsReducedOver groups.now) last_job) }
{
    let ends = replaced_writes(alloc, groups[groups.len() - 1].writes.as_slice())?;
    rows_of(alloc, starts, ends.as_slice())
}

/// Finds the longest complete forward chain, and counts the complete forward chains.
fn forward_measured(
    alloc: Global,
    groups: &[GroupMoments],
) -> Result<(Option<JobChain>, u64), NoMemory>
    requires { AreOrdered groups.now }
    ensures { IfOk result
        (λ found. IsMeasuredBy (IsForwardOver groups.now) first_job (option_of found.0)
        × IsCountOf (IsForwardOver groups.now) found.1) }
{
    let rows = forward_rows(alloc, groups)?;
    let chain = longest_forward(alloc, groups, &rows)?;
    Ok((chain, rows.jobs.len() as u64))
}

/// Finds the longest complete backward chain to the write of the job after its last, and counts the
/// complete backward chains.
fn age_measured(
    alloc: Global,
    groups: &[GroupMoments],
    starts: &[Option<u64>],
) -> Result<(Option<JobChain>, u64), NoMemory>
    requires ordered { AreOrdered groups.now }
    requires heads { AreMomentsAt (IsHead groups.now (length groups.now - 1)) starts.now }
    ensures { IfOk result (λ found. IsMeasuredBy (IsAgeOver groups.now) last_job (option_of found.0)
        × IsCountOf (IsAgeOver groups.now) found.1) }
{
    let rows = age_rows(alloc, groups, starts)?;
    let chain = longest_age(alloc, groups, &rows)?;
    Ok((chain, rows.jobs.len() as u64))
}

/// Finds the longest complete backward chain to the write of its last job.
fn reduced_measured(
    alloc: Global,
    groups: &[GroupMoments],
    starts: &[Option<u64>],
) -> Result<Option<JobChain>, NoMemory>
    requires ordered { AreOrdered groups.now }
    requires heads { AreMomentsAt (IsHead groups.now (length groups.now - 1)) starts.now }
    ensures { IfOk result
        (λ found. IsMeasuredBy (IsReducedOver groups.now) last_job (option_of found)) }
{
    let rows = reduced_rows(alloc, groups, starts)?;
    longest_reduced(alloc, groups, &rows)
}

/// Measures the chains over the moments of groups.
pub(crate) fn measured_over(alloc: Global, groups: &[GroupMoments]) -> Result<Measured, NoMemory>
    requires { AreOrdered groups.now }
    ensures { IfOk result (λ measured. IsMeasuredOver groups.now (measured_of measured)) }
{
    let (reaction, forward) = forward_measured(alloc, groups)?;
    let starts = heads(alloc, groups)?;
    let (age, backward) = age_measured(alloc, groups, starts.as_slice())?;
    let reduced = reduced_measured(alloc, groups, starts.as_slice())?;
    Ok(Measured {
        reaction,
        age,
        reduced,
        forward,
        backward,
    })
}

/// Measures a chain of the model in a run: finds the longest complete chain of each kind, and
/// counts the complete chains. A kind has no longest chain exactly where the run has no complete
/// chain of it.
///
/// The run is in form, and in order: each execution time of the tasks of the chain's groups is 1
/// tick or more, and the arrivals of each such task rise. It need not be legal. `NoMemory` comes
/// where there is no memory for the moments of the chain's groups or for the chains; it leaves
/// nothing. Takes time linear in the stretches of the run, its numbers of tasks and cores, and, for
/// each group of the chain, the execution times of the jobs of its task, whatever the number of
/// ticks.
pub fn measure(
    alloc: Global,
    model: &ValidModel,
    run: &RunData,
    chain: u32,
) -> Result<Measured, NoMemory>
    requires is_chain { chain < length model.now.chains }
    requires in_form { IsInForm (system_of model.now) run.now }
    requires ordered { AreGroupsInOrder (groups_at model.now chain) run.now }
    ensures { IfOk result (λ measured.
        IsMeasured (run_moments (system_of model.now) run.now) (groups_at model.now chain) (measured_of measured)) }
{
    let apart = tasks_apart(alloc, model, run)?;
    measure_apart(alloc, model, run, &apart, chain)
}

/// Measures a chain of the model in a run as `measure` does, for the same runs and with the same
/// errors. `apart` has a list of entries for each task, as `tasks_apart` returns it.
///
/// Takes time linear, for each group of the chain, in the stretches of the list of its task and the
/// execution times of the jobs of that task.
pub fn measure_apart(
    alloc: Global,
    model: &ValidModel,
    run: &RunData,
    apart: &RunData,
    chain: u32,
) -> Result<Measured, NoMemory>
    requires is_chain { chain < length model.now.chains }
    requires in_form { IsInForm (system_of model.now) run.now }
    requires ordered { AreGroupsInOrder (groups_at model.now chain) run.now }
    requires apart { StandApart (system_of model.now) run.now apart.now }
    ensures { IfOk result (λ measured.
        IsMeasured (run_moments (system_of model.now) run.now) (groups_at model.now chain) (measured_of measured)) }
{
    let groups = moments_of_groups_apart(alloc, model, run, apart, chain)?;
    measured_over(alloc, groups.as_slice())
}
