//! Backward chains to a given job, over the moments of groups.
ghost use Rattle.std.specs.Prelude.{◌≡◌, ℕ, ◌+◌, ◌-◌, ◌<◌, List, length, slice_index, Some, MatchOption, IfOk};
ghost use Rattle.cl_runs.specs.Chains.{last_job};
ghost use Rattle.cl_check.specs.JobMoments.{IsMomentOf};
ghost use Rattle.cl_chain.specs.{JobChains.{option_of, IsChainOf}, Inner.{GroupTables.{moment_at, NeverFall, writes_in}, Hops.{IsBackwardHop, IsNextWrite}, ChainsOver.{AreBackwardJobs, IsBackwardTo, IsTheChain, IsAgeOver, IsReducedOver}}};

use crate::group_moments::GroupMoments;
use crate::hops::{Writers, moment_at};
use crate::job_chain::JobChain;
use cl_model::List;
use cl_time::NoMemory;
use std::alloc::Global;

/// Finds the latest writer for a job, if there is one.
fn writer_of(writes: &[Option<u64>], reads: &[Option<u64>], job: usize) -> Option<usize>
    requires { NeverFall writes.now }
    ensures { IsMomentOf (λ writer. IsBackwardHop writes.now reads.now writer job) result }
{
    let read = moment_at(reads, job)?;
    Writers::new().latest_writer(writes, read)
}

/// Copies a slice of numbers into a list.
fn list_of(alloc: Global, numbers: &[u64]) -> Result<List<u64>, NoMemory>
    ensures { IfOk result (λ list. list ≡ numbers.now) }
{
    let mut list = List::new(alloc);
    for number in numbers {
        list.push(*number)?;
    }
    Ok(list)
}

/// Finds the jobs that are linked backward to a job of the last group, one for each group, if there
/// are such jobs.
fn backward_jobs(
    alloc: Global,
    groups: &[GroupMoments],
    last: u64,
) -> Result<Option<List<u64>>, NoMemory>
    requires some { 0 < length groups.now }
    requires order { (i : ℕ) → i < length groups.now → NeverFall (writes_in groups.now i) }
    ensures { IfOk result (λ found. MatchOption found
        ((jobs : List ℕ) → AreBackwardJobs groups.now (length groups.now) jobs
        → slice_index jobs (length groups.now - 1) ≡ last → ⊥)
        (λ jobs. AreBackwardJobs groups.now (length groups.now) jobs
        × (slice_index jobs (length groups.now - 1) ≡ last))) }
{
    let mut jobs = vec![in alloc; 0; groups.len()]?;
    let mut place = groups.len() - 1;
    let mut job = last;
    jobs[place] = job;
    while place > 0 {
        let reads = groups[place].reads.as_slice();
        place -= 1;
        let Some(writer) = writer_of(groups[place].writes.as_slice(), reads, job as usize) else {
            return Ok(None);
        };
        job = writer as u64;
        jobs[place] = job;
    }
    let list = list_of(alloc, jobs.as_slice())?;
    Ok(Some(list))
}

/// Returns the writes of a job and of the job after it, if both are there.
pub(crate) fn next_write(writes: &[Option<u64>], job: usize) -> Option<(u64, u64)>
    ensures { MatchOption result ((write next : ℕ) → IsNextWrite writes.now job write next → ⊥)
        (λ found. IsNextWrite writes.now job found.0 found.1) }
{
    let write = moment_at(writes, job)?;
    let next = moment_at(writes, job + 1)?;
    Some((write, next))
}

/// Finds the chain that is linked backward to a job of the last group and lasts from its first read
/// to a given moment, if there is one.
fn backward_to(
    alloc: Global,
    groups: &[GroupMoments],
    last: u64,
    to: u64,
) -> Result<Option<JobChain>, NoMemory>
    requires some { 0 < length groups.now }
    requires order { (i : ℕ) → i < length groups.now → NeverFall (writes_in groups.now i) }
    ensures { IfOk result
        (λ found. IsTheChain (IsBackwardTo groups.now last to) (option_of found)) }
{
    let Some(jobs) = backward_jobs(alloc, groups, last)? else {
        return Ok(None);
    };
    match moment_at(groups[0].reads.as_slice(), jobs.as_slice()[0] as usize) {
        Some(from) => Ok(Some(JobChain { from, to, jobs })),
        None => Ok(None),
    }
}

/// Finds the complete backward chain whose last job is `last`, to the write of the job after it, if
/// there is one.
pub(crate) fn age_over(
    alloc: Global,
    groups: &[GroupMoments],
    last: u64,
) -> Result<Option<JobChain>, NoMemory>
    requires some { 0 < length groups.now }
    requires order { (i : ℕ) → i < length groups.now → NeverFall (writes_in groups.now i) }
    ensures { IfOk result
        (λ found. IsChainOf (IsAgeOver groups.now) last_job last (option_of found)) }
{
    let writes = groups[groups.len() - 1].writes.as_slice();
    match next_write(writes, last as usize) {
        Some((_, next)) => backward_to(alloc, groups, last, next),
        None => Ok(None),
    }
}

/// Finds the complete backward chain whose last job is `last`, to the write of that job, if there
/// is one.
pub(crate) fn reduced_over(
    alloc: Global,
    groups: &[GroupMoments],
    last: u64,
) -> Result<Option<JobChain>, NoMemory>
    requires some { 0 < length groups.now }
    requires order { (i : ℕ) → i < length groups.now → NeverFall (writes_in groups.now i) }
    ensures { IfOk result
        (λ found. IsChainOf (IsReducedOver groups.now) last_job last (option_of found)) }
{
    let writes = groups[groups.len() - 1].writes.as_slice();
    match next_write(writes, last as usize) {
        Some((write, _)) => backward_to(alloc, groups, last, write),
        None => Ok(None),
    }
}
