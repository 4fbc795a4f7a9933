//! Forward chains from a given job, over the moments of groups.
ghost use Rattle.std.specs.Prelude.{◌≡◌, ℕ, ◌<◌, length, MatchOption, IfOk};
ghost use Rattle.cl_runs.specs.Chains.{first_job};
ghost use Rattle.cl_chain.specs.{JobChains.{option_of, IsChainOf}, Inner.{Hops.{IsFirstReader, IsWrite}, ChainsOver.IsForwardOver}};

use crate::group_moments::GroupMoments;
use crate::hops::{earliest_reader, moment_at, write_of};
use crate::job_chain::JobChain;
use cl_model::List;
use cl_time::NoMemory;
use std::alloc::Global;

/// Finds the earliest reader of a write, with its own write, if both are there.
fn reader_of(group: &GroupMoments, write: u64) -> Option<(usize, u64)>
    ensures { MatchOption result
        ((reader to : ℕ) → IsFirstReader group.now.reads write reader
        → IsWrite group.now.writes reader to → ⊥)
        (λ found. IsFirstReader group.now.reads write found.0
        × IsWrite group.now.writes found.0 found.1) }
{
    let reader = earliest_reader(group.reads.as_slice(), 0, write)?;
    let to = write_of(group.writes.as_slice(), reader)?;
    Some((reader, to))
}

/// Finds the complete forward chain whose first job is `first`, if there is one.
pub(crate) fn forward_over(
    alloc: Global,
    groups: &[GroupMoments],
    first: u64,
) -> Result<Option<JobChain>, NoMemory>
    requires { 0 < length groups.now }
    ensures { IfOk result
        (λ found. IsChainOf (IsForwardOver groups.now) first_job first (option_of found)) }
{
    let Some(mut write) = write_of(groups[0].writes.as_slice(), first as usize) else {
        return Ok(None);
    };
    let Some(from) = moment_at(groups[0].reads.as_slice(), first as usize - 1) else {
        return Ok(None);
    };
    let mut jobs = List::new(alloc);
    jobs.push(first)?;
    for place in 1..groups.len() {
        let Some((reader, to)) = reader_of(&groups[place], write) else {
            return Ok(None);
        };
        jobs.push(reader as u64)?;
        write = to;
    }
    Ok(Some(JobChain {
        from,
        to: write,
        jobs,
    }))
}
