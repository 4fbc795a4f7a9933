//! Where the backward chains to each job begin, found from the first group to the last. Moments are
//! in ticks.
ghost use Rattle.std.specs.Prelude.{◌≡◌, ℕ, ◌+◌, ◌-◌, ◌<◌, length, IfOk};
ghost use Rattle.cl_check.specs.JobMoments.{IsMomentOf};
ghost use Rattle.cl_chain.specs.Inner.{GroupTables.{AreMomentsAt, NeverFall, reads_in, writes_in}, Hops.{GoesOnFrom, ArePassedFrom}, ChainsOver.IsHead};

use crate::group_moments::GroupMoments;
use crate::hops::{Writers, moment_at};
use cl_model::List;
use cl_time::NoMemory;
use std::alloc::Global;

/// Finds where the backward chain to a job begins, by the heads of the group before. The jobs that
/// `writers` has passed write at or before each read of this job and the later ones; afterwards
/// they do so for the later jobs.
fn head_of(
    writes: &[Option<u64>],
    reads: &[Option<u64>],
    heads: &[Option<u64>],
    job: usize,
    writers: &mut Writers,
) -> Option<u64>
    requires writes { NeverFall writes.now }
    requires reads { NeverFall reads.now }
    requires passed { ArePassedFrom writes.now reads.now writers.old job }
    ensures passed { ArePassedFrom writes.now reads.now writers.new (job + 1) }
    ensures head { IsMomentOf (GoesOnFrom writes.now reads.now heads.now job) result }
{
    let read = moment_at(reads, job)?;
    let writer = writers.latest_writer(writes, read)?;
    moment_at(heads, writer)
}

/// Finds the heads of a group from those of the group before it, in one walk over both.
fn heads_after(
    alloc: Global,
    writes: &[Option<u64>],
    reads: &[Option<u64>],
    heads: &[Option<u64>],
) -> Result<List<Option<u64>>, NoMemory>
    requires writes { NeverFall writes.now }
    requires reads { NeverFall reads.now }
    ensures { IfOk result (AreMomentsAt (GoesOnFrom writes.now reads.now heads.now)) }
{
    let mut found = List::with_room(alloc, reads.len())?;
    let mut writers = Writers::new();
    for job in 0..reads.len() {
        let head = head_of(writes, reads, heads, job, &mut writers);
        found.push(head)?;
    }
    Ok(found)
}

/// Copies the reads of the first group as its heads.
fn first_heads(alloc: Global, reads: &[Option<u64>]) -> Result<List<Option<u64>>, NoMemory>
    ensures { IfOk result (λ heads. heads ≡ reads.now) }
{
    let mut heads = List::with_room(alloc, reads.len())?;
    for read in reads {
        heads.push(*read)?;
    }
    Ok(heads)
}

/// Finds for each job of the last group where the backward chain to it begins, if there is one.
pub(crate) fn heads(alloc: Global, groups: &[GroupMoments]) -> Result<List<Option<u64>>, NoMemory>
    requires some { 0 < length groups.now }
    requires writes { (i : ℕ) → i < length groups.now → NeverFall (writes_in groups.now i) }
    requires reads { (i : ℕ) → i < length groups.now → NeverFall (reads_in groups.now i) }
    ensures { IfOk result (AreMomentsAt (IsHead groups.now (length groups.now - 1))) }
{
    let mut found = first_heads(alloc, groups[0].reads.as_slice())?;
    for place in 1..groups.len() {
        let writes = groups[place - 1].writes.as_slice();
        let reads = groups[place].reads.as_slice();
        found = heads_after(alloc, writes, reads, found.as_slice())?;
    }
    Ok(found)
}
