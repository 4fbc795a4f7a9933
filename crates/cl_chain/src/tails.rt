//! Where the forward chains from each job end, found from the last group to the first. Moments are
//! in ticks.
ghost use Rattle.std.specs.Prelude.{ℕ, ◌+◌, ◌<◌, length, IfOk};
ghost use Rattle.cl_check.specs.JobMoments.{IsMomentOf};
ghost use Rattle.cl_chain.specs.Inner.{GroupTables.{AreMomentsAt, NeverFall, writes_in}, Hops.{IsWrite, GoesOnTo, AreBeforeWrites}, ChainsOver.IsTail};

use crate::group_moments::GroupMoments;
use crate::hops::{earliest_reader, moment_at, write_of};
use cl_model::List;
use cl_time::NoMemory;
use std::alloc::Global;

/// Lists the tails of the last group: its writes, without that of job 0.
fn last_tails(alloc: Global, writes: &[Option<u64>]) -> Result<List<Option<u64>>, NoMemory>
    ensures { IfOk result (AreMomentsAt (IsWrite writes.now)) }
{
    let mut tails = List::with_room(alloc, writes.len())?;
    for job in 0..writes.len() {
        tails.push(write_of(writes, job))?;
    }
    Ok(tails)
}

/// Finds where the forward chain from a job ends, by the tails of the next group. The jobs of that
/// group below `next` read before each write of this job and the later ones; afterwards those below
/// the new `next` do so for the later jobs.
fn tail_of(
    writes: &[Option<u64>],
    reads: &[Option<u64>],
    tails: &[Option<u64>],
    job: usize,
    next: &mut usize,
) -> Option<u64>
    requires order { NeverFall writes.now }
    requires before { AreBeforeWrites reads.now writes.now next.old job }
    ensures before { AreBeforeWrites reads.now writes.now next.new (job + 1) }
    ensures tail { IsMomentOf (GoesOnTo writes.now reads.now tails.now job) result }
{
    let write = write_of(writes, job)?;
    match earliest_reader(reads, *next, write) {
        Some(reader) => {
            *next = reader;
            moment_at(tails, reader)
        }
        None => {
            *next = reads.len();
            None
        }
    }
}

/// Finds the tails of a group from those of the next one, in one walk over both.
fn tails_before(
    alloc: Global,
    writes: &[Option<u64>],
    reads: &[Option<u64>],
    tails: &[Option<u64>],
) -> Result<List<Option<u64>>, NoMemory>
    requires { NeverFall writes.now }
    ensures { IfOk result (AreMomentsAt (GoesOnTo writes.now reads.now tails.now)) }
{
    let mut found = List::with_room(alloc, writes.len())?;
    let mut next = 0;
    for job in 0..writes.len() {
        let tail = tail_of(writes, reads, tails, job, &mut next);
        found.push(tail)?;
    }
    Ok(found)
}

/// Finds for each job of the first group where the forward chain from it ends, if there is one.
pub(crate) fn tails(alloc: Global, groups: &[GroupMoments]) -> Result<List<Option<u64>>, NoMemory>
    requires some { 0 < length groups.now }
    requires order { (i : ℕ) → i < length groups.now → NeverFall (writes_in groups.now i) }
    ensures { IfOk result (AreMomentsAt (IsTail groups.now)) }
{
    let mut place = groups.len() - 1;
    let mut found = last_tails(alloc, groups[place].writes.as_slice())?;
    while place > 0 {
        place -= 1;
        let writes = groups[place].writes.as_slice();
        let reads = groups[place + 1].reads.as_slice();
        found = tails_before(alloc, writes, reads, found.as_slice())?;
    }
    Ok(found)
}
