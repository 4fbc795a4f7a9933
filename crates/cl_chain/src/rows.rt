//! Rows of starts and ends, and the longest of them. Moments are in ticks.
ghost use Rattle.std.specs.Prelude.{◌≡◌, ◌↔◌, ◌+◌, ◌<◌, ◌≤◌, length, slice_index, EachIndex, IsTrue, MatchOption, IfOk, OnOk};
ghost use Rattle.cl_chain.specs.Inner.Rows.{AreRowsBelow, AreRows, IsLongestRow, LastsLonger, IsGreatestRow};

use crate::hops::moment_at;
use cl_lanes::{first_gap, greatest_gap};
use cl_model::List;
use cl_time::NoMemory;
use std::alloc::Global;

/// The jobs that have both a start and an end, in order, with both.
#[derive(Drop)]
pub(crate) struct Rows {
    pub(crate) jobs: List<u64>,
    pub(crate) starts: List<u64>,
    pub(crate) ends: List<u64>,
}

/// Appends the row of a job, if it has both a start and an end.
fn add_row(
    rows: &mut Rows,
    starts: &[Option<u64>],
    ends: &[Option<u64>],
    job: usize,
) -> Result<(), NoMemory>
    requires { AreRowsBelow job starts.now ends.now rows.old.jobs rows.old.starts rows.old.ends }
    ensures { OnOk result
        (AreRowsBelow (job + 1) starts.now ends.now rows.new.jobs rows.new.starts rows.new.ends) }
{
    let Some(start) = moment_at(starts, job) else {
        return Ok(());
    };
    let Some(end) = moment_at(ends, job) else {
        return Ok(());
    };
    rows.jobs.push(job as u64)?;
    rows.starts.push(start)?;
    rows.ends.push(end)?;
    Ok(())
}

/// Lists the rows of the jobs that have a moment in both lists.
pub(crate) fn rows_of(
    alloc: Global,
    starts: &[Option<u64>],
    ends: &[Option<u64>],
) -> Result<Rows, NoMemory>
    ensures { IfOk result (AreRows starts.now ends.now) }
{
    let mut rows = Rows {
        jobs: List::with_room(alloc, ends.len())?,
        starts: List::with_room(alloc, ends.len())?,
        ends: List::with_room(alloc, ends.len())?,
    };
    for job in 0..ends.len() {
        add_row(&mut rows, starts, ends, job)?;
    }
    Ok(rows)
}

/// Finds the index of the first of the longest rows. Returns `None` exactly where there is no row.
pub(crate) fn longest(rows: &Rows) -> Option<usize>
    requires starts { length rows.now.starts ≡ length rows.now.jobs }
    requires ends { length rows.now.ends ≡ length rows.now.jobs }
    requires in_order { EachIndex rows.now.ends
        (λ i. slice_index rows.now.starts i ≤ slice_index rows.now.ends i) }
    ensures { MatchOption result (length rows.now.jobs ≡ 0) (IsLongestRow rows.now) }
{
    let starts = rows.starts.as_slice();
    let ends = rows.ends.as_slice();
    let gap = greatest_gap(ends, starts)?;
    first_gap(ends, starts, gap)
}

/// Checks whether one row lasts longer than another. A row that ends before it starts lasts the less
/// the further its end lies before its start.
fn lasts_longer(rows: &Rows, one: usize, other: usize) -> bool
    requires one_starts { one < length rows.now.starts }
    requires one_ends { one < length rows.now.ends }
    requires other_starts { other < length rows.now.starts }
    requires other_ends { other < length rows.now.ends }
    ensures { IsTrue result ↔ LastsLonger rows.now one other }
{
    let starts = rows.starts.as_slice();
    let ends = rows.ends.as_slice();
    u128::from(ends[one]) + u128::from(starts[other])
        > u128::from(ends[other]) + u128::from(starts[one])
}

/// Finds the index of the first of the rows that last longest, where rows may end before they start.
/// Returns `None` exactly where there is no row.
pub(crate) fn greatest(rows: &Rows) -> Option<usize>
    requires starts { length rows.now.starts ≡ length rows.now.jobs }
    requires ends { length rows.now.ends ≡ length rows.now.jobs }
    ensures { MatchOption result (length rows.now.jobs ≡ 0) (IsGreatestRow rows.now) }
{
    let count = rows.jobs.len();
    if count == 0 {
        return None;
    }
    let mut best = 0;
    for place in 1..count {
        if lasts_longer(rows, place, best) {
            best = place;
        }
    }
    Some(best)
}
