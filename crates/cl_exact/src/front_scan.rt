//! The greatest reactions of the front parts of a chain, all in one scan over first jobs. Times are
//! in ticks.
ghost use Rattle.std.specs.Prelude.{◌≡◌, ◌⊎◌, ℕ, ◌+◌, ◌≤◌, ◌<◌, length, slice_index, EachIndex, SomeIndex};
ghost use Rattle.cl_lanes.specs.Gaps.{HasGap};
ghost use Rattle.cl_model.specs.declared.limits.TheConstants.{MOST_STEPS};
ghost use Rattle.cl_exact.specs.Inner.{Beats.AreBeats, Blocks.IsEarlyBlock, Fronts.AreGreatestTo};

use crate::beat::Beat;
use crate::block::{fill_starts, fill_writes};
use crate::hop::hop;
use crate::scan::BLOCK;
use cl_lanes::greatest_gap;
use cl_model::MOST_STEPS;

/// Returns the greatest gap of a block or, where that is greater, the length so far.
fn raised(so_far: u64, ends: &[u64], starts: &[u64]) -> u64
    requires as_many { length ends.now ≡ length starts.now }
    requires in_order { EachIndex ends.now
        (λ i. slice_index starts.now i ≤ slice_index ends.now i) }
    ensures not_less { so_far ≤ result }
    ensures above { EachIndex ends.now
        (λ i. slice_index ends.now i ≤ slice_index starts.now i + result) }
    ensures one_of { (result ≡ so_far) ⊎ SomeIndex ends.now (HasGap ends.now starts.now result) }
{
    match greatest_gap(ends, starts) {
        Some(gap) => so_far.max(gap),
        None => so_far,
    }
}

/// Raises the greatest reactions of the front parts of up to `size` groups by those of a block of
/// chains, as many as `ends` and `starts` have room for. Each chain goes on from group to group,
/// and its length so far is its reaction there.
fn raise_by_block(
    beats: &[Beat],
    size: usize,
    first: u64,
    ends: &mut [u64],
    starts: &mut [u64],
    greatest: &mut [u64],
)
    requires beats { AreBeats beats.now }
    requires some_groups { 1 ≤ size }
    requires size { size ≤ length beats.now }
    requires some { 1 ≤ first }
    requires as_many { length ends.old ≡ length starts.old }
    requires early { IsEarlyBlock beats.now first (length ends.old) }
    requires room { size ≤ length greatest.old }
    ensures { (from : ℕ) → from ≤ first → AreGreatestTo beats.now size from first greatest.old
        → AreGreatestTo beats.now size from (first + length ends.old) greatest.new }
{
    fill_starts(beats, first, starts);
    fill_writes(beats, first, ends);
    greatest[0] = raised(greatest[0], ends, starts);
    for i in 1..size {
        hop(ends, &beats[i]);
        greatest[i] = raised(greatest[i], ends, starts);
    }
}

/// Finds the greatest reactions of the front parts of up to `size` groups, over `count` first jobs
/// from `first` on.
pub(crate) fn greatest_of_fronts(
    beats: &[Beat],
    size: usize,
    first: u64,
    count: u64,
) -> [u64; MOST_STEPS]
    requires beats { AreBeats beats.now }
    requires some_groups { 1 ≤ size }
    requires size { size ≤ length beats.now }
    requires some { 1 ≤ first }
    requires early { IsEarlyBlock beats.now first count }
    ensures { AreGreatestTo beats.now size first (first + count) result }
{
    let mut ends = [0; BLOCK as usize];
    let mut starts = [0; BLOCK as usize];
    let mut greatest = [0; MOST_STEPS];
    let mut done = 0;
    while done < count {
        let block = (count - done).min(BLOCK) as usize;
        raise_by_block(
            beats,
            size,
            first + done,
            &mut ends[..block],
            &mut starts[..block],
            &mut greatest,
        );
        done += block as u64;
    }
    greatest
}
