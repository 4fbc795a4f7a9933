//! Searches over the chains of many first jobs, in blocks. Times are in ticks.
ghost use Rattle.std.specs.Prelude.{◌≡◌, ◌+◌, ◌≤◌, ◌<◌, length, MatchOption};
ghost use Rattle.cl_exact.specs.Inner.{Beats.AreBeats, Blocks.IsEarlyBlock, Scans.{IsGreatestOf, IsFirstWith, NoneHas}};

use crate::beat::Beat;
use crate::block::{fill_ends, fill_starts};
use cl_lanes::{first_gap, greatest_gap};

/// How many first jobs are looked at together.
pub(crate) const BLOCK: u64 = 1_024;

/// The greatest reaction of some first jobs, and the first of them that has it.
#[derive(Clone, Copy)]
pub(crate) struct Greatest {
    pub(crate) reaction: u64,
    pub(crate) job: u64,
}

/// Finds the greatest reaction with one more block: that of as many chains as `ends` and `starts`
/// have room for.
fn with_block(
    beats: &[Beat],
    first: u64,
    done: u64,
    ends: &mut [u64],
    starts: &mut [u64],
    so_far: Greatest,
) -> Greatest
    requires beats { AreBeats beats.now }
    requires some { 1 ≤ first }
    requires as_many { length ends.old ≡ length starts.old }
    requires early { IsEarlyBlock beats.now (first + done) (length ends.old) }
    requires so_far { IsGreatestOf beats.now first done so_far }
    ensures { IsGreatestOf beats.now first (done + length ends.old) result }
{
    let start = first + done;
    fill_ends(beats, start, ends);
    fill_starts(beats, start, starts);
    let Some(reaction) = greatest_gap(ends, starts) else {
        return so_far;
    };
    if reaction <= so_far.reaction && done > 0 {
        return so_far;
    }
    match first_gap(ends, starts, reaction) {
        Some(place) => Greatest {
            reaction,
            job: start + place as u64,
        },
        None => unreachable!(),
    }
}

/// Finds the greatest reaction of `count` first jobs from `first` on, and the first of them that
/// has it: in blocks, whatever the periods are.
pub(crate) fn greatest_in_blocks(beats: &[Beat], first: u64, count: u64) -> Greatest
    requires beats { AreBeats beats.now }
    requires some { 1 ≤ first }
    requires early { IsEarlyBlock beats.now first count }
    ensures { IsGreatestOf beats.now first count result }
{
    let mut ends = [0; BLOCK as usize];
    let mut starts = [0; BLOCK as usize];
    let mut greatest = Greatest {
        reaction: 0,
        job: first,
    };
    let mut done = 0;
    while done < count {
        let size = (count - done).min(BLOCK) as usize;
        greatest = with_block(
            beats,
            first,
            done,
            &mut ends[..size],
            &mut starts[..size],
            greatest,
        );
        done += size as u64;
    }
    greatest
}

/// Finds the first of the first jobs of a block that has a reaction.
fn first_in_block(
    beats: &[Beat],
    first: u64,
    ends: &mut [u64],
    starts: &mut [u64],
    reaction: u64,
) -> Option<u64>
    requires beats { AreBeats beats.now }
    requires some { 1 ≤ first }
    requires as_many { length ends.old ≡ length starts.old }
    requires early { IsEarlyBlock beats.now first (length ends.old) }
    ensures { MatchOption result (NoneHas beats.now first (length ends.old) reaction)
        (λ job. IsFirstWith beats.now first (length ends.old) reaction job) }
{
    fill_ends(beats, first, ends);
    fill_starts(beats, first, starts);
    match first_gap(ends, starts, reaction) {
        Some(place) => Some(first + place as u64),
        None => None,
    }
}

/// Finds the first of `count` first jobs from `first` on that has a reaction: in blocks, whatever
/// the periods are.
pub(crate) fn first_in_blocks(beats: &[Beat], first: u64, count: u64, reaction: u64) -> Option<u64>
    requires beats { AreBeats beats.now }
    requires some { 1 ≤ first }
    requires early { IsEarlyBlock beats.now first count }
    ensures { MatchOption result (NoneHas beats.now first count reaction)
        (λ job. IsFirstWith beats.now first count reaction job) }
{
    let mut ends = [0; BLOCK as usize];
    let mut starts = [0; BLOCK as usize];
    let mut done = 0;
    while done < count {
        let size = (count - done).min(BLOCK) as usize;
        let found = first_in_block(
            beats,
            first + done,
            &mut ends[..size],
            &mut starts[..size],
            reaction,
        );
        if found.is_some() {
            return found;
        }
        done += size as u64;
    }
    None
}
