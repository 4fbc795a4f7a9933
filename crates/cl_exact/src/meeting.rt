//! Searches over the chains of many first jobs, which meet in the jobs of a slower group. Times are
//! in ticks.
ghost use Rattle.std.specs.Prelude.{◌≡◌, ℕ, ◌+◌, ◌≤◌, ◌<◌, length, MatchOption, IfSome};
ghost use Rattle.cl_exact.specs.Inner.{Beats.{AreBeats, beat_in, read_at, forward_job, reaction_of}, Blocks.{EARLY, IsEarlyBlock}, Scans.{IsGreatestOf, IsFirstWith, NoneHas, FallsUpTo}};

use crate::beat::Beat;
use crate::scan::{Greatest, first_in_blocks, greatest_in_blocks};
use crate::walk::forward_jobs;

/// The least ratio of a group's period to that of the first group at which the group counts as much
/// slower and its jobs are looked at one by one.
const MUCH_SLOWER: u64 = 16;

/// The forward chain from a first job: its reaction, and the next first job whose chain doesn't
/// meet it in a slower group.
#[derive(Clone, Copy)]
struct Chain {
    reaction: u64,
    next: u64,
}

/// Finds the place of the slowest group.
fn slowest(beats: &[Beat]) -> usize
    requires { AreBeats beats.now }
    ensures { result < length beats.now }
{
    let mut slowest = 0;
    for (place, beat) in beats.iter().enumerate() {
        if beat.period > beats[slowest].period {
            slowest = place;
        }
    }
    slowest
}

/// Finds the last of the first jobs whose chains lead to `job` of the group at `place`, or to an
/// earlier one there. The chain of `first` leads to `job`.
fn last_leading(beats: &[Beat], first: u64, place: usize, job: u64) -> u64
    requires beats { AreBeats beats.now }
    requires place { place < length beats.now }
    requires job { job ≡ forward_job beats.now first place }
    requires early { read_at (beat_in beats.now 0) first ≤ EARLY }
    ensures not_before { first ≤ result }
    ensures lead { (other : ℕ) → other ≤ result → forward_job beats.now other place ≤ job }
    ensures small { result ≤ EARLY + EARLY }
{
    let mut at = place;
    let mut last = job;
    while at > 0 {
        let read = beats[at].read(last);
        at -= 1;
        last = beats[at].last_writer(read);
    }
    last
}

/// Finds the chain of a first job. The chains of the first jobs after it that meet it at `place`
/// end with it and begin later, so each has a smaller reaction.
fn chain_of(beats: &[Beat], place: usize, first: u64) -> Chain
    requires beats { AreBeats beats.now }
    requires place { place < length beats.now }
    requires some { 1 ≤ first }
    requires early { read_at (beat_in beats.now 0) first ≤ EARLY }
    ensures reaction { result.reaction ≡ reaction_of beats.now first }
    ensures next { first < result.next }
    ensures falls { FallsUpTo beats.now first result.next }
{
    let numbers = forward_jobs(beats, first);
    let jobs = numbers.as_slice();
    let last = beats.len() - 1;
    let end = beats[last].write(jobs[last]);
    Chain {
        reaction: end - beats[0].read(first - 1),
        next: last_leading(beats, first, place, jobs[place]) + 1,
    }
}

/// Finds the greatest reaction of `count` first jobs from `first` on, and the first of them that
/// has it, by the jobs of the group at `place`.
fn greatest_by_meetings(beats: &[Beat], place: usize, first: u64, count: u64) -> Greatest
    requires beats { AreBeats beats.now }
    requires place { place < length beats.now }
    requires some { 1 ≤ first }
    requires early { IsEarlyBlock beats.now first count }
    ensures { IsGreatestOf beats.now first count result }
{
    let end = first + count;
    let mut greatest = Greatest {
        reaction: 0,
        job: first,
    };
    let mut job = first;
    while job < end {
        let chain = chain_of(beats, place, job);
        if chain.reaction > greatest.reaction {
            greatest = Greatest {
                reaction: chain.reaction,
                job,
            };
        }
        job = chain.next;
    }
    greatest
}

/// Finds the first of `count` first jobs from `first` on that has a reaction, by the jobs of the
/// group at `place`.
fn first_by_meetings(
    beats: &[Beat],
    place: usize,
    first: u64,
    count: u64,
    reaction: u64,
) -> Option<u64>
    requires beats { AreBeats beats.now }
    requires place { place < length beats.now }
    requires some { 1 ≤ first }
    requires early { IsEarlyBlock beats.now first count }
    requires none_greater { (job : ℕ) → first ≤ job → reaction_of beats.now job ≤ reaction }
    ensures { MatchOption result (NoneHas beats.now first count reaction)
        (λ job. IsFirstWith beats.now first count reaction job) }
{
    let end = first + count;
    let mut job = first;
    while job < end {
        let chain = chain_of(beats, place, job);
        if chain.reaction == reaction {
            return Some(job);
        }
        job = chain.next;
    }
    None
}

/// Checks whether a group is much slower than another.
fn is_much_slower(beat: &Beat, other: &Beat) -> bool {
    beat.period / MUCH_SLOWER >= other.period
}

/// Counts the groups before the first that is much slower than the first group.
pub(crate) fn even_count(beats: &[Beat]) -> usize
    requires { AreBeats beats.now }
    ensures { result ≤ length beats.now }
{
    for place in 0..beats.len() {
        if is_much_slower(&beats[place], &beats[0]) {
            return place;
        }
    }
    beats.len()
}

/// Finds the place of the slowest group, if it is much slower than the first.
fn much_slower(beats: &[Beat]) -> Option<usize>
    requires { AreBeats beats.now }
    ensures { IfSome result (λ place. place < length beats.now) }
{
    let place = slowest(beats);
    if is_much_slower(&beats[place], &beats[0]) {
        Some(place)
    } else {
        None
    }
}

/// Finds the greatest reaction of `count` first jobs from `first` on, and the first of them that
/// has it.
pub(crate) fn greatest_reaction(beats: &[Beat], first: u64, count: u64) -> Greatest
    requires beats { AreBeats beats.now }
    requires some { 1 ≤ first }
    requires early { IsEarlyBlock beats.now first count }
    ensures { IsGreatestOf beats.now first count result }
{
    match much_slower(beats) {
        Some(place) => greatest_by_meetings(beats, place, first, count),
        None => greatest_in_blocks(beats, first, count),
    }
}

/// Finds the first of `count` first jobs from `first` on that has a reaction, where none has a
/// greater one.
pub(crate) fn first_with(beats: &[Beat], first: u64, count: u64, reaction: u64) -> Option<u64>
    requires beats { AreBeats beats.now }
    requires some { 1 ≤ first }
    requires early { IsEarlyBlock beats.now first count }
    requires none_greater { (job : ℕ) → first ≤ job → reaction_of beats.now job ≤ reaction }
    ensures { MatchOption result (NoneHas beats.now first count reaction)
        (λ job. IsFirstWith beats.now first count reaction job) }
{
    match much_slower(beats) {
        Some(place) => first_by_meetings(beats, place, first, count, reaction),
        None => first_in_blocks(beats, first, count, reaction),
    }
}
