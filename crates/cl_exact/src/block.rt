//! The job chains of many first jobs at once. Times are in ticks.
ghost use Rattle.std.specs.Prelude.{◌+◌, ◌*◌, ◌^◌, ◌≤◌, ◌<◌, length};
ghost use Rattle.cl_exact.specs.Inner.{Beats.AreBeats, Blocks.{AreSteps, AreWrites, AreStarts, AreEnds, IsEarlyBlock}};

use crate::beat::Beat;
use crate::hop::hop;

/// Fills in moments a period apart, from `start` on.
fn fill_steps(start: u64, period: u64, moments: &mut [u64])
    requires { start + length moments.old * period < 2 ^ 64 }
    ensures { AreSteps moments.new start period }
{
    for i in 0..moments.len() {
        moments[i] = start + i as u64 * period;
    }
}

/// Fills in the moments from which the chains of the first jobs from `first` on last: the reads of
/// the jobs before them.
pub(crate) fn fill_starts(beats: &[Beat], first: u64, starts: &mut [u64])
    requires beats { AreBeats beats.now }
    requires some { 1 ≤ first }
    requires early { IsEarlyBlock beats.now first (length starts.old) }
    ensures { AreStarts beats.now first starts.new }
{
    let beat = &beats[0];
    fill_steps(beat.read(first - 1), beat.period, starts);
}

/// Fills in the writes of the first jobs from `first` on.
pub(crate) fn fill_writes(beats: &[Beat], first: u64, writes: &mut [u64])
    requires beats { AreBeats beats.now }
    requires early { IsEarlyBlock beats.now first (length writes.old) }
    ensures { AreWrites beats.now 0 first writes.new }
{
    let beat = &beats[0];
    fill_steps(beat.write(first), beat.period, writes);
}

/// Fills in the moments to which the chains of the first jobs from `first` on last: the writes of
/// their last jobs.
pub(crate) fn fill_ends(beats: &[Beat], first: u64, ends: &mut [u64])
    requires beats { AreBeats beats.now }
    requires early { IsEarlyBlock beats.now first (length ends.old) }
    ensures { AreEnds beats.now first ends.new }
{
    fill_writes(beats, first, ends);
    for i in 1..beats.len() {
        hop(ends, &beats[i]);
    }
}
