//! Job chains from one group to the next. Times are in ticks.
ghost use Rattle.std.specs.Prelude.{◌≡◌, ◌≤◌, length};
ghost use Rattle.cl_exact.specs.Inner.{Beats.{AreBeats, beat_in, read_at}, Blocks.EARLY, Walks.{IsForwardWalk, IsBackwardWalk, start_up_of}, Found.last_beat};

use crate::beat::Beat;
use crate::job_numbers::JobNumbers;
use cl_model::MOST_STEPS;

/// Finds the jobs of the forward chain from a first job.
pub(crate) fn forward_jobs(beats: &[Beat], first: u64) -> JobNumbers
    requires beats { AreBeats beats.now }
    requires early { read_at (beat_in beats.now 0) first ≤ EARLY }
    ensures { IsForwardWalk beats.now first result }
{
    let mut jobs = [0; MOST_STEPS];
    jobs[0] = first;
    for i in 1..beats.len() {
        jobs[i] = beats[i].first_reader(beats[i - 1].write(jobs[i - 1]));
    }
    JobNumbers::of(&jobs[..beats.len()])
}

/// Finds the jobs of the backward chain of a last job, which reads at or after the start-up.
pub(crate) fn backward_jobs(beats: &[Beat], last: u64) -> JobNumbers
    requires beats { AreBeats beats.now }
    requires late { start_up_of beats.now ≤ read_at (last_beat beats.now) last }
    requires early { read_at (last_beat beats.now) last ≤ EARLY }
    ensures { IsBackwardWalk beats.now last result }
{
    let mut jobs = [0; MOST_STEPS];
    let mut place = beats.len() - 1;
    jobs[place] = last;
    while place > 0 {
        let read = beats[place].read(jobs[place]);
        place -= 1;
        jobs[place] = beats[place].last_writer(read);
    }
    JobNumbers::of(&jobs[..beats.len()])
}
