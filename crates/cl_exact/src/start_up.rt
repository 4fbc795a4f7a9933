//! The jobs from which on all tasks of a chain have begun. Times are in ticks.
ghost use Rattle.std.specs.Prelude.{◌≡◌, ℕ, ◌-◌, length};
ghost use Rattle.cl_exact.specs.Inner.{Beats.{AreBeats, beat_in, first_reader}, Walks.{start_up_of, IsLatestSecond}};

use crate::beat::Beat;

/// Finds the moment at which job 1 of each group has arrived, the last of them just then.
fn latest_second(beats: &[Beat]) -> u64
    requires { AreBeats beats.now }
    ensures { IsLatestSecond beats.now result }
{
    let mut latest = 0;
    for beat in beats {
        latest = (beat.offset + beat.period).max(latest);
    }
    latest
}

/// Sums the offset, the period and the deadline of each group: from this moment on no backward
/// chain goes back to before all tasks have begun.
fn start_up(beats: &[Beat]) -> u64
    requires { AreBeats beats.now }
    ensures { result ≡ start_up_of beats.now }
{
    let mut start_up = 0;
    for beat in beats {
        start_up += beat.offset + beat.period + beat.deadline;
    }
    start_up
}

/// Finds the first job of the first group that reads when all tasks have begun.
pub(crate) fn first_steady_job(beats: &[Beat]) -> u64
    requires { AreBeats beats.now }
    ensures { (moment : ℕ) × IsLatestSecond beats.now moment
        × (result ≡ first_reader (beat_in beats.now 0) moment) }
{
    beats[0].first_reader(latest_second(beats))
}

/// Finds the first job of the last group that reads at or after the start-up.
pub(crate) fn last_steady_job(beats: &[Beat]) -> u64
    requires { AreBeats beats.now }
    ensures { result ≡ first_reader (beat_in beats.now (length beats.now - 1)) (start_up_of beats.now) }
{
    beats[beats.len() - 1].first_reader(start_up(beats))
}
