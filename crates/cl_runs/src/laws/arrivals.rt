//! What it means that jobs follow a pattern, for each kind of pattern.
ghost use Rattle.std.specs.Prelude.{ℕ, List};
ghost use Rattle.cl_model.specs.declared.stimulus.StimulusKind.TheVariants.{Periodic, Sporadic, Burst};
ghost use Rattle.cl_runs.specs.{declared.job.Job.Job, Pattern.IsPattern, Arrivals.FollowPattern, ArrivalsByKind.{FollowsPeriod, FollowsGaps, FollowsBursts}};

/// Jobs follow a periodic pattern exactly where job `k` arrives at `offset + k * period`, within
/// the run, and is released at most the jitter later, and the next arrival isn't due in the run.
pub fn periodic_arrivals()
    ensures follow { (ticks period offset jitter : ℕ) (jobs : List Job)
        → FollowPattern (Periodic period offset jitter) ticks jobs
        → FollowsPeriod ticks period offset jitter jobs }
    ensures back { (ticks period offset jitter : ℕ) (jobs : List Job)
        → FollowsPeriod ticks period offset jitter jobs
        → FollowPattern (Periodic period offset jitter) ticks jobs }
{}

/// Jobs follow a sporadic pattern exactly where the first arrives at a tick below the greatest gap,
/// the gaps lie between the least and the greatest, each job arrives within the run and is released
/// as it arrives, and no further arrival is due in the run.
pub fn sporadic_arrivals()
    ensures follow { (ticks least greatest : ℕ) (jobs : List Job)
        → FollowPattern (Sporadic least greatest) ticks jobs
        → FollowsGaps ticks least greatest jobs }
    ensures back { (ticks least greatest : ℕ) (jobs : List Job)
        → FollowsGaps ticks least greatest jobs
        → FollowPattern (Sporadic least greatest) ticks jobs }
{}

/// Jobs follow well-formed bursts exactly where job `q * count + r`, with `r < count`, arrives and
/// is released at `offset + q * period + r * distance`, within the run, and the next arrival isn't
/// due in the run.
pub fn burst_arrivals()
    ensures follow { (ticks period offset count distance : ℕ)
        → IsPattern (Burst period offset count distance) → (jobs : List Job)
        → FollowPattern (Burst period offset count distance) ticks jobs
        → FollowsBursts ticks period offset count distance jobs }
    ensures back { (ticks period offset count distance : ℕ)
        → IsPattern (Burst period offset count distance) → (jobs : List Job)
        → FollowsBursts ticks period offset count distance jobs
        → FollowPattern (Burst period offset count distance) ticks jobs }
{}
