//! The gaps of well-formed patterns, and what holds of the jobs that follow a pattern.
ghost use Rattle.std.specs.Prelude.{ℕ, suc, ◌+◌, ◌<◌, ◌≤◌, List, length};
ghost use Rattle.cl_model.specs.{declared.stimulus.StimulusKind.StimulusKind, Timing.{least_distance, greatest_distance, greatest_jitter}};
ghost use Rattle.cl_runs.specs.{declared.job.Job.Job, Pattern.{IsPattern, first_least, first_greatest, least_gap, greatest_gap}, Arrivals.FollowPattern, Table.job_at};

/// The least distance of a well-formed pattern is at least one tick, and each gap lies between the
/// least and the greatest distance. The least first arrival and the least gap after a job are at
/// most the greatest ones.
pub fn gaps_lie_within_the_distances()
    ensures some { (pattern : StimulusKind) → IsPattern pattern → 1 ≤ least_distance pattern }
    ensures first { (pattern : StimulusKind) → IsPattern pattern
        → first_least pattern ≤ first_greatest pattern }
    ensures least { (pattern : StimulusKind) → IsPattern pattern → (k : ℕ)
        → least_distance pattern ≤ least_gap pattern k }
    ensures ordered { (pattern : StimulusKind) → IsPattern pattern → (k : ℕ)
        → least_gap pattern k ≤ greatest_gap pattern k }
    ensures greatest { (pattern : StimulusKind) → IsPattern pattern → (k : ℕ)
        → greatest_gap pattern k ≤ greatest_distance pattern }
{}

/// Of jobs that follow a well-formed pattern a later one arrives at least the least distance after
/// an earlier one.
pub fn arrivals_lie_apart()
    ensures { (pattern : StimulusKind) → IsPattern pattern → (ticks : ℕ) (jobs : List Job)
        → FollowPattern pattern ticks jobs
        → (k l : ℕ) → k < l → l < length jobs
        → (job_at jobs k).arrival + least_distance pattern ≤ (job_at jobs l).arrival }
{}

/// Of jobs that follow a well-formed pattern the next one arrives at most the greatest distance
/// after a job, and there is one where that distance ends within the ticks of the jobs.
pub fn next_jobs_arrive_in_time()
    ensures within { (pattern : StimulusKind) → IsPattern pattern → (ticks : ℕ) (jobs : List Job)
        → FollowPattern pattern ticks jobs
        → (k : ℕ) → suc k < length jobs → (job_at jobs (suc k)).arrival
        ≤ (job_at jobs k).arrival + greatest_distance pattern }
    ensures due { (pattern : StimulusKind) → IsPattern pattern → (ticks : ℕ) (jobs : List Job)
        → FollowPattern pattern ticks jobs
        → (k : ℕ) → k < length jobs → (job_at jobs k).arrival + greatest_distance pattern < ticks
        → suc k < length jobs }
{}

/// A job that follows a pattern is released at its arrival or at most the jitter later.
pub fn releases_lie_within_the_jitter()
    ensures not_early { (pattern : StimulusKind) (ticks : ℕ) (jobs : List Job)
        → FollowPattern pattern ticks jobs
        → (k : ℕ) → k < length jobs → (job_at jobs k).arrival ≤ (job_at jobs k).release }
    ensures not_late { (pattern : StimulusKind) (ticks : ℕ) (jobs : List Job)
        → FollowPattern pattern ticks jobs
        → (k : ℕ) → k < length jobs → (job_at jobs k).release
        ≤ (job_at jobs k).arrival + greatest_jitter pattern }
{}
