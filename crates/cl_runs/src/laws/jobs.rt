//! The arrivals and releases of the jobs of a task in a legal run of a sound system.
ghost use Rattle.std.specs.Prelude.{ℕ, suc, ◌+◌, ◌<◌, ◌≤◌, length};
ghost use Rattle.cl_model.specs.Timing.{least_distance, greatest_distance, greatest_jitter};
ghost use Rattle.cl_runs.specs.{TaskTiming.{System, timing_at, IsSound}, Table.job_at, Run.{Run, jobs_of}, Legal.IsLegal};

/// A later job of a task arrives at least the least distance after an earlier one, and so at or
/// after the deadline of that one.
pub fn jobs_arrive_apart()
    ensures distance { (system : System) → IsSound system → (run : Run) → IsLegal system run
        → (i : ℕ) → i < length system.tasks
        → (k l : ℕ) → k < l → l < length (jobs_of run i)
        → (job_at (jobs_of run i) k).arrival + least_distance (timing_at system i).pattern
        ≤ (job_at (jobs_of run i) l).arrival }
    ensures deadline { (system : System) → IsSound system → (run : Run) → IsLegal system run
        → (i : ℕ) → i < length system.tasks
        → (k l : ℕ) → k < l → l < length (jobs_of run i)
        → (job_at (jobs_of run i) k).arrival + (timing_at system i).deadline
        ≤ (job_at (jobs_of run i) l).arrival }
{}

/// The next job of a task arrives at most the greatest distance after a job, and it is in the table
/// where that distance ends within the run.
pub fn next_jobs_arrive()
    ensures within { (system : System) → IsSound system → (run : Run) → IsLegal system run → (i : ℕ)
        → i < length system.tasks
        → (k : ℕ) → suc k < length (jobs_of run i)
        → (job_at (jobs_of run i) (suc k)).arrival
        ≤ (job_at (jobs_of run i) k).arrival + greatest_distance (timing_at system i).pattern }
    ensures due { (system : System) → IsSound system → (run : Run) → IsLegal system run → (i : ℕ)
        → i < length system.tasks
        → (k : ℕ) → k < length (jobs_of run i)
        → (job_at (jobs_of run i) k).arrival + greatest_distance (timing_at system i).pattern
        < run.table.ticks
        → suc k < length (jobs_of run i) }
{}

/// The jobs of a task are released in order, each at its arrival or at most the jitter later.
pub fn jobs_are_released_in_order()
    ensures order { (system : System) → IsSound system → (run : Run) → IsLegal system run → (i : ℕ)
        → i < length system.tasks
        → (k l : ℕ) → k ≤ l → l < length (jobs_of run i)
        → (job_at (jobs_of run i) k).release ≤ (job_at (jobs_of run i) l).release }
    ensures not_early { (system : System) → IsSound system → (run : Run) → IsLegal system run
        → (i : ℕ) → i < length system.tasks
        → (k : ℕ) → k < length (jobs_of run i)
        → (job_at (jobs_of run i) k).arrival ≤ (job_at (jobs_of run i) k).release }
    ensures not_late { (system : System) → IsSound system → (run : Run) → IsLegal system run
        → (i : ℕ) → i < length system.tasks
        → (k : ℕ) → k < length (jobs_of run i)
        → (job_at (jobs_of run i) k).release
        ≤ (job_at (jobs_of run i) k).arrival + greatest_jitter (timing_at system i).pattern }
{}
