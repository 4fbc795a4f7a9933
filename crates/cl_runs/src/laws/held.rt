//! Whole runnables in a legal run of a sound system: they aren't interrupted, and none starts where
//! a task of higher priority is pending on its core.
ghost use Rattle.std.specs.Prelude.{◌≡◌, ℕ, suc, ◌+◌, ◌<◌, ◌≤◌, true, length, slice_index};
ghost use Rattle.cl_runs.specs.{TaskTiming.{System, timing_at, range_at, IsSound}, Table.job_at, Run.{Run, jobs_of, executed}, Held.IsHeldIn, Legal.{released, IsNoneHeld, IsHighestPending, IsLegal}, Moments.{IsHeldAt, Executes, Starts, Finishes}};

/// At most one task of a core is held at a time.
pub fn one_task_is_held()
    ensures { (system : System) → IsSound system → (run : Run) → IsLegal system run → (t : ℕ)
        → t ≤ run.table.ticks
        → (i j : ℕ) → i < length system.tasks → j < length system.tasks
        → (timing_at system i).core ≡ (timing_at system j).core
        → IsHeldAt system run i t → IsHeldAt system run j t → i ≡ j }
{}

/// A held task is pending. It executes the runnable in which it is held, and did so in the tick
/// before.
pub fn held_tasks_run()
    ensures pending { (system : System) → IsSound system → (run : Run) → IsLegal system run
        → (i t : ℕ) → i < length system.tasks
        → t ≤ run.table.ticks → IsHeldAt system run i t
        → executed system run i t < released (jobs_of run i) t }
    ensures executes { (system : System) → IsSound system → (run : Run) → IsLegal system run
        → (i k p t : ℕ) → t < run.table.ticks
        → IsHeldIn (timing_at system i) (jobs_of run i) k p (executed system run i t)
        → Executes system run i k p t }
    ensures executed { (system : System) → IsSound system → (run : Run) → IsLegal system run
        → (i k p t : ℕ) → t < run.table.ticks
        → IsHeldIn (timing_at system i) (jobs_of run i) k p (executed system run i (suc t))
        → Executes system run i k p t }
{}

/// A whole runnable isn't interrupted: from its start on it is executed in each tick of the run
/// until its execution time is over, and then it finishes.
pub fn whole_runnables_run_through()
    ensures executes { (system : System) → IsSound system → (run : Run) → IsLegal system run
        → (i k p s : ℕ)
        → Starts system run i k p s → (range_at (timing_at system i) p).whole ≡ true
        → (t : ℕ) → s ≤ t → t < s + slice_index (job_at (jobs_of run i) k).times p
        → t < run.table.ticks
        → Executes system run i k p t }
    ensures finishes { (system : System) → IsSound system → (run : Run) → IsLegal system run
        → (i k p s : ℕ)
        → Starts system run i k p s → (range_at (timing_at system i) p).whole ≡ true
        → s + slice_index (job_at (jobs_of run i) k).times p ≤ run.table.ticks
        → Finishes system run i k p (s + slice_index (job_at (jobs_of run i) k).times p) }
{}

/// Where a runnable starts, no task of its core is held, and its own task is the pending one of
/// highest priority.
pub fn highest_tasks_start()
    ensures none_held { (system : System) → IsSound system → (run : Run) → IsLegal system run
        → (i k p t : ℕ)
        → Starts system run i k p t → IsNoneHeld system run.table
        (λ j. executed system run j t) (timing_at system i).core }
    ensures highest { (system : System) → IsSound system → (run : Run) → IsLegal system run
        → (i k p t : ℕ)
        → Starts system run i k p t
        → IsHighestPending system run.table
        (λ j. executed system run j t) t (timing_at system i).core i }
{}
