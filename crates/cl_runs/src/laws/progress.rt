//! Progress: the executed ticks of a task never exceed its released work, and a runnable finishes
//! where they reach the work up to it.
ghost use Rattle.std.specs.Prelude.{◌≡◌, ℕ, suc, Some, ◌+◌, ◌-◌, ◌<◌, ◌≤◌, length};
ghost use Rattle.cl_runs.specs.{TaskTiming.{System, timing_at, IsSound}, Table.job_at, Run.{Run, jobs_of, core_entries, entry_at, executed}, Legal.{released, IsLegal}, Work.{work_before, work_through}, Moments.{Starts, Finishes, HasStartedBefore}};

/// The executed ticks of a task are 0 at first, grow by one in each tick in which the task runs,
/// and stay in each other tick.
pub fn executed_ticks_grow_where_a_task_runs()
    ensures none { (system : System) (run : Run) (i : ℕ) → executed system run i 0 ≡ 0 }
    // over one tick
    ensures runs { (system : System) (run : Run) (i t : ℕ)
        → t < length (core_entries run (timing_at system i).core)
        → entry_at run (timing_at system i).core t ≡ Some i
        → executed system run i (suc t) ≡ suc (executed system run i t) }
    ensures rests { (system : System) (run : Run) (i t : ℕ)
        → t < length (core_entries run (timing_at system i).core)
        → (entry_at run (timing_at system i).core t ≡ Some i → ⊥)
        → executed system run i (suc t) ≡ executed system run i t }
    // over a stretch of ticks
    ensures runs_on { (system : System) (run : Run) (i s t : ℕ) → s ≤ t
        → t ≤ length (core_entries run (timing_at system i).core)
        → ((u : ℕ) → s ≤ u → u < t → entry_at run (timing_at system i).core u ≡ Some i)
        → executed system run i t ≡ executed system run i s + (t - s) }
    ensures rests_on { (system : System) (run : Run) (i s t : ℕ) → s ≤ t
        → t ≤ length (core_entries run (timing_at system i).core)
        → ((u : ℕ) → s ≤ u → u < t → entry_at run (timing_at system i).core u ≡ Some i → ⊥)
        → executed system run i t ≡ executed system run i s }
{}

/// In a legal run a task never has more executed ticks than released work.
pub fn executed_within_released()
    ensures { (system : System) → IsSound system → (run : Run) → IsLegal system run → (i : ℕ)
        → i < length system.tasks
        → (t : ℕ) → t ≤ run.table.ticks → executed system run i t ≤ released (jobs_of run i) t }
{}

/// A runnable finishes at the moment at which the executed ticks of its task reach the work up to
/// and including it, and it does finish where they reach that work within the run.
pub fn finish_reaches_work()
    // from its finish on, the work up to and including a runnable is executed
    ensures reached { (system : System) (run : Run) (i k p f t : ℕ) → Finishes system run i k p f
        → f ≤ t → work_through (jobs_of run i) k p ≤ executed system run i t }
    // and not before
    ensures earliest { (system : System) (run : Run) (i k p f t : ℕ) → Finishes system run i k p f
        → work_through (jobs_of run i) k p ≤ executed system run i t → f ≤ t }
    // and where that work is executed by t, the runnable finishes by t
    ensures exists { (system : System) (run : Run) (i k p t : ℕ) → k < length (jobs_of run i)
        → p < length (timing_at system i).ranges
        → t ≤ run.table.ticks → work_through (jobs_of run i) k p ≤ executed system run i t
        → (f : ℕ) × (f ≤ t) × Finishes system run i k p f }
{}

/// A runnable starts at the moment after which the executed ticks of its task exceed the work
/// before it. In a legal run it has started where they exceed that work, where they reach the work
/// up to and including it, and where a later job of the task has started.
pub fn start_begins_work()
    // from its start on, more is executed
    ensures begun { (system : System) (run : Run) (i k p s t : ℕ) → Starts system run i k p s
        → s < t
        → work_before (jobs_of run i) k p < executed system run i t }
    // and not before
    ensures earliest { (system : System) (run : Run) (i k p s t : ℕ) → Starts system run i k p s
        → work_before (jobs_of run i) k p < executed system run i t → s < t }
    // and in a legal run it has started where more is executed
    ensures exists { (system : System) → IsSound system → (run : Run) → IsLegal system run
        → (i k p t : ℕ)
        → k < length (jobs_of run i) → p < length (timing_at system i).ranges
        → work_before (jobs_of run i) k p < executed system run i t
        → HasStartedBefore system run i k p t }
    // hence where the work up to and including it is executed
    ensures through { (system : System) → IsSound system → (run : Run) → IsLegal system run
        → (i k p t : ℕ)
        → k < length (jobs_of run i) → p < length (timing_at system i).ranges
        → work_through (jobs_of run i) k p ≤ executed system run i t
        → HasStartedBefore system run i k p t }
    // and where a later job has started
    ensures earlier { (system : System) → IsSound system → (run : Run) → IsLegal system run
        → (i k p l q t : ℕ)
        → k < l → p < length (timing_at system i).ranges → Starts system run i l q t
        → HasStartedBefore system run i k p t }
{}

/// In a legal run a runnable starts no earlier than its job's release plus the job's work before
/// it, and finishes no earlier than that release plus the job's work up to and including it. Two
/// runnables of a job finish at least as far apart as the work between them.
pub fn jobs_take_their_time()
    ensures start { (system : System) → IsSound system → (run : Run) → IsLegal system run → (i : ℕ)
        → i < length system.tasks
        → (k p t : ℕ) → Starts system run i k p t
        → (job_at (jobs_of run i) k).release + work_before (jobs_of run i) k p
        ≤ t + work_before (jobs_of run i) k 0 }
    ensures finish { (system : System) → IsSound system → (run : Run) → IsLegal system run → (i : ℕ)
        → i < length system.tasks
        → (k p t : ℕ) → Finishes system run i k p t
        → (job_at (jobs_of run i) k).release + work_through (jobs_of run i) k p
        ≤ t + work_before (jobs_of run i) k 0 }
    // and two runnables finish at least as far apart as the work between them
    ensures apart { (system : System) (run : Run) (i k p q s t : ℕ) → Finishes system run i k p s
        → Finishes system run i k q t
        → work_through (jobs_of run i) k p ≤ work_through (jobs_of run i) k q
        → s + work_through (jobs_of run i) k q ≤ t + work_through (jobs_of run i) k p }
{}
