//! Moments are unique, a job that has written has read before, and moments rise with the number of
//! the job.
ghost use Rattle.std.specs.Prelude.{◌≡◌, ℕ, ◌+◌, ◌<◌, ◌≤◌, length};
ghost use Rattle.cl_model.specs.declared.task.AccessKind.TheVariants.{Timed};
ghost use Rattle.cl_runs.specs.{TaskTiming.{System, timing_at, IsSound}, Table.job_at, Run.{Run, jobs_of}, Legal.IsLegal, Moments.{Starts, Finishes, JobFinishes, Reads, HasReadBefore, Writes}};

/// A runnable of a job starts, finishes, reads and writes at most once.
pub fn moments_are_unique()
    ensures starts { (system : System) (run : Run) (i k p s t : ℕ) → Starts system run i k p s
        → Starts system run i k p t → s ≡ t }
    ensures finishes { (system : System) (run : Run) (i k p s t : ℕ) → Finishes system run i k p s
        → Finishes system run i k p t → s ≡ t }
    ensures reads { (system : System) (run : Run) (i k p s t : ℕ) → Reads system run i k p s
        → Reads system run i k p t → s ≡ t }
    ensures writes { (system : System) (run : Run) (i k p s t : ℕ) → Writes system run i k p s
        → Writes system run i k p t → s ≡ t }
{}

/// The reads of a legal run lie before its end, and its writes at or before it.
pub fn moments_lie_within()
    ensures reads { (system : System) → IsSound system → (run : Run) → IsLegal system run
        → (i k p t : ℕ)
        → Reads system run i k p t → t < run.table.ticks }
    ensures writes { (system : System) → IsSound system → (run : Run) → IsLegal system run
        → (i k p t : ℕ)
        → Writes system run i k p t → t ≤ run.table.ticks }
{}

/// In a legal run a job that writes at a runnable has read before at that runnable and each earlier
/// one, and each earlier job of the task has read before at every runnable.
pub fn writers_have_read()
    // the job itself, at this and each earlier runnable
    ensures itself { (system : System) → IsSound system → (run : Run) → IsLegal system run
        → (i k p q t : ℕ)
        → p ≤ q → Writes system run i k q t → (r : ℕ) × (r < t) × Reads system run i k p r }
    // each job before it, at each runnable
    ensures earlier { (system : System) → IsSound system → (run : Run) → IsLegal system run
        → (i k p l q t : ℕ)
        → k < l → p < length (timing_at system i).ranges → Writes system run i l q t
        → (r : ℕ) × (r < t) × Reads system run i k p r }
{}

/// In a legal run each job of a task before one that reads has read earlier, at every runnable.
pub fn earlier_jobs_have_read()
    ensures { (system : System) → IsSound system → (run : Run) → IsLegal system run
        → (i k p l q t : ℕ)
        → k < l → p < length (timing_at system i).ranges → Reads system run i l q t
        → HasReadBefore system run i k p t }
{}

/// In a legal run a later job of a task reads after each read of an earlier one and writes after
/// each write of an earlier one, whatever the runnables.
pub fn moments_rise()
    ensures reads { (system : System) → IsSound system → (run : Run) → IsLegal system run
        → (i k p l q s t : ℕ)
        → k < l → Reads system run i k p s → Reads system run i l q t → s < t }
    ensures writes { (system : System) → IsSound system → (run : Run) → IsLegal system run
        → (i k p l q s t : ℕ)
        → k < l → Writes system run i k p s → Writes system run i l q t → s < t }
{}

/// A timed job that finishes after its deadline writes nothing.
pub fn late_timed_jobs_write_nothing()
    ensures { (system : System) (run : Run) (i k p f t : ℕ) → (timing_at system i).access ≡ Timed
        → JobFinishes system run i k f
        → (job_at (jobs_of run i) k).arrival + (timing_at system i).deadline < f
        → Writes system run i k p t → ⊥ }
{}
