//! When the runnables of jobs read and write, relative to their windows, in every legal run of
//! every sound system.
ghost use Rattle.std.specs.Prelude.{ℕ, ◌+◌, ◌<◌, ◌≤◌, ◌≡◌, ◌≢◌, length};
ghost use Rattle.cl_model.specs.declared.task.AccessKind.{AccessKind, TheVariants.Timed};
ghost use Rattle.cl_runs.specs.{TaskTiming.{System, timing_at, IsSound}, Table.job_at, Run.{Run, jobs_of}, Legal.IsLegal, Moments.{Starts, JobFinishes, Reads, Writes}};
ghost use Rattle.cl_comm.specs.{declared.spot.Spot.Spot, Windows.{spot_at, window_of, window_at}};

/// A runnable reads no earlier than `rlo` of its window, counted from its job's arrival, whatever
/// the response.
pub fn reads_come_late()
    ensures { (system : System) → IsSound system → (run : Run) → IsLegal system run
        → (i k p response t : ℕ)
        → Reads system run i k p t
        → (job_at (jobs_of run i) k).arrival + (window_at (timing_at system i) p response).rlo ≤ t }
{}

/// A runnable writes no earlier than `wlo` of its window, counted from its job's arrival, whatever
/// the response.
pub fn writes_come_late()
    ensures { (system : System) → IsSound system → (run : Run) → IsLegal system run
        → (i k p response t : ℕ)
        → Writes system run i k p t
        → (job_at (jobs_of run i) k).arrival + (window_at (timing_at system i) p response).wlo ≤ t }
{}

/// If a job finishes within a response of its arrival, its runnables write no later than `whi` of
/// their windows, counted from the arrival.
pub fn writes_come_in_time()
    ensures { (system : System) → IsSound system → (run : Run) → IsLegal system run
        → (i k p response f t : ℕ)
        → JobFinishes system run i k f → f ≤ (job_at (jobs_of run i) k).arrival + response
        → Writes system run i k p t
        → t ≤ (job_at (jobs_of run i) k).arrival + (window_at (timing_at system i) p response).whi }
{}

/// Each runnable of a job that finishes has read before the finish.
pub fn finished_jobs_read()
    ensures { (system : System) → IsSound system → (run : Run) → IsLegal system run → (i k p f : ℕ)
        → JobFinishes system run i k f → p < length (timing_at system i).ranges
        → (t : ℕ) × (t < f) × Reads system run i k p t }
{}

/// If a job finishes within a response that is at most its deadline, each of its runnables writes,
/// provided that its window ends within the run.
pub fn finished_jobs_write()
    ensures { (system : System) → IsSound system → (run : Run) → IsLegal system run
        → (i k p response f : ℕ)
        → JobFinishes system run i k f → f ≤ (job_at (jobs_of run i) k).arrival + response
        → response ≤ (timing_at system i).deadline → p < length (timing_at system i).ranges
        → (job_at (jobs_of run i) k).arrival + (window_at (timing_at system i) p response).whi
        ≤ run.table.ticks
        → (t : ℕ) × Writes system run i k p t }
{}

/// A window ends by the deadline, if the response is at least the sum of the least times and at
/// most the deadline.
pub fn windows_end_by_the_deadline()
    ensures { (access : AccessKind) (spot : Spot) (response : ℕ)
        → spot.before + spot.own + spot.after ≤ response → response ≤ spot.deadline
        → (window_of access spot response).whi ≤ spot.deadline }
{}

/// Only the end of a window depends on the response, and it never falls as the response grows.
pub fn windows_grow_with_responses()
    ensures reads { (access : AccessKind) (spot : Spot) (response other : ℕ)
        → (window_of access spot response).rlo ≡ (window_of access spot other).rlo }
    ensures writes { (access : AccessKind) (spot : Spot) (response other : ℕ)
        → (window_of access spot response).wlo ≡ (window_of access spot other).wlo }
    ensures ends { (access : AccessKind) (spot : Spot) (less more : ℕ) → less ≤ more
        → (window_of access spot less).whi ≤ (window_of access spot more).whi }
{}

/// If a job finishes within a response of its arrival, the response is at least the sum of the
/// least times of the task's runnables.
pub fn responses_hold_the_least_times()
    ensures { (system : System) → IsSound system → (run : Run) → IsLegal system run
        → (i k p response f : ℕ)
        → JobFinishes system run i k f → f ≤ (job_at (jobs_of run i) k).arrival + response
        → p < length (timing_at system i).ranges
        → (spot_at (timing_at system i) p).before + (spot_at (timing_at system i) p).own
        + (spot_at (timing_at system i) p).after ≤ response }
{}

/// A task that isn't timed runs in each tick in which it reads, and each runnable of a job that
/// finishes has written by the finish.
pub fn readers_run()
    // each read is in the first tick of one of the job's runnables
    ensures reads { (system : System) → IsSound system → (run : Run) → IsLegal system run → (i : ℕ)
        → (timing_at system i).access ≢ Timed → (k p t : ℕ) → Reads system run i k p t
        → (q : ℕ) × Starts system run i k q t }
    // each runnable of a job that finishes has written by then
    ensures writes { (system : System) → IsSound system → (run : Run) → IsLegal system run → (i : ℕ)
        → (timing_at system i).access ≢ Timed → (k p f : ℕ) → JobFinishes system run i k f
        → p < length (timing_at system i).ranges → (t : ℕ) × (t ≤ f) × Writes system run i k p t }
{}

/// The writes of a job come no later than the reads of each later job of its task.
pub fn writes_come_before_the_next_read()
    ensures { (system : System) → IsSound system → (run : Run) → IsLegal system run
        → (i k q l p w r : ℕ)
        → k < l → Writes system run i k q w → Reads system run i l p r → w ≤ r }
{}
