//! Ways to access labels.
ghost use Rattle.std.specs.Prelude.{◌≡◌, ℕ, Bool, true, ◌+◌, ◌<◌, ◌≤◌, length};
ghost use Rattle.cl_runs.specs.{TaskTiming.{Timing, System, timing_at, IsSound}, Table.job_at, Run.{Run, jobs_of}, Legal.IsLegal, Moments.{Starts, JobFinishes}};
ghost use Rattle.cl_comm.specs.{declared.spot.{Spot.Spot, Window.Window}, Windows.spot_at};

use crate::spot::{Spot, Window};

/// A way to access labels: when the runnables of a task read and write, and in which windows. Times
/// are in ticks. The laws hold in every legal run of every sound system.
pub trait Access {
    /// Holds of the tasks that access labels this way.
    ghost accesses: { Self → Timing → Type 0 };

    /// The window of a runnable at a spot, if its job finishes within the response.
    ghost window: { Self → Spot → ℕ → Window };

    /// Whether a task runs in the tick in which it reads.
    ghost runs_on_reads: { Self → Bool };

    /// Task i accesses labels this way, and runnable p of its job k reads at t.
    ghost reads: { Self → System → Run → (i k p t : ℕ) → Type 0 };

    /// Task i accesses labels this way, and runnable p of its job k writes at t.
    ghost writes: { Self → System → Run → (i k p t : ℕ) → Type 0 };

    /// Computes the window of a runnable at this spot, if its job finishes at most `response` ticks
    /// after its arrival.
    fn window(&self, spot: Spot, response: u64) -> Window
        requires least_times { spot.before + spot.own + spot.after ≤ response }
        requires in_time { response ≤ spot.deadline }
        ensures window { result ≡ window self.now spot response }
        ensures by_deadline { result.whi ≤ spot.deadline };

    /// Checks whether a task runs in the tick in which it reads.
    fn runs_on_reads(&self) -> bool
        ensures { result ≡ runs_on_reads self.now };

    /// A runnable reads no earlier than `rlo` of its window, counted from its job's arrival,
    /// whatever the response.
    ghost reads_come_late: { (a : Self) (system : System) → IsSound system → (run : Run)
        → IsLegal system run
        → (i k p response t : ℕ) → reads a system run i k p t
        → (job_at (jobs_of run i) k).arrival + (window a (spot_at (timing_at system i) p) response).rlo ≤ t };

    /// A runnable writes no earlier than `wlo` of its window, counted from its job's arrival,
    /// whatever the response.
    ghost writes_come_late: { (a : Self) (system : System) → IsSound system → (run : Run)
        → IsLegal system run
        → (i k p response t : ℕ) → writes a system run i k p t
        → (job_at (jobs_of run i) k).arrival + (window a (spot_at (timing_at system i) p) response).wlo ≤ t };

    /// If a job finishes within the response, its runnables write no later than `whi` of their
    /// windows, counted from its arrival.
    ghost writes_come_in_time: { (a : Self) (system : System) → IsSound system → (run : Run)
        → IsLegal system run
        → (i k p response f t : ℕ) → JobFinishes system run i k f
        → f ≤ (job_at (jobs_of run i) k).arrival + response → writes a system run i k p t
        → t ≤ (job_at (jobs_of run i) k).arrival + (window a (spot_at (timing_at system i) p) response).whi };

    /// Each runnable of a job that finishes has read before the finish.
    ghost finished_jobs_read: { (a : Self) (system : System) → IsSound system → (run : Run)
        → IsLegal system run
        → (i k p f : ℕ) → accesses a (timing_at system i) → JobFinishes system run i k f
        → p < length (timing_at system i).ranges → (t : ℕ) × (t < f) × reads a system run i k p t };

    /// If a job finishes within a response that is at most its deadline, each of its runnables
    /// writes, provided that its window ends within the run.
    ghost finished_jobs_write: { (a : Self) (system : System) → IsSound system → (run : Run)
        → IsLegal system run
        → (i k p response f : ℕ) → accesses a (timing_at system i) → JobFinishes system run i k f
        → f ≤ (job_at (jobs_of run i) k).arrival + response
        → response ≤ (timing_at system i).deadline
        → p < length (timing_at system i).ranges
        → (job_at (jobs_of run i) k).arrival + (window a (spot_at (timing_at system i) p) response).whi ≤ run.table.ticks
        → (t : ℕ) × writes a system run i k p t };

    /// A window ends by the deadline, if the response is at least the sum of the least times and at
    /// most the deadline.
    ghost windows_end_by_the_deadline: { (a : Self) (spot : Spot) (response : ℕ)
        → spot.before + spot.own + spot.after ≤ response → response ≤ spot.deadline
        → (window a spot response).whi ≤ spot.deadline };

    /// The reads of a task rise strictly with the job number.
    ghost reads_rise: { (a : Self) (system : System) → IsSound system → (run : Run)
        → IsLegal system run
        → (i k p l q s t : ℕ) → k < l → reads a system run i k p s → reads a system run i l q t
        → s < t };

    /// The writes of a task rise strictly with the job number, over the jobs that write.
    ghost writes_rise: { (a : Self) (system : System) → IsSound system → (run : Run)
        → IsLegal system run
        → (i k p l q s t : ℕ) → k < l → writes a system run i k p s → writes a system run i l q t
        → s < t };

    /// If tasks run on reads, each read is in the first tick of one of the job's runnables.
    ghost readers_run: { (a : Self) (system : System) → IsSound system → (run : Run)
        → IsLegal system run
        → runs_on_reads a ≡ true → (i k p t : ℕ) → reads a system run i k p t
        → (q : ℕ) × Starts system run i k q t };

    /// If tasks run on reads, each runnable of a job that finishes has written by the finish.
    ghost readers_write_by_their_finish: { (a : Self) (system : System) → IsSound system
        → (run : Run) → IsLegal system run
        → runs_on_reads a ≡ true → (i k p f : ℕ) → accesses a (timing_at system i)
        → JobFinishes system run i k f
        → p < length (timing_at system i).ranges
        → (t : ℕ) × (t ≤ f) × writes a system run i k p t };
}
