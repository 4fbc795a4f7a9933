//! Lags: how much later a job arrives, at the latest, than one whose write it misses.
ghost use Rattle.std.specs.Prelude.{ℕ, pos, ◌+ℤ◌, ◌≤ℤ◌, ◌+◌, ◌-◌, ◌≤◌};
ghost use Rattle.cl_model.specs.declared.group.Group.{Group};
ghost use Rattle.cl_runs.specs.{TaskTiming.{System, IsSound}, Table.job_at, Run.{Run, jobs_of}, Legal.IsLegal, Chains.{HasWritten, IsEarliestReader, IsLatestWriter}, RunChains.run_moments};
ghost use Rattle.cl_hop.specs.{Hops.lag, declared.group_timing.GroupTiming.GroupTiming, Timings.AlwaysKeeps};

/// If timings of groups x and y always hold, a job of y that just misses the write of a job of x
/// arrives less than the lag between these timings after that job. The job before an earliest
/// reader just misses the reader's writer, and a job with a latest writer just misses the next job
/// of x, if that has written.
pub fn lags_bound_arrivals()
    // the job before an earliest reader that isn't job 0
    ensures forward { (system : System) → IsSound system → (x y : Group)
        → (writer reader : GroupTiming)
        → AlwaysKeeps system x writer → AlwaysKeeps system y reader
        → (run : Run) → IsLegal system run → (m k : ℕ) → 1 ≤ k
        → IsEarliestReader (run_moments system run) x y m k
        → (pos (job_at (jobs_of run y.task) (k - 1)).arrival +ℤ pos 1)
        ≤ℤ (pos (job_at (jobs_of run x.task) m).arrival +ℤ lag writer reader) }
    // a job with a latest writer, where the next job of x has written
    ensures backward { (system : System) → IsSound system → (x y : Group)
        → (writer reader : GroupTiming)
        → AlwaysKeeps system x writer → AlwaysKeeps system y reader
        → (run : Run) → IsLegal system run → (m k : ℕ)
        → IsLatestWriter (run_moments system run) x y m k
        → HasWritten (run_moments system run) x (m + 1)
        → (pos (job_at (jobs_of run y.task) k).arrival +ℤ pos 1)
        ≤ℤ (pos (job_at (jobs_of run x.task) (m + 1)).arrival +ℤ lag writer reader) }
{}
