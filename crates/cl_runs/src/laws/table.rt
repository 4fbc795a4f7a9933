//! At most one legal run for each job table.
ghost use Rattle.std.specs.Prelude.{◌≡◌};
ghost use Rattle.cl_runs.specs.{TaskTiming.{System, IsSound}, Run.Run, Legal.IsLegal};

/// A job table has at most one legal run.
pub fn one_run_a_table()
    ensures { (system : System) → IsSound system → (one other : Run) → IsLegal system one
        → IsLegal system other
        → one.table ≡ other.table → one ≡ other }
{}
