//! How long traces are.
ghost use Rattle.std.specs.Prelude.{ℕ, ◌+◌, ◌*◌, ◌≤◌, length};
ghost use Rattle.cl_model.specs.{declared.model.SystemModel.SystemModel, AreNamed.AreNamed, Validity.IsValid};
ghost use Rattle.cl_runs.specs.{TaskTiming.{System, IsSound}, SystemOf.system_of, Run.Run, Legal.IsLegal};
ghost use Rattle.cl_trace.specs.{Executions.executions, Trace.{job_items, run_items, spelled}};

/// A legal run has at most twice as many run lines as job lines: where a core turns to a task, a
/// job of that task begins, or a job of another task of the core has just finished.
pub fn run_lines_are_few()
    ensures { (system : System) → IsSound system → (run : Run) → IsLegal system run
        → length (run_items run) ≤ 2 * length (job_items run) }
{}

/// The trace of a legal run of at most 1,000,000,000 ticks has at most 41 bytes and 305 bytes more
/// for each execution of a runnable in its job table.
pub fn traces_are_short()
    ensures { (model : SystemModel) → IsValid model → AreNamed model → (run : Run)
        → IsLegal (system_of model) run
        → run.table.ticks ≤ 1000000000 → length (spelled model run)
        ≤ 41 + 305 * executions run.table }
{}
