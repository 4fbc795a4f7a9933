//! The traces of runs, and what a text is read as.
ghost use Rattle.std.specs.Prelude.{◌≡◌, ◌≤◌, ◌⊎◌, ℕ, List};
ghost use Rattle.cl_model.specs.{declared.model.SystemModel.SystemModel, AreNamed.AreNamed, Validity.IsValid};
ghost use Rattle.cl_runs.specs.{Run.{Run, IsInForm}, SystemOf.system_of, Legal.IsLegal};
ghost use Rattle.cl_trace.specs.{declared.limits.TheConstants.MOST_TRACE_TICKS, Trace.spelled, Rules.{IsWithinLimits, IsTraceOf, IsBadTraceLine}};

/// The text that spells a legal run of a valid model is a trace of that run where the run has at
/// most `MOST_TRACE_TICKS` ticks.
pub fn legal_runs_have_traces()
    ensures { (model : SystemModel) → IsValid model → (run : Run) → IsLegal (system_of model) run
        → run.table.ticks ≤ MOST_TRACE_TICKS → IsTraceOf model (spelled model run) run }
{}

/// A text has at most one first bad line.
pub fn bad_lines_are_unique()
    ensures { (model : SystemModel) → IsValid model → AreNamed model
        → (text : List ℕ) (one other : ℕ)
        → IsBadTraceLine model text one → IsBadTraceLine model text other → one ≡ other }
{}

/// A text is the trace of at most one run, and a trace has no bad line. Two runs in form, within
/// the limits of a trace, that are spelled alike are the same run.
pub fn texts_have_one_answer()
    ensures run { (model : SystemModel) → IsValid model → AreNamed model
        → (text : List ℕ) (one other : Run)
        → IsTraceOf model text one → IsTraceOf model text other → one ≡ other }
    ensures spelled { (model : SystemModel) → IsValid model → AreNamed model → (one other : Run)
        → IsInForm (system_of model) one → IsWithinLimits one → IsInForm (system_of model) other
        → IsWithinLimits other
        → spelled model one ≡ spelled model other → one ≡ other }
    ensures no_bad_line { (model : SystemModel) → IsValid model → AreNamed model
        → (text : List ℕ) (run : Run) (line : ℕ)
        → IsTraceOf model text run → IsBadTraceLine model text line → ⊥ }
{}

/// Each text is the trace of a run or has a first bad line.
pub fn texts_have_an_answer()
    ensures { (model : SystemModel) → IsValid model → AreNamed model → (text : List ℕ)
        → ((run : Run) × IsTraceOf model text run) ⊎ ((line : ℕ) × IsBadTraceLine model text line) }
{}
