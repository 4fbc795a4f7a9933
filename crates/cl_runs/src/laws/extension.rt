//! There are legal runs, each goes on to every greater length, and what has happened stays.
ghost use Rattle.std.specs.Prelude.{◌≡◌, ℕ, ◌<◌, ◌≤◌, List};
ghost use Rattle.cl_runs.specs.{TaskTiming.{System, IsSound}, declared.job.JobTable.JobTable, Table.IsLawful, Run.{Run, empty_run}, Legal.IsLegal, Moments.{Starts, Finishes, Reads, Writes}, GoesOn.GoesOn, Continuation.{IsContinuation, HasContinuation}, Chains.{JobChain, IsForwardChain}};
ghost use Rattle.cl_runs.specs.{Chains.{IsAgeChain, IsReducedChain}, RunChains.run_moments};
ghost use Rattle.cl_model.specs.declared.group.Group.{Group};

/// The run of no ticks is legal. In a sound system each lawful job table has a legal run, and there
/// is a legal run of every length.
pub fn there_are_legal_runs()
    ensures empty { (system : System) → IsLegal system (empty_run system) }
    ensures every_length { (system : System) → IsSound system → (ticks : ℕ)
        → (run : Run) × (run.table.ticks ≡ ticks) × IsLegal system run }
    ensures every_table { (system : System) → IsSound system → (table : JobTable)
        → IsLawful system table
        → (run : Run) × (run.table ≡ table) × IsLegal system run }
{}

/// Each legal run goes on to a legal run of every greater length.
pub fn legal_runs_go_on()
    ensures { (system : System) → IsSound system → (run : Run) → IsLegal system run → (ticks : ℕ)
        → run.table.ticks ≤ ticks
        → (longer : Run) × (longer.table.ticks ≡ ticks) × IsLegal system longer
        × GoesOn run longer }
{}

/// What starts, finishes, reads or writes in a run does so at the same moment in each run that goes
/// on from it.
pub fn moments_stay()
    ensures starts { (system : System) (shorter longer : Run) → GoesOn shorter longer
        → (i k p t : ℕ)
        → Starts system shorter i k p t → Starts system longer i k p t }
    ensures finishes { (system : System) (shorter longer : Run) → GoesOn shorter longer
        → (i k p t : ℕ)
        → Finishes system shorter i k p t → Finishes system longer i k p t }
    ensures reads { (system : System) (shorter longer : Run) → GoesOn shorter longer → (i k p t : ℕ)
        → Reads system shorter i k p t → Reads system longer i k p t }
    ensures writes { (system : System) (shorter longer : Run) → GoesOn shorter longer
        → (i k p t : ℕ)
        → Writes system shorter i k p t → Writes system longer i k p t }
{}

/// In a legal run that goes on from a legal run, each further start or read lies at or after the
/// end of the shorter run, and each further finish or write lies after that end.
pub fn further_moments_come_later()
    ensures starts { (system : System) → IsSound system → (shorter longer : Run)
        → IsLegal system shorter → IsLegal system longer
        → GoesOn shorter longer → (i k p t : ℕ) → Starts system longer i k p t
        → t < shorter.table.ticks
        → Starts system shorter i k p t }
    ensures finishes { (system : System) → IsSound system → (shorter longer : Run)
        → IsLegal system shorter → IsLegal system longer
        → GoesOn shorter longer → (i k p t : ℕ) → Finishes system longer i k p t
        → t ≤ shorter.table.ticks
        → Finishes system shorter i k p t }
    ensures reads { (system : System) → IsSound system → (shorter longer : Run)
        → IsLegal system shorter → IsLegal system longer
        → GoesOn shorter longer → (i k p t : ℕ) → Reads system longer i k p t
        → t < shorter.table.ticks
        → Reads system shorter i k p t }
    ensures writes { (system : System) → IsSound system → (shorter longer : Run)
        → IsLegal system shorter → IsLegal system longer
        → GoesOn shorter longer → (i k p t : ℕ) → Writes system longer i k p t
        → t ≤ shorter.table.ticks
        → Writes system shorter i k p t }
{}

/// Each complete chain of a legal run is a complete chain of each legal run that goes on from it.
pub fn complete_chains_stay()
    ensures forward { (system : System) → IsSound system → (shorter longer : Run)
        → IsLegal system shorter → IsLegal system longer
        → GoesOn shorter longer → (groups : List Group) (chain : JobChain)
        → IsForwardChain (run_moments system shorter) groups chain
        → IsForwardChain (run_moments system longer) groups chain }
    ensures age { (system : System) → IsSound system → (shorter longer : Run)
        → IsLegal system shorter → IsLegal system longer
        → GoesOn shorter longer → (groups : List Group) (chain : JobChain)
        → IsAgeChain (run_moments system shorter) groups chain
        → IsAgeChain (run_moments system longer) groups chain }
    ensures reduced { (system : System) → IsSound system → (shorter longer : Run)
        → IsLegal system shorter → IsLegal system longer
        → GoesOn shorter longer → (groups : List Group) (chain : JobChain)
        → IsReducedChain (run_moments system shorter) groups chain
        → IsReducedChain (run_moments system longer) groups chain }
{}

/// A legal run that goes on from a legal run of a sound system has the same moments up to the end
/// of the shorter run and keeps its complete chains. There is such a run of every greater length.
pub fn legal_runs_have_continuations()
    ensures continuation { (system : System) → IsSound system → (shorter : Run)
        → IsLegal system shorter
        → (longer : Run) → IsLegal system longer → GoesOn shorter longer
        → IsContinuation system shorter longer }
    ensures every_length { (system : System) → IsSound system → (run : Run) → IsLegal system run
        → (ticks : ℕ) → run.table.ticks ≤ ticks → HasContinuation system run ticks }
{}
