//! Chains of timed and periodic tasks in legal runs, where none of the tasks is late: they read and
//! write at their ideal moments, so their exact lengths are the greatest over all legal runs.
ghost use Rattle.std.specs.Prelude.{◌≡◌, ℕ, true, List, All};
ghost use Rattle.cl_model.specs.{declared.{group.Group.Group, model.SystemModel.SystemModel}, Groups.groups_at, Validity.IsValid};
ghost use Rattle.cl_runs.specs.{TaskTiming.{System, IsSound}, SystemOf.system_of, Run.Run, Legal.IsLegal};
ghost use Rattle.cl_exact.specs.{TimedPeriodic.is_timed_periodic_chain, ExactLengths.{Witnesses, AreExactLengths}, RunPromises.{HaveResponses, IsSettledTimedChain, IsIdealUntilTheEnd, AreIdealUntilTheEnd, AreExactInRuns, HasWitnessRun}};

/// A chain of a valid model whose tasks are all timed and periodic, and none of them late, is a
/// settled timed chain.
pub fn timed_chains_of_models()
    ensures { (model : SystemModel) → IsValid model → (chain : ℕ)
        → is_timed_periodic_chain model chain ≡ true
        → HaveResponses (system_of model) (groups_at model chain)
        → IsSettledTimedChain (system_of model) (groups_at model chain) }
{}

/// In a legal run, each group of a settled timed chain reads and writes at its ideal moments until
/// the run ends.
pub fn groups_are_ideal_until_the_end()
    ensures { (system : System) → IsSound system → (groups : List Group)
        → IsSettledTimedChain system groups
        → (run : Run) → IsLegal system run → All (IsIdealUntilTheEnd system run) groups }
{}

/// The complete job chains of a settled timed chain in a legal run are exactly those over its ideal
/// moments that are complete by the end of the run.
pub fn chains_are_ideal_until_the_end()
    ensures { (system : System) → IsSound system → (groups : List Group)
        → IsSettledTimedChain system groups
        → (run : Run) → IsLegal system run → AreIdealUntilTheEnd system groups run }
{}

/// The exact lengths of a settled timed chain are exact: in every legal run, of any length, no
/// complete chain is longer, and each witness is a complete chain if the run lasts to its end or,
/// for the reduced age, one period of the last task longer.
pub fn exact_lengths_are_exact()
    ensures systems { (system : System) → IsSound system → (groups : List Group)
        → IsSettledTimedChain system groups
        → (exact : Witnesses) → AreExactLengths system groups exact
        → AreExactInRuns system groups exact }
    // so are those of a chain of a valid model whose tasks are all timed and periodic, and none of
    // them late
    ensures models { (model : SystemModel) → IsValid model → (chain : ℕ)
        → is_timed_periodic_chain model chain ≡ true
        → HaveResponses (system_of model) (groups_at model chain)
        → (exact : Witnesses) → AreExactLengths (system_of model) (groups_at model chain) exact
        → AreExactInRuns (system_of model) (groups_at model chain) exact }
{}

/// For the exact lengths of a settled timed chain there is a legal run in which all three witnesses
/// are complete chains.
pub fn exact_lengths_occur()
    ensures { (system : System) → IsSound system → (groups : List Group)
        → IsSettledTimedChain system groups
        → (exact : Witnesses) → AreExactLengths system groups exact
        → HasWitnessRun system groups exact }
{}
