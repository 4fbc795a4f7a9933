//! The first jobs of one hyperperiod show all lengths.
ghost use Rattle.std.specs.Prelude.{◌≡◌, ℕ, ◌<◌, ◌≤◌, true, length};
ghost use Rattle.cl_model.specs.{declared.model.SystemModel.SystemModel, Groups.groups_at, Validity.IsValid};
ghost use Rattle.cl_runs.specs.{SystemOf.system_of, Chains.JobChain};
ghost use Rattle.cl_exact.specs.{TimedPeriodic.is_timed_periodic_chain, Hyperperiod.IsMultipleOfPeriods, ExactLengths.IsSteadyForward, Turns.HasEarlyTwin};

/// Where the tasks of a chain of a valid model are all timed and periodic, each forward chain that
/// counts for its exact reaction is as long as one that begins less than a hyperperiod, or any
/// other common multiple of the periods, after the first that counts. So the greatest reaction over
/// one hyperperiod is the greatest over all.
pub fn one_hyperperiod_shows_all()
    ensures { (model : SystemModel) → IsValid model → (chain : ℕ) → chain < length model.chains
        → is_timed_periodic_chain model chain ≡ true
        → (ticks : ℕ) → 1 ≤ ticks → IsMultipleOfPeriods (system_of model) (groups_at model chain) ticks
        → (jobs : JobChain) → IsSteadyForward (system_of model) (groups_at model chain) jobs
        → HasEarlyTwin (IsSteadyForward (system_of model) (groups_at model chain)) ticks jobs }
{}
