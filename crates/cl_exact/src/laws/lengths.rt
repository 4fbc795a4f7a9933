//! Exact lengths themselves: each chain of timed and periodic tasks has one of each kind, with one
//! witness.
ghost use Rattle.std.specs.Prelude.{◌≡◌, ◌⊎◌, ◌↔◌, ℕ, ◌<◌, ◌≤◌, true, List, length};
ghost use Rattle.cl_model.specs.{declared.{model.SystemModel.SystemModel, group.Group.Group}, Groups.groups_at, Validity.IsValid};
ghost use Rattle.cl_runs.specs.{SystemOf.system_of, TaskTiming.System, Chains.{JobChain, first_job, last_job, IsForwardChain, IsAgeChain, IsReducedChain}, RunChains.ideal_moments};
ghost use Rattle.cl_exact.specs.{TimedPeriodic.{are_timed_periodic, is_timed_periodic_chain}, Ties.{AreTied, HasExactLengths}, ExactLengths.{Witnesses, AreExactLengths, IsSteadyForward, IsSteadyAge, IsSteadyReduced}, SteadyJobs.{first_steady_job, last_steady_job}, Rhythms.rhythms};
ghost use Rattle.cl_exact.specs.Hyperperiod.{hyper_limit, IsHyperperiod, IsWithinLimit, IsPastLimit};

/// A chain has at most one exact length of each kind, with one witness.
pub fn exact_lengths_are_unique()
    ensures { (system : System) (groups : List Group) (one other : Witnesses)
        → AreExactLengths system groups one → AreExactLengths system groups other → one ≡ other }
{}

/// A chain has at most one hyperperiod.
pub fn one_hyperperiod()
    ensures { (system : System) (groups : List Group) (one other : ℕ)
        → IsHyperperiod system groups one → IsHyperperiod system groups other → one ≡ other }
{}

/// The hyperperiod of a chain is never both within the limit and past it. That of each chain of a
/// valid model whose tasks are all timed and periodic is one of the two.
pub fn chains_are_within_the_limit_or_past_it()
    ensures not_both { (system : System) (groups : List Group) → IsWithinLimit system groups
        → IsPastLimit system groups → ⊥ }
    ensures either { (model : SystemModel) → IsValid model → (chain : ℕ)
        → chain < length model.chains
        → is_timed_periodic_chain model chain ≡ true
        → IsWithinLimit (system_of model) (groups_at model chain)
        ⊎ IsPastLimit (system_of model) (groups_at model chain) }
{}

/// A chain of a valid model whose tasks are all timed and periodic has exact lengths, whatever its
/// hyperperiod.
pub fn exact_lengths_exist()
    ensures { (model : SystemModel) → IsValid model → (chain : ℕ) → chain < length model.chains
        → is_timed_periodic_chain model chain ≡ true
        → HasExactLengths (system_of model) (groups_at model chain) }
{}

/// The exact reaction of a chain of a valid model whose tasks are all timed and periodic equals its
/// exact age. Its exact reduced age is that age less the period of its last task, with the same
/// jobs.
pub fn exact_lengths_are_tied()
    ensures { (model : SystemModel) → IsValid model → (chain : ℕ) → chain < length model.chains
        → is_timed_periodic_chain model chain ≡ true
        → (exact : Witnesses) → AreExactLengths (system_of model) (groups_at model chain) exact
        → AreTied (system_of model) (groups_at model chain) exact }
{}

/// Exact lengths, whether there are any, and the limit on the hyperperiod depend on the rhythms of
/// groups alone: groups of the same rhythms, maybe of two systems, have the same.
pub fn same_rhythms_have_same_lengths()
    ensures lengths { (one other : System) (groups others : List Group)
        → rhythms one groups ≡ rhythms other others
        → (exact : Witnesses) → AreExactLengths one groups exact → AreExactLengths other others exact }
    ensures timed { (one other : System) (groups others : List Group)
        → rhythms one groups ≡ rhythms other others
        → are_timed_periodic one groups ≡ are_timed_periodic other others }
    ensures limit { (one other : System) (groups others : List Group)
        → rhythms one groups ≡ rhythms other others → 0 < length groups
        → hyper_limit one groups ≡ hyper_limit other others }
    ensures within { (one other : System) (groups others : List Group)
        → rhythms one groups ≡ rhythms other others → 0 < length groups
        → IsWithinLimit one groups → IsWithinLimit other others }
    ensures past { (one other : System) (groups others : List Group)
        → rhythms one groups ≡ rhythms other others → 0 < length groups
        → IsPastLimit one groups → IsPastLimit other others }
{}

/// Where the tasks of a chain of a valid model are all timed and periodic, a complete forward chain
/// counts for its exact lengths exactly where its first job is `first_steady_job` or later, and a
/// complete backward chain exactly where its last job is `last_steady_job` or later.
pub fn steady_chains_have_late_jobs()
    ensures forward { (model : SystemModel) → IsValid model → (chain : ℕ)
        → chain < length model.chains
        → is_timed_periodic_chain model chain ≡ true
        → (jobs : JobChain) → IsForwardChain (ideal_moments (system_of model)) (groups_at model chain) jobs
        → (IsSteadyForward (system_of model) (groups_at model chain) jobs)
        ↔ (first_steady_job (system_of model) (groups_at model chain) ≤ first_job jobs) }
    ensures age { (model : SystemModel) → IsValid model → (chain : ℕ) → chain < length model.chains
        → is_timed_periodic_chain model chain ≡ true
        → (jobs : JobChain) → IsAgeChain (ideal_moments (system_of model)) (groups_at model chain) jobs
        → (IsSteadyAge (system_of model) (groups_at model chain) jobs)
        ↔ (last_steady_job (system_of model) (groups_at model chain) ≤ last_job jobs) }
    ensures reduced { (model : SystemModel) → IsValid model → (chain : ℕ)
        → chain < length model.chains
        → is_timed_periodic_chain model chain ≡ true
        → (jobs : JobChain) → IsReducedChain (ideal_moments (system_of model)) (groups_at model chain) jobs
        → (IsSteadyReduced (system_of model) (groups_at model chain) jobs)
        ↔ (last_steady_job (system_of model) (groups_at model chain) ≤ last_job jobs) }
{}
