//! Complete job chains: each is determined by its first or last job, and ends after it begins.
ghost use Rattle.std.specs.Prelude.{◌≡◌, ◌<◌, List, Option};
ghost use Rattle.cl_runs.specs.{TaskTiming.{System, IsSound}, Run.Run, Legal.IsLegal, Chains.{JobChain, first_job, last_job, IsForwardChain, IsAgeChain, IsReducedChain}, RunChains.{run_moments, ideal_moments}, MomentOrder.AreGroupsOf, SameMoments.HaveSameMoments, Measured.Measured};
ghost use Rattle.cl_runs.specs.Measured.{IsMeasured, IsMeasuredBy};
ghost use Rattle.cl_model.specs.{declared.group.{Group.Group, Step.Step}, Groups.groups};

/// Complete job chains over ideal moments depend on those of their groups alone: groups that read
/// and write alike, place by place, have the same chains.
pub fn same_moments_have_same_chains()
    ensures forward { (one other : System) (groups others : List Group)
        → HaveSameMoments (ideal_moments one) (ideal_moments other) groups others
        → (chain : JobChain) → IsForwardChain (ideal_moments one) groups chain
        → IsForwardChain (ideal_moments other) others chain }
    ensures age { (one other : System) (groups others : List Group)
        → HaveSameMoments (ideal_moments one) (ideal_moments other) groups others
        → (chain : JobChain) → IsAgeChain (ideal_moments one) groups chain
        → IsAgeChain (ideal_moments other) others chain }
    ensures reduced { (one other : System) (groups others : List Group)
        → HaveSameMoments (ideal_moments one) (ideal_moments other) groups others
        → (chain : JobChain) → IsReducedChain (ideal_moments one) groups chain
        → IsReducedChain (ideal_moments other) others chain }
{}

/// Over the same groups a run has at most one complete forward chain with a given first job, and at
/// most one complete backward chain with a given last job, be it for the age or for the reduced
/// age.
pub fn complete_chains_are_unique()
    ensures forward { (system : System) (run : Run) (groups : List Group) (one other : JobChain)
        → IsForwardChain (run_moments system run) groups one
        → IsForwardChain (run_moments system run) groups other
        → first_job one ≡ first_job other → one ≡ other }
    ensures age { (system : System) (run : Run) (groups : List Group) (one other : JobChain)
        → IsAgeChain (run_moments system run) groups one
        → IsAgeChain (run_moments system run) groups other
        → last_job one ≡ last_job other → one ≡ other }
    ensures reduced { (system : System) (run : Run) (groups : List Group) (one other : JobChain)
        → IsReducedChain (run_moments system run) groups one
        → IsReducedChain (run_moments system run) groups other
        → last_job one ≡ last_job other → one ≡ other }
{}

/// A complete chain of a legal run ends after it begins, so its length is the difference of its
/// ends.
pub fn complete_chains_end_later()
    ensures forward { (system : System) → IsSound system → (run : Run) → IsLegal system run
        → (steps : List Step) (chain : JobChain)
        → IsForwardChain (run_moments system run) (groups steps) chain → chain.from < chain.to }
    ensures age { (system : System) → IsSound system → (run : Run) → IsLegal system run
        → (steps : List Step) (chain : JobChain)
        → IsAgeChain (run_moments system run) (groups steps) chain → chain.from < chain.to }
    ensures reduced { (system : System) → IsSound system → (run : Run) → IsLegal system run
        → (steps : List Step) (chain : JobChain)
        → IsReducedChain (run_moments system run) (groups steps) chain → chain.from < chain.to }
{}

/// Over the ideal moments of periodic timed tasks the same groups have at most one complete forward
/// chain with a given first job, and at most one complete backward chain with a given last job, be
/// it for the age or for the reduced age.
pub fn ideal_chains_are_unique()
    ensures forward { (system : System) (groups : List Group) (one other : JobChain)
        → IsForwardChain (ideal_moments system) groups one
        → IsForwardChain (ideal_moments system) groups other
        → first_job one ≡ first_job other → one ≡ other }
    ensures age { (system : System) (groups : List Group) (one other : JobChain)
        → IsAgeChain (ideal_moments system) groups one
        → IsAgeChain (ideal_moments system) groups other
        → last_job one ≡ last_job other → one ≡ other }
    ensures reduced { (system : System) (groups : List Group) (one other : JobChain)
        → IsReducedChain (ideal_moments system) groups one
        → IsReducedChain (ideal_moments system) groups other
        → last_job one ≡ last_job other → one ≡ other }
{}

/// A complete chain over the ideal moments of periodic timed tasks ends after it begins.
pub fn ideal_chains_end_later()
    ensures forward { (system : System) → IsSound system → (groups : List Group)
        → AreGroupsOf system groups → (chain : JobChain)
        → IsForwardChain (ideal_moments system) groups chain → chain.from < chain.to }
    ensures age { (system : System) → IsSound system → (groups : List Group)
        → AreGroupsOf system groups → (chain : JobChain)
        → IsAgeChain (ideal_moments system) groups chain → chain.from < chain.to }
    ensures reduced { (system : System) → IsSound system → (groups : List Group)
        → AreGroupsOf system groups → (chain : JobChain)
        → IsReducedChain (ideal_moments system) groups chain → chain.from < chain.to }
{}

/// The measured chains of a run over given groups and the numbers of its complete chains are
/// unique.
pub fn what_is_measured_is_unique()
    ensures { (system : System) (run : Run) (groups : List Group) (one other : Measured)
        → IsMeasured (run_moments system run) groups one
        → IsMeasured (run_moments system run) groups other → one ≡ other }
{}

/// Over the ideal moments, which no run ends, the longest complete chain of each kind is unique:
/// among equals it is the one with the least first job for a forward chain, and with the least last
/// job for a backward chain.
pub fn longest_ideal_chains_are_unique()
    ensures forward { (system : System) (groups : List Group) (one other : Option JobChain)
        → IsMeasuredBy (IsForwardChain (ideal_moments system) groups) first_job one
        → IsMeasuredBy (IsForwardChain (ideal_moments system) groups) first_job other
        → one ≡ other }
    ensures age { (system : System) (groups : List Group) (one other : Option JobChain)
        → IsMeasuredBy (IsAgeChain (ideal_moments system) groups) last_job one
        → IsMeasuredBy (IsAgeChain (ideal_moments system) groups) last_job other → one ≡ other }
    ensures reduced { (system : System) (groups : List Group) (one other : Option JobChain)
        → IsMeasuredBy (IsReducedChain (ideal_moments system) groups) last_job one
        → IsMeasuredBy (IsReducedChain (ideal_moments system) groups) last_job other → one ≡ other }
{}
