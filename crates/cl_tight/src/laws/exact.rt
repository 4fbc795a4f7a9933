//! Exact lengths: where the report computes them, tight bounds are exact.
ghost use Rattle.std.specs.Prelude.{◌≡◌, ℕ, ◌<◌, ◌≤◌, true, List, length, All};
ghost use Rattle.cl_model.specs.{declared.{group.Group.Group, limits.TheConstants.MOST_STEPS, model.SystemModel.SystemModel}, Groups.{IsGroupOf, groups_at}, Kinds.is_timed, Validity.IsValid};
ghost use Rattle.cl_runs.specs.{SystemOf.system_of, TaskTiming.{System, timing_at}};
ghost use Rattle.cl_hop.specs.declared.group_timing.GroupTiming.{GroupTiming};
ghost use Rattle.cl_exact.specs.{TimedPeriodic.{are_timed_periodic, is_timed_periodic_chain}, Hyperperiod.IsWithinLimit, ExactLengths.{Witnesses, AreExactLengths}};
ghost use Rattle.cl_phase.specs.TightBounds.{tight_bounds};
ghost use Rattle.cl_tight.specs.{ExactBounds.{AreLengthsOf, IsTimedTiming}, TightTimings.tight_timing};

/// If the tasks of a chain of a valid model, or of a part of one, are all timed and periodic, and
/// their hyperperiod is within the limit, the tight bounds are the exact lengths, over any timings
/// that say that timed jobs read at their arrivals and write at their deadlines.
pub fn tight_bounds_are_exact_lengths()
    ensures groups { (model : SystemModel) → IsValid model → (timing : Group → GroupTiming)
        → (groups : List Group)
        → 0 < length groups → length groups ≤ MOST_STEPS → All (IsGroupOf model) groups
        → are_timed_periodic (system_of model) groups ≡ true
        → All (λ (group : Group). IsTimedTiming (system_of model) group (timing group)) groups
        → IsWithinLimit (system_of model) groups
        → (exact : Witnesses) → AreExactLengths (system_of model) groups exact
        → AreLengthsOf (tight_bounds (system_of model) timing groups) exact }
    ensures chain { (model : SystemModel) → IsValid model → (timing : Group → GroupTiming)
        → (chain : ℕ)
        → chain < length model.chains
        → is_timed_periodic_chain model chain ≡ true
        → All (λ (group : Group). IsTimedTiming (system_of model) group (timing group))
        (groups_at model chain)
        → IsWithinLimit (system_of model) (groups_at model chain)
        → (exact : Witnesses) → AreExactLengths (system_of model) (groups_at model chain) exact
        → AreLengthsOf (tight_bounds (system_of model) timing (groups_at model chain)) exact }
{}

/// What tight bounds know of a timed group is that its jobs read at their arrivals and write at
/// their deadlines.
pub fn timed_groups_have_timed_timings()
    ensures { (system : System) (group : Group)
        → is_timed (timing_at system group.task).access ≡ true
        → IsTimedTiming system group (tight_timing system group) }
{}
