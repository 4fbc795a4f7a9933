//! Complete chains: groups whose timings always hold have some of each kind, so their tight bounds
//! are 1 tick or more.
ghost use Rattle.std.specs.Prelude.{◌<◌, List, length, All};
ghost use Rattle.cl_model.specs.declared.group.Group.{Group};
ghost use Rattle.cl_runs.specs.TaskTiming.{System, IsSound};
ghost use Rattle.cl_hop.specs.{Timings.AlwaysKeeps, declared.group_timing.GroupTiming.GroupTiming};
ghost use Rattle.cl_phase.specs.{CompleteChains.{HasCompleteChains, AreSomeTicks}, TightBounds.tight_bounds};

/// Some legal run has complete chains of each kind along groups whose timings always hold, and each
/// of them lasts 1 tick or more.
pub fn kept_chains_complete()
    ensures { (system : System) → IsSound system
        → (timing : Group → GroupTiming) (groups : List Group)
        → 0 < length groups
        → All (λ (group : Group). AlwaysKeeps system group (timing group)) groups
        → HasCompleteChains system groups }
{}

/// So each tight bound of such groups is 1 tick or more.
pub fn tight_bounds_take_time()
    ensures { (system : System) → IsSound system
        → (timing : Group → GroupTiming) (groups : List Group)
        → 0 < length groups
        → All (λ (group : Group). AlwaysKeeps system group (timing group)) groups
        → AreSomeTicks (tight_bounds system timing groups) }
{}
