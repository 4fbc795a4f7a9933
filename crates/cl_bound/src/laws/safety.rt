//! Safety: no complete chain of a legal run is longer than the bounds say.
ghost use Rattle.std.specs.Prelude.{List, map, All};
ghost use Rattle.cl_model.specs.declared.group.Group.{Group};
ghost use Rattle.cl_runs.specs.TaskTiming.{System, IsSound};
ghost use Rattle.cl_hop.specs.{Bounds.{Lengths, AreBoundsOf}, Promises.AreSafe, Timings.AlwaysKeeps, declared.group_timing.GroupTiming.GroupTiming};
ghost use Rattle.cl_bound.specs.{Bounds.bounds_of, SettledChains.IsSettledChain};

/// The bounds of a settled chain, and those over any timings that always hold, are at least the
/// reaction, the age and the reduced age of each complete job chain, and each delay, in each legal
/// run, of any length.
pub fn bounds_are_safe()
    ensures settled { (system : System) → IsSound system → (groups : List Group)
        → IsSettledChain system groups
        → AreSafe system groups (bounds_of system groups) }
    ensures kept { (system : System) → IsSound system
        → (timing : Group → GroupTiming) (groups : List Group)
        → All (λ (group : Group). AlwaysKeeps system group (timing group)) groups
        → (bounds : Lengths) → AreBoundsOf (map timing groups) bounds
        → AreSafe system groups bounds }
{}
