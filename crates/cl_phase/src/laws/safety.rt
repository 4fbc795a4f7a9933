//! Safety of tight bounds: no complete chain of a legal run is longer.
ghost use Rattle.std.specs.Prelude.{List, All};
ghost use Rattle.cl_model.specs.declared.group.Group.{Group};
ghost use Rattle.cl_runs.specs.TaskTiming.{System, IsSound};
ghost use Rattle.cl_hop.specs.{Promises.AreSafe, Timings.AlwaysKeeps, declared.group_timing.GroupTiming.GroupTiming};
ghost use Rattle.cl_phase.specs.TightBounds.{tight_bounds};

/// The tight bounds of groups over timings that always hold are at least the reaction, the age and
/// the reduced age of each of their complete chains, and each delay, in each legal run, of any
/// length.
pub fn tight_bounds_are_safe()
    ensures { (system : System) → IsSound system
        → (timing : Group → GroupTiming) (groups : List Group)
        → All (λ (group : Group). AlwaysKeeps system group (timing group)) groups
        → AreSafe system groups (tight_bounds system timing groups) }
{}
