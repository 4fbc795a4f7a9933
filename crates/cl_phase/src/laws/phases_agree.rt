//! Phases: the walks from each group that keeps its phase give the same bounds.
ghost use Rattle.std.specs.Prelude.{◌≡◌, ℕ, ◌<◌, List, length, All};
ghost use Rattle.cl_model.specs.declared.group.Group.{Group};
ghost use Rattle.cl_runs.specs.TaskTiming.{System, IsSound};
ghost use Rattle.cl_stim.specs.declared.phase.Phase.{Phase};
ghost use Rattle.cl_hop.specs.{Timings.IsGroupOfTask, declared.group_timing.GroupTiming.GroupTiming};
ghost use Rattle.cl_phase.specs.{declared.pace.Pace.TheVariants.Kept, Walks.pace_at, TightBounds.{stops_of, span_of, last_write, bounds_from, tight_bounds}};

/// The walks from any group that keeps its phase give the tight bounds of the chain, whatever is
/// known of its groups, so nothing depends on the choice of the group with the fewest arrivals.
pub fn phases_give_the_same_bounds()
    ensures { (system : System) → IsSound system
        → (timing : Group → GroupTiming) (groups : List Group)
        → All (IsGroupOfTask system) groups
        → (place : ℕ) → place < length groups → (phase : Phase)
        → pace_at (stops_of system timing groups) place ≡ Kept phase
        → bounds_from (stops_of system timing groups) (span_of timing groups)
        (last_write timing groups) place
        ≡ tight_bounds system timing groups }
{}
