//! The bound on the delay of a settled chain beside the bound on its reaction.
ghost use Rattle.std.specs.Prelude.{◌≡◌, ◌+◌, ◌<◌, ◌≤◌, List, length};
ghost use Rattle.cl_model.specs.{declared.{group.Group.Group, task.AccessKind.TheVariants.Timed}, Timing.greatest_distance};
ghost use Rattle.cl_runs.specs.{TaskTiming.{System, timing_at, IsSound}, Chains.first_group};
ghost use Rattle.cl_bound.specs.{Bounds.bounds_of, SettledChains.IsSettledChain};

/// The bound on the delay of a settled chain is at most the bound on its reaction. Where the first
/// task is timed, the reaction's is as much greater as its arrivals are apart at most.
pub fn delays_are_within_reactions()
    ensures reaction { (system : System) → IsSound system → (groups : List Group)
        → IsSettledChain system groups
        → (bounds_of system groups).delay ≤ (bounds_of system groups).reaction }
    ensures timed { (system : System) → IsSound system → (groups : List Group)
        → IsSettledChain system groups → 0 < length groups
        → (timing_at system (first_group groups).task).access ≡ Timed
        → (bounds_of system groups).delay
        + greatest_distance (timing_at system (first_group groups).task).pattern
        ≡ (bounds_of system groups).reaction }
{}
