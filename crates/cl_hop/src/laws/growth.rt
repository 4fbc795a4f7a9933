//! Smaller responses never make bounds greater.
ghost use Rattle.std.specs.Prelude.{ℕ, ◌≤◌, List, map, All};
ghost use Rattle.cl_model.specs.declared.group.Group.{Group};
ghost use Rattle.cl_runs.specs.TaskTiming.{System};
ghost use Rattle.cl_hop.specs.{declared.group_timing.GroupTiming.GroupTiming, Bounds.{Lengths, AreBoundsOf}, Hops.group_timing, NoGreater.{StaysWithin, AreNoGreater}};

/// Smaller responses never make bounds greater: the window of a group stays within another where
/// the response of its task is no greater, and where the windows of groups stay within others, none
/// of their bounds is greater.
pub fn bounds_grow_with_responses()
    ensures writes { (system : System) (responses others : ℕ → ℕ) (group : Group)
        → responses group.task ≤ others group.task
        → StaysWithin (group_timing system responses group) (group_timing system others group) }
    ensures bounds { (timing other : Group → GroupTiming) (groups : List Group)
        → All (λ (group : Group). StaysWithin (timing group) (other group)) groups
        → (bounds others : Lengths) → AreBoundsOf (map timing groups) bounds
        → AreBoundsOf (map other groups) others
        → AreNoGreater bounds others }
{}
