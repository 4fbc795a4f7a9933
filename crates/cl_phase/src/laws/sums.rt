//! Tight bounds, compared with the sums of hops that are the bounds of a chain, with those over
//! wider windows, and with those of other systems.
ghost use Rattle.std.specs.Prelude.{◌≡◌, ℕ, ◌<◌, List, length, map, All};
ghost use Rattle.cl_model.specs.declared.group.Group.{Group};
ghost use Rattle.cl_runs.specs.TaskTiming.{System, timing_at, IsSound};
ghost use Rattle.cl_hop.specs.{Bounds.{Lengths, AreBoundsOf}, NoGreater.{StaysWithin, AreNoGreater}, Timings.{IsGroupOfTask, IsTimingOf}, declared.group_timing.GroupTiming.GroupTiming};
ghost use Rattle.cl_phase.specs.TightBounds.{tight_bounds};

/// No tight bound of a list of groups is greater than the sum of hops of its kind over the same
/// timings, nor than the tight bound over others that read no later and write no earlier.
pub fn tight_bounds_are_no_greater()
    // over the same timings, whatever their windows are
    ensures sums { (system : System) → IsSound system
        → (timing : Group → GroupTiming) (groups : List Group)
        → All (IsGroupOfTask system) groups
        → All (λ (group : Group). IsTimingOf system group (timing group)) groups
        → 0 < length groups → (sums : Lengths)
        → AreBoundsOf (map timing groups) sums
        → AreNoGreater (tight_bounds system timing groups) sums }
    // over timings that stay within others
    ensures within { (system : System) → IsSound system
        → (timing other : Group → GroupTiming) (groups : List Group)
        → All (IsGroupOfTask system) groups
        → All (λ (group : Group). StaysWithin (timing group) (other group)) groups
        → AreNoGreater (tight_bounds system timing groups) (tight_bounds system other groups) }
{}

/// Tight bounds rest on no more of a system than the arrival patterns of its tasks: over the same
/// timings they are the same in two systems whose tasks, number by number, have the same patterns.
pub fn tight_bounds_rest_on_patterns()
    ensures { (one other : System)
        → ((task : ℕ) → (timing_at one task).pattern ≡ (timing_at other task).pattern)
        → (timing : Group → GroupTiming) (groups : List Group)
        → tight_bounds one timing groups ≡ tight_bounds other timing groups }
{}
