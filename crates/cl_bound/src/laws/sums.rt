//! The bounds of a settled chain are the sums that define them. They are positive and at most two
//! of the greatest distances for each group, and the same for the reaction and the age.
ghost use Rattle.std.specs.Prelude.{◌≡◌, ℕ, ◌*◌, ◌<◌, ◌≤◌, List, length, map};
ghost use Rattle.cl_model.specs.declared.group.Group.{Group};
ghost use Rattle.cl_runs.specs.TaskTiming.{System, IsSound};
ghost use Rattle.cl_hop.specs.{declared.group_timing.GroupTiming.GroupTiming, Bounds.{greatest_reaction, greatest_age, Lengths, AreBoundsOf}, Ends.{ends_of, lags}};
ghost use Rattle.cl_bound.specs.{Bounds.{settled_timings, bounds_of}, SettledChains.{IsSettledChain, AreWithin}};

/// The bounds that `bounds_of` gives for a settled chain are the sums over signed numbers that
/// define them, and no other numbers are.
pub fn bounds_are_sums()
    ensures are { (system : System) → IsSound system → (groups : List Group)
        → IsSettledChain system groups
        → AreBoundsOf (settled_timings system groups) (bounds_of system groups) }
    ensures alone { (system : System) (groups : List Group) (bounds : Lengths)
        → AreBoundsOf (settled_timings system groups) bounds → bounds ≡ bounds_of system groups }
{}

/// Bounds depend on the ends of groups and on the lags of hops alone.
pub fn same_ends_and_lags_have_same_bounds()
    ensures { (one other : System) (groups others : List Group)
        → map ends_of (settled_timings one groups) ≡ map ends_of (settled_timings other others)
        → lags (settled_timings one groups) ≡ lags (settled_timings other others)
        → bounds_of one groups ≡ bounds_of other others }
{}

/// Each bound of a settled chain of one group or more is 1 tick or more.
pub fn bounds_are_positive()
    ensures reaction { (system : System) → IsSound system → (groups : List Group)
        → IsSettledChain system groups
        → 0 < length groups → 1 ≤ (bounds_of system groups).reaction }
    ensures age { (system : System) → IsSound system → (groups : List Group)
        → IsSettledChain system groups
        → 0 < length groups → 1 ≤ (bounds_of system groups).age }
    ensures reduced { (system : System) → IsSound system → (groups : List Group)
        → IsSettledChain system groups
        → 0 < length groups → 1 ≤ (bounds_of system groups).reduced }
    ensures delay { (system : System) → IsSound system → (groups : List Group)
        → IsSettledChain system groups
        → 0 < length groups → 1 ≤ (bounds_of system groups).delay }
{}

/// Each bound of a settled chain is at most twice the number of its groups times the greatest
/// distance between arrivals of any of them.
pub fn bounds_are_limited()
    ensures reaction { (system : System) → IsSound system → (groups : List Group)
        → IsSettledChain system groups → (most : ℕ)
        → AreWithin system most groups → (bounds_of system groups).reaction
        ≤ 2 * length groups * most }
    ensures age { (system : System) → IsSound system → (groups : List Group)
        → IsSettledChain system groups → (most : ℕ)
        → AreWithin system most groups → (bounds_of system groups).age ≤ 2 * length groups * most }
    ensures reduced { (system : System) → IsSound system → (groups : List Group)
        → IsSettledChain system groups → (most : ℕ)
        → AreWithin system most groups → (bounds_of system groups).reduced
        ≤ 2 * length groups * most }
    ensures delay { (system : System) → IsSound system → (groups : List Group)
        → IsSettledChain system groups → (most : ℕ)
        → AreWithin system most groups → (bounds_of system groups).delay
        ≤ 2 * length groups * most }
{}

/// The bound on the reaction equals the bound on the age, for any groups with any timing, and so
/// for the groups of any system.
pub fn reaction_equals_age()
    ensures sums { (groups : List GroupTiming) → greatest_reaction groups ≡ greatest_age groups }
    ensures bounds { (system : System) (groups : List Group)
        → (bounds_of system groups).reaction ≡ (bounds_of system groups).age }
{}
