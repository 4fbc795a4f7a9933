//! Tight delays beside tight reactions, and when groups read.
ghost use Rattle.std.specs.Prelude.{◌≡◌, ℕ, ◌+◌, ◌<◌, ◌≤◌, true, List, length, All};
ghost use Rattle.cl_model.specs.declared.{group.Group.Group, stimulus.StimulusKind.TheVariants.Periodic};
ghost use Rattle.cl_runs.specs.{TaskTiming.{System, timing_at, IsSound}, Chains.first_group};
ghost use Rattle.cl_hop.specs.{Timings.{IsGroupOfTask, AlwaysKeeps}, declared.group_timing.GroupTiming.GroupTiming};
ghost use Rattle.cl_phase.specs.{EarlyReads.ReadsBeforeNext, TightBounds.tight_bounds};

/// Where the first group reads before its next job arrives, the tight delay is at most the tight
/// reaction. Where the first task is periodic and timed, it is the reaction less the period.
pub fn tight_delays_are_within_reactions()
    ensures reaction { (system : System) → IsSound system
        → (timing : Group → GroupTiming) (groups : List Group)
        → All (IsGroupOfTask system) groups
        → ReadsBeforeNext system (first_group groups) (timing (first_group groups))
        → (tight_bounds system timing groups).delay
        ≤ (tight_bounds system timing groups).reaction }
    ensures timed { (system : System) → IsSound system
        → (timing : Group → GroupTiming) (groups : List Group) → 0 < length groups
        → All (λ (group : Group). AlwaysKeeps system group (timing group)) groups
        → (timing (first_group groups)).is_timed ≡ true
        → (period offset jitter : ℕ)
        → (timing_at system (first_group groups).task).pattern ≡ Periodic period offset jitter
        → (tight_bounds system timing groups).delay + period
        ≡ (tight_bounds system timing groups).reaction }
{}

/// A group that always writes by its task's deadline reads before its next job arrives.
pub fn groups_read_before_next()
    ensures { (system : System) → IsSound system
        → (group : Group) (timing : GroupTiming) → AlwaysKeeps system group timing
        → timing.write ≤ (timing_at system group.task).deadline
        → ReadsBeforeNext system group timing }
{}
