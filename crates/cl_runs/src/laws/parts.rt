//! Parts of complete chains.
ghost use Rattle.std.specs.Prelude.{ℕ, ◌+◌, ◌-◌, ◌<◌, ◌≤◌, List, length, take, drop, slice_index};
ghost use Rattle.cl_runs.specs.{TaskTiming.System, Run.Run, Chains.{JobChain, IsForwardChain}, RunChains.run_moments};
ghost use Rattle.cl_model.specs.{declared.group.Group.Group, Groups.group_at};

/// Consecutive groups of a complete forward chain, with their jobs, form a complete forward chain
/// of their own: from a read of the job before the first of these jobs to a write of the last of
/// them.
pub fn parts_of_chains_are_complete()
    ensures { (system : System) (run : Run) (groups : List Group) (chain : JobChain)
        → IsForwardChain (run_moments system run) groups chain
        → (first count : ℕ) → 0 < count → first + count ≤ length groups → (from to : ℕ)
        → (run_moments system run).reads (group_at groups first) (slice_index chain.jobs first - 1) from
        → (run_moments system run).writes (group_at groups (first + (count - 1))) (slice_index chain.jobs (first + (count - 1))) to
        → IsForwardChain (run_moments system run) (take count (drop first groups))
        (record { from = from; to = to; jobs = take count (drop first chain.jobs) }) }
{}
