//! Earliest readers and latest writers over ideal moments: each relation says the same as the
//! other, seen from the other side.
ghost use Rattle.std.specs.Prelude.{ℕ, suc, ◌-◌, ◌<◌, ◌≤◌, ◌↔◌, List, length, slice_index};
ghost use Rattle.cl_model.specs.{declared.group.Group.Group, Groups.group_at};
ghost use Rattle.cl_runs.specs.{TaskTiming.{System, IsSound}, Chains.{IsEarliestReader, IsLatestWriter, JobChain, first_job, last_job, IsForwardChain, AreBackwardLinks}, RunChains.ideal_moments, MomentOrder.AreGroupsOf};
ghost use Rattle.cl_exact.specs.Hops.{HasNoWriter};

/// Over ideal moments of neighbouring groups, the earliest reader of a writing job is at or before
/// a reading job exactly where the writing job is at or before the latest writer for that reading
/// job. If a reading job has no writer, each earliest reader comes after it.
pub fn readers_follow_writers()
    ensures within { (system : System) → IsSound system → (groups : List Group)
        → AreGroupsOf system groups
        → (i writing first reading last : ℕ) → suc i < length groups
        → IsEarliestReader (ideal_moments system) (group_at groups i) (group_at groups (suc i)) writing first
        → IsLatestWriter (ideal_moments system) (group_at groups i) (group_at groups (suc i)) last reading
        → (first ≤ reading) ↔ (writing ≤ last) }
    ensures none { (system : System) → IsSound system → (groups : List Group)
        → AreGroupsOf system groups
        → (i writing first reading : ℕ) → suc i < length groups
        → IsEarliestReader (ideal_moments system) (group_at groups i) (group_at groups (suc i)) writing first
        → HasNoWriter (ideal_moments system) (group_at groups i) (group_at groups (suc i)) reading
        → reading < first }
{}

/// Over ideal moments, the last job of a complete forward chain is at or before the last job of a
/// complete backward chain exactly where the first job of the forward chain is at or before the
/// first job of the backward one.
pub fn forward_chains_follow_backward_chains()
    ensures { (system : System) → IsSound system → (groups : List Group) → AreGroupsOf system groups
        → (chain : JobChain) (jobs : List ℕ) → IsForwardChain (ideal_moments system) groups chain
        → AreBackwardLinks (ideal_moments system) groups jobs
        → (last_job chain ≤ slice_index jobs (length jobs - 1)) ↔ (first_job chain
        ≤ slice_index jobs 0) }
{}
