//! Runs of some cores alone are parts of legal runs, and show what is so there.
ghost use Rattle.std.specs.Prelude.{◌≡◌, ℕ, Bool, true, ◌↔◌, ◌<◌, List, length};
ghost use Rattle.cl_model.specs.{declared.{chain.RequirementKind.RequirementKind, group.Group.Group}, Groups.group_at};
ghost use Rattle.cl_runs.specs.{TaskTiming.{System, timing_at, IsSound}, Run.Run, Legal.IsLegal, Chains.JobChain, MomentOrder.AreGroupsOf, Requirements.IsChainRequired};
ghost use Rattle.cl_run_data.specs.Parts.{is_among, IsLegalOn, AreAlikeOn, HasWhole, ShowsTask, ShowsGroups};

/// A run that is legal on some cores is a part of a legal run, which is like it on these cores.
pub fn parts_are_of_legal_runs()
    ensures { (system : System) → IsSound system → (cores : List Bool) (part : Run)
        → IsLegalOn system cores part → HasWhole system cores part }
{}

/// Runs that are alike on the core of each group have the same chains of these groups, of each kind
/// that a requirement can bound.
pub fn alike_runs_have_the_same_chains()
    ensures { (system : System) (part whole : Run) (groups : List Group)
        → ((place : ℕ) → place < length groups
        → AreAlikeOn system (timing_at system (group_at groups place).task).core part whole)
        → (kind : RequirementKind) (chain : JobChain)
        → (IsChainRequired kind system part groups chain)
        ↔ (IsChainRequired kind system whole groups chain) }
{}

/// A legal run shows each task, and the tasks of each list of groups.
pub fn legal_runs_show_their_tasks()
    ensures task { (system : System) (task : ℕ) (run : Run) → IsLegal system run
        → ShowsTask system task run }
    ensures groups { (system : System) (groups : List Group) (run : Run) → IsLegal system run
        → ShowsGroups system groups run }
{}

/// A run that is legal on some cores shows each task of these cores, and the tasks of each list of
/// groups on them.
pub fn parts_show_the_tasks_of_their_cores()
    ensures task { (system : System) → IsSound system → (cores : List Bool) (part : Run)
        → IsLegalOn system cores part
        → (task : ℕ) → task < length system.tasks
        → is_among cores (timing_at system task).core ≡ true
        → ShowsTask system task part }
    ensures groups { (system : System) → IsSound system → (cores : List Bool) (part : Run)
        → IsLegalOn system cores part
        → (groups : List Group) → AreGroupsOf system groups
        → ((place : ℕ) → place < length groups
        → is_among cores (timing_at system (group_at groups place).task).core ≡ true)
        → ShowsGroups system groups part }
{}
