//! The groups of any steps, and of the chains of a valid model.
ghost use Rattle.std.specs.Prelude.{◌≡◌, ◌≢◌, ℕ, ◌<◌, ◌≤◌, List, length, map, All};
ghost use Rattle.cl_model.specs.{declared.{group.{Group.Group, Step.Step}, model.SystemModel.SystemModel, task.TaskDef.TaskDef}, ByNumber.chain_at, Changes.{with_new_task, without_task}, GroupCuts.IsCutAfter, Groups.{groups, steps_of, groups_at, IsGroupOf}, MaximalRuns.AreMaximalRuns};
ghost use Rattle.cl_model.specs.{TaskNumbers.group_without, Validity.IsValid};

/// Each group of a chain of a valid model lies within one task: its first and last runnable are in
/// order, and both are runnables of the task. Each chain has at least one group.
pub fn groups_are_of_tasks()
    ensures within { (model : SystemModel) → IsValid model → (chain : ℕ)
        → All (IsGroupOf model) (groups_at model chain) }
    ensures some { (model : SystemModel) → IsValid model → (chain : ℕ) → chain < length model.chains
        → 0 < length (groups_at model chain) }
{}

/// The groups of a list of steps are its maximal runs of inner hops, and no other groups are. The
/// groups of a chain are those of its steps.
pub fn groups_are_maximal_runs()
    ensures runs { (steps : List Step) → AreMaximalRuns steps (groups steps) }
    ensures only { (steps : List Step) (made : List Group) → AreMaximalRuns steps made
        → made ≡ groups steps }
    ensures of_chain { (model : SystemModel) (chain : ℕ)
        → AreMaximalRuns (steps_of model (chain_at model chain)) (groups_at model chain) }
{}

/// Steps can be cut after any number of their groups: these are the groups of the first part, and
/// the others are those of the second. So each piece of a chain that is cut there is a chain of its
/// own.
pub fn cut_steps_have_parts_of_groups()
    ensures { (steps : List Step) (count : ℕ) → count ≤ length (groups steps)
        → IsCutAfter steps count }
{}

/// A task that can be added to a valid model leaves the groups of each chain as they are. A task
/// that can be removed from one has no group of any chain, and its removal renumbers the tasks of
/// the groups and changes nothing else in them.
pub fn chains_keep_their_groups()
    ensures added { (model : SystemModel) (task : TaskDef) → IsValid model
        → IsValid (with_new_task model task)
        → (chain : ℕ) → chain < length model.chains
        → groups_at (with_new_task model task) chain ≡ groups_at model chain }
    ensures dropped { (model : SystemModel) (task : ℕ) → IsValid model → task < length model.tasks
        → IsValid (without_task model task)
        → (chain : ℕ) → chain < length model.chains
        → groups_at (without_task model task) chain
        ≡ map (group_without task) (groups_at model chain) }
    ensures of_others { (model : SystemModel) (task : ℕ) → IsValid model → task < length model.tasks
        → IsValid (without_task model task)
        → (chain : ℕ) → chain < length model.chains
        → All (λ (group : Group). group.task ≢ task) (groups_at model chain) }
{}
