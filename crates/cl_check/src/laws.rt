//! Legal runs are in order, and so is what a run shows of one.
ghost use Rattle.std.specs.Prelude.{ℕ, ◌<◌, List, length};
ghost use Rattle.cl_model.specs.{declared.{model.SystemModel.SystemModel, group.Group.Group}, Groups.groups_at, Validity.IsValid};
ghost use Rattle.cl_runs.specs.{TaskTiming.{System, IsSound}, SystemOf.system_of, Run.{Run, jobs_of}, Legal.IsLegal, MomentOrder.AreGroupsOf};
ghost use Rattle.cl_run_data.specs.Parts.{ShowsTask, ShowsGroups};
ghost use Rattle.cl_check.specs.InOrder.{AreJobsInOrder, IsRunInOrder, AreGroupsInOrder};

/// A legal run is in order.
pub fn legal_runs_are_in_order()
    ensures { (system : System) → IsSound system → (run : Run) → IsLegal system run
        → IsRunInOrder system run }
{}

/// A run that shows a task, or the tasks of groups, has their jobs in order.
pub fn shown_tasks_are_in_order()
    ensures task { (system : System) → IsSound system → (task : ℕ) (run : Run)
        → ShowsTask system task run → task < length system.tasks
        → AreJobsInOrder (jobs_of run task) }
    ensures groups { (system : System) → IsSound system → (groups : List Group) → AreGroupsOf system groups
        → (run : Run) → ShowsGroups system groups run → AreGroupsInOrder groups run }
{}

/// In a run in order the jobs of the tasks of groups are, also of the groups of each chain of a valid
/// model.
pub fn groups_of_runs_are_in_order()
    ensures groups { (system : System) (groups : List Group) → AreGroupsOf system groups
        → (run : Run) → IsRunInOrder system run → AreGroupsInOrder groups run }
    ensures chain { (model : SystemModel) → IsValid model → (run : Run)
        → IsRunInOrder (system_of model) run → (chain : ℕ)
        → AreGroupsInOrder (groups_at model chain) run }
{}
