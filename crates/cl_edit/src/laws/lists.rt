//! What a change that adds or drops a task or a chain can break in a valid model.
ghost use Rattle.std.specs.Prelude.{◌≡◌, ℕ, ◌<◌, length};
ghost use Rattle.cl_model.specs.{declared.{chain.ChainDef.ChainDef, model.SystemModel.SystemModel, task.TaskDef.TaskDef}, Changes.{with_new_task, without_task, with_new_chain, without_chain}, Validity.{IsValid, refusals_of}};
ghost use Rattle.cl_edit.specs.FewListChecks.{new_task_checks, dropped_task_checks, new_chain_checks, dropped_chain_checks};

/// Where a chain is added to a valid model, the refusals of the changed model are those of the
/// checks of its name (M25) and of its own parts (M43 to M45), in this order.
pub fn new_chains_are_checked_alone()
    ensures { (model : SystemModel) (chain : ChainDef) → IsValid model
        → refusals_of (with_new_chain model chain) ≡ new_chain_checks model chain }
{}

/// Where a chain is dropped from a valid model, the refusals of the changed model are M46 for each
/// requirement that names the chain.
pub fn dropped_chains_are_missed_by_requirements()
    ensures { (model : SystemModel) (chain : ℕ) → IsValid model → chain < length model.chains
        → refusals_of (without_chain model chain) ≡ dropped_chain_checks model chain }
{}

/// Where a task is dropped from a valid model, the refusals of the changed model are M44 for each
/// step of a chain that is a runnable of the task.
pub fn dropped_tasks_are_missed_by_chains()
    ensures { (model : SystemModel) (task : ℕ) → IsValid model → task < length model.tasks
        → refusals_of (without_task model task) ≡ dropped_task_checks model task }
{}

/// Where a task is added to a valid model, the refusals of the changed model are those of the
/// checks of its names (M23 and M24), of its own parts (M29 to M41), of the deadlines of the tasks
/// below it and of its own deadline (M42 for both), in this order.
pub fn new_tasks_are_checked_alone()
    ensures { (model : SystemModel) (task : TaskDef) → IsValid model
        → refusals_of (with_new_task model task) ≡ new_task_checks model task }
{}
