//! Deadlines that are met.
ghost use Rattle.std.specs.Prelude.{ℕ, ◌<◌, length};
ghost use Rattle.cl_model.specs.declared.model.SystemModel.{SystemModel};
ghost use Rattle.cl_runs.specs.{SystemOf.system_of, Responses.IsTimely, Requirements.MeetsDeadlines};

/// A model meets its deadlines where each task has a response within its deadline.
pub fn timely_tasks_meet_deadlines()
    ensures { (model : SystemModel) (response : ℕ → ℕ)
        → ((task : ℕ) → task < length model.tasks
        → IsTimely (system_of model) task (response task))
        → MeetsDeadlines model }
{}
