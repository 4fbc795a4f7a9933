//! The system of a model: what the laws of runs ask of a system holds of each valid model.
ghost use Rattle.std.specs.Prelude.{◌≡◌, ℕ, ◌<◌, length};
ghost use Rattle.cl_model.specs.{declared.model.SystemModel.SystemModel, ByNumber.task_at, Validity.IsValid};
ghost use Rattle.cl_runs.specs.{TaskTiming.{timing_at, IsSound}, SystemOf.{timing_of, system_of}};

/// The system of a model has as many cores and tasks as the model, and the timing of each task at
/// the task's number.
pub fn systems_have_the_tasks_of_their_models()
    ensures cores { (model : SystemModel) → (system_of model).cores ≡ length model.cores }
    ensures tasks { (model : SystemModel) → length (system_of model).tasks ≡ length model.tasks }
    ensures timing { (model : SystemModel) (i : ℕ) → i < length model.tasks
        → timing_at (system_of model) i ≡ timing_of model (task_at model i) }
{}

/// The system of a valid model is sound.
pub fn valid_models_are_sound()
    ensures { (model : SystemModel) → IsValid model → IsSound (system_of model) }
{}
