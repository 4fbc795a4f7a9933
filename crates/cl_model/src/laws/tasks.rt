//! The tasks of a valid model, and those of its cores. Times are in ticks.
ghost use Rattle.std.specs.Prelude.{◌≡◌, ◌+◌, ◌*◌, ◌<◌, ◌≤◌, ℕ, length, All};
ghost use Rattle.cl_model.specs.{declared.{model.SystemModel.SystemModel, stimulus.StimulusDef.StimulusDef, task.RunnableDef.RunnableDef}, ByNumber.{task_at, core_of, stimulus_of, deadline_of, jitter_of, time_of, tasks_of_core}, Ranges.{IsKindInRange, IsRunnableInRange}};
ghost use Rattle.cl_model.specs.{Named.all_runnables, Timing.{least_distance, greatest_distance, IsKindOrdered}, Validity.IsValid};

use crate::limits::{
    MOST_DISTANCES, MOST_RUNNABLES, MOST_RUNNABLES_OF_MODEL, MOST_TASKS_OF_CORE, MOST_TICKS,
};

/// The jitter of a task of a valid model is less than its deadline, so a job is released before it
/// is due. The deadline is at most the least distance between arrivals, so a job is due no later
/// than the next one arrives. The numbers of the task's stimulus are in range.
pub fn tasks_are_in_time()
    ensures released { (model : SystemModel) → IsValid model → (i : ℕ) → i < length model.tasks
        → jitter_of model i < deadline_of model i }
    ensures due { (model : SystemModel) → IsValid model → (i : ℕ) → i < length model.tasks
        → deadline_of model i ≤ least_distance (stimulus_of model i) }
    ensures kind { (model : SystemModel) → IsValid model → (i : ℕ) → i < length model.tasks
        → IsKindInRange (stimulus_of model i) }
{}

/// A task of a valid model has at least one runnable. The times and the lists of each runnable are
/// in range, and its least execution time is at most its greatest. The greatest execution time of a
/// job is at least one tick and at most `MOST_RUNNABLES * MOST_TICKS`.
pub fn jobs_take_time()
    ensures some_runnable { (model : SystemModel) → IsValid model → (i : ℕ) → i < length model.tasks
        → 0 < length (task_at model i).runnables }
    ensures in_range { (model : SystemModel) → IsValid model → (i : ℕ) → i < length model.tasks
        → All IsRunnableInRange (task_at model i).runnables }
    ensures ordered { (model : SystemModel) → IsValid model → (i : ℕ) → i < length model.tasks
        → All (λ (runnable : RunnableDef). runnable.least
        ≤ runnable.greatest) (task_at model i).runnables }
    ensures some_time { (model : SystemModel) → IsValid model → (i : ℕ) → i < length model.tasks
        → 1 ≤ time_of model i }
    ensures little_time { (model : SystemModel) → IsValid model → (i : ℕ) → i < length model.tasks
        → time_of model i ≤ MOST_RUNNABLES * MOST_TICKS }
{}

/// A core of a valid model has at most `MOST_TASKS_OF_CORE` tasks, and they have different
/// priorities.
pub fn cores_have_few_tasks()
    ensures few { (model : SystemModel) → IsValid model → (core : ℕ)
        → length (tasks_of_core model core) ≤ MOST_TASKS_OF_CORE }
    ensures apart { (model : SystemModel) → IsValid model → (i j : ℕ) → i < length model.tasks
        → j < length model.tasks
        → core_of model i ≡ core_of model j
        → (task_at model i).priority ≡ (task_at model j).priority → i ≡ j }
{}

/// In a valid model the deadline of a task, together with the jitter of a task of higher priority
/// on the same core, is at most `MOST_DISTANCES` least distances of that task.
pub fn deadlines_span_few_distances()
    ensures { (model : SystemModel) → IsValid model → (i j : ℕ) → i < length model.tasks
        → j < length model.tasks
        → core_of model i ≡ core_of model j
        → (task_at model i).priority < (task_at model j).priority
        → deadline_of model i + jitter_of model j
        ≤ MOST_DISTANCES * least_distance (stimulus_of model j) }
{}

/// The numbers of each stimulus of a valid model are in order, and so are those of the stimulus of
/// each task: the offset is less than the period, the least distance is at most the greatest, and a
/// burst fits its period.
pub fn stimuli_are_ordered()
    ensures stimuli { (model : SystemModel) → IsValid model
        → All (λ (s : StimulusDef). IsKindOrdered s.kind) model.stimuli }
    ensures of_task { (model : SystemModel) → IsValid model → (i : ℕ) → i < length model.tasks
        → IsKindOrdered (stimulus_of model i) }
{}

/// In a valid model the least distance between arrivals of a task is at least one tick and at most
/// the greatest distance.
pub fn distances_are_ordered()
    ensures positive { (model : SystemModel) → IsValid model → (i : ℕ) → i < length model.tasks
        → 1 ≤ least_distance (stimulus_of model i) }
    ensures ordered { (model : SystemModel) → IsValid model → (i : ℕ) → i < length model.tasks
        → least_distance (stimulus_of model i) ≤ greatest_distance (stimulus_of model i) }
{}

/// All tasks of a valid model together have at most `MOST_RUNNABLES_OF_MODEL` runnables.
pub fn models_have_few_runnables()
    ensures { (model : SystemModel) → IsValid model
        → length (all_runnables model.tasks) ≤ MOST_RUNNABLES_OF_MODEL }
{}
