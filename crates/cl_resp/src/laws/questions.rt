//! The questions of the tasks of valid models and sound systems.
ghost use Rattle.std.specs.Prelude.{ℕ, ◌<◌, ◌≤◌, length};
ghost use Rattle.cl_model.specs.{declared.model.SystemModel.SystemModel, Validity.IsValid};
ghost use Rattle.cl_runs.specs.{SystemOf.system_of, TaskTiming.{Timing, System, timing_at, IsSound}};
ghost use Rattle.cl_resp.specs.{Question.{question_of, tight_question_of, AsksEnough, IsQuestionInRange}, Response.AsksNoMore};

/// The question of each task of a valid model is in range.
pub fn questions_are_in_range()
    ensures { (model : SystemModel) → IsValid model → (task : ℕ) → task < length model.tasks
        → IsQuestionInRange (question_of (system_of model) (timing_at (system_of model) task)) }
{}

/// The tight question of each task of a valid model is in range.
pub fn tight_questions_are_in_range()
    ensures { (model : SystemModel) → IsValid model → (task : ℕ) → task < length model.tasks
        → IsQuestionInRange (tight_question_of (system_of model) (timing_at (system_of model) task)) }
{}

/// The question of a task and its tight question both ask enough of the task for their responses to
/// hold.
pub fn questions_ask_enough()
    ensures plain { (system : System) (task : ℕ)
        → AsksEnough system (timing_at system task) (question_of system (timing_at system task)) }
    ensures tight { (system : System) (task : ℕ)
        → AsksEnough system (timing_at system task) (tight_question_of system (timing_at system task)) }
{}

/// The tight question of a task asks no more than its question.
pub fn tight_questions_ask_no_more()
    ensures { (system : System) (task : Timing)
        → AsksNoMore (tight_question_of system task) (question_of system task) }
{}

/// Each task of a sound system takes 1 tick or more.
pub fn tasks_take_time()
    ensures { (system : System) → IsSound system → (task : ℕ) → task < length system.tasks
        → 1 ≤ (question_of system (timing_at system task)).time }
{}
