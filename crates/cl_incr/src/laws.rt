//! Equal questions have equal answers, so an answer may be kept as long as its question stays the
//! same, whatever else of the model changes.
ghost use Rattle.std.specs.Prelude.{◌≡◌, ℕ, ◌<◌, length, Some, None};
ghost use Rattle.cl_model.specs.{declared.model.SystemModel.SystemModel, ByNumber.chain_at, Groups.groups_at, Validity.IsValid};
ghost use Rattle.cl_runs.specs.{SystemOf.system_of, TaskTiming.timing_at};
ghost use Rattle.cl_bound.specs.{Answers.answer_to, Bounds.bounds_of};
ghost use Rattle.cl_analyse.specs.{declared.findings.{ChainAnswer.TheVariants.{Bounds, Late}, ExactAnswer.ExactAnswer}, ChainAnswers.{chain_answer_of, IsExactAnswer}, Headline.question_at};
ghost use Rattle.cl_incr.specs.Questions.{ChainQuestion, chain_question};

/// Two tasks with the same question, of one model or of two, have the same answer: both are late,
/// or they have the same window and response.
pub fn equal_questions_of_tasks_have_equal_answers()
    ensures { (old new : SystemModel) → (before task : ℕ)
        → question_at old before ≡ question_at new task
        → answer_to (system_of old) (timing_at (system_of old) before)
        ≡ answer_to (system_of new) (timing_at (system_of new) task) }
{}

/// A chain has a question exactly where it has bounds. Where it has no question, its answer names a
/// late task.
pub fn chains_have_questions_unless_late()
    ensures bounded { (model : SystemModel) → (chain : ℕ) (question : ChainQuestion)
        → chain_question model chain ≡ Some question
        → chain_answer_of model (chain_at model chain)
        ≡ Bounds (bounds_of (system_of model) (groups_at model chain)) }
    ensures late { (model : SystemModel) → (chain : ℕ) → chain_question model chain ≡ None
        → (task : ℕ) × (chain_answer_of model (chain_at model chain) ≡ Late task) }
{}

/// Two chains without late tasks and with the same question, of one model or of two, have the same
/// bounds and so the same answer, whatever the numbers of their tasks and cores are.
pub fn equal_questions_of_chains_have_equal_bounds()
    ensures bounds { (old new : SystemModel) → (before chain : ℕ) (question : ChainQuestion)
        → chain_question old before ≡ Some question → chain_question new chain ≡ Some question
        → bounds_of (system_of old) (groups_at old before)
        ≡ bounds_of (system_of new) (groups_at new chain) }
    // so their answers, too, are the same
    ensures answers { (old new : SystemModel) → (before chain : ℕ) (question : ChainQuestion)
        → chain_question old before ≡ Some question → chain_question new chain ≡ Some question
        → chain_answer_of old (chain_at old before) ≡ chain_answer_of new (chain_at new chain) }
{}

/// Whatever is found of the exact lengths of a chain of a valid model holds of each chain with the
/// same question: both have them, with the same witnesses; or the hyperperiods of both exceed the
/// same limit; or in neither chain are all tasks timed and periodic.
pub fn equal_questions_of_chains_have_equal_exact_lengths()
    ensures { (old new : SystemModel) → IsValid old → (before chain : ℕ)
        → before < length old.chains
        → (question : ChainQuestion)
        → chain_question old before ≡ Some question → chain_question new chain ≡ Some question
        → (answer : ExactAnswer) → IsExactAnswer old before (chain_answer_of old (chain_at old before)) answer
        → IsExactAnswer new chain (chain_answer_of new (chain_at new chain)) answer }
{}
