//! The jobs of a settled task finish within its response. It lies between the greatest execution
//! time of the task and its deadline, and is no later by a question that asks less, such as the
//! tight question.
ghost use Rattle.std.specs.Prelude.{◌≡◌, ℕ, ◌+◌, ◌≤◌, Some};
ghost use Rattle.cl_model.specs.Timing.{greatest_jitter};
ghost use Rattle.cl_runs.specs.{TaskTiming.{System, timing_at, IsSound}, Responses.{AlwaysFinishesWithin, IsTimely}, ExecutionTimes.greatest_execution};
ghost use Rattle.cl_resp.specs.{declared.question.Question.Question, Response.{Response, response_to, IsSettled, IsTightlySettled, AsksNoMore, IsAnsweredBy}};

/// Each job of a settled task of a sound system finishes at most the response after its arrival, in
/// every legal run that lasts until then, whether or not tasks of higher priority are late.
pub fn settled_jobs_finish()
    ensures { (system : System) → IsSound system → (task response : ℕ)
        → IsSettled system task response
        → AlwaysFinishesWithin system task response }
{}

/// A settled task of a sound system is timely, by its response and by its tight response.
pub fn settled_tasks_are_timely()
    ensures plain { (system : System) → IsSound system → (task response : ℕ)
        → IsSettled system task response
        → IsTimely system task response }
    ensures tight { (system : System) → IsSound system → (task response : ℕ)
        → IsTightlySettled system task response
        → IsTimely system task response }
{}

/// The response of a settled task is at least its greatest jitter plus its greatest execution time
/// and, in a sound system, at most its deadline. The same holds of its tight response.
pub fn responses_lie_between()
    ensures execution { (system : System) (task response : ℕ) → IsSettled system task response
        → greatest_jitter (timing_at system task).pattern + greatest_execution (timing_at system task) ≤ response }
    ensures deadline { (system : System) → IsSound system → (task response : ℕ)
        → IsSettled system task response
        → response ≤ (timing_at system task).deadline }
    ensures tight_execution { (system : System) (task response : ℕ)
        → IsTightlySettled system task response
        → greatest_jitter (timing_at system task).pattern + greatest_execution (timing_at system task) ≤ response }
    ensures tight_deadline { (system : System) → IsSound system → (task response : ℕ)
        → IsTightlySettled system task response
        → response ≤ (timing_at system task).deadline }
{}

/// If a question asks no more than another, and the other has a response, then it has one too, with
/// a window no wider and a response no later.
pub fn less_asked_is_answered_no_later()
    ensures { (question other : Question) → AsksNoMore question other
        → (latest : Response) → response_to other ≡ Some latest → IsAnsweredBy question latest }
{}

/// A settled task is also settled by its tight question, with a response that is no later.
pub fn tight_responses_are_no_later()
    ensures { (system : System) (task response : ℕ) → IsSettled system task response
        → (tight : ℕ) × IsTightlySettled system task tight × (tight ≤ response) }
{}
