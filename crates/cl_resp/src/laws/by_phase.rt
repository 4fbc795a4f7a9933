//! Responses by phases: what they are in words, that they hold in every legal run, and that they
//! are no later than responses that know no phases.
ghost use Rattle.std.specs.Prelude.{◌≡◌, ℕ, ◌+◌, ◌<◌, ◌≤◌, Bool, false, Some, None, length};
ghost use Rattle.cl_model.specs.Timing.{greatest_jitter};
ghost use Rattle.cl_runs.specs.{TaskTiming.{System, timing_at, IsSound}, Responses.{AlwaysFinishesWithin, IsTimely}, ExecutionTimes.greatest_execution};
ghost use Rattle.cl_resp.specs.{Asked.{Asked, least_response, AnswersWithin, IsLeastResponse, AskedComesRound}, ByPhase.{asked_with, asked_by_phase, response_by_phase, response_through, IsSettledByPhase}, Clear.{greatest_through, greatest_behind}, LesserTimes.TakesNoMore};
ghost use Rattle.cl_resp.specs.{Promises.AlwaysFinishesThrough, Response.{IsSettled, IsTightlySettled}};

/// Where all that is asked comes round, its response is the least, from 1 tick up to the deadline,
/// within which every arrival is answered, in the first cycle or elsewhere. It has none exactly
/// where no such number is one.
pub fn least_responses_answer()
    ensures found { (asked : Asked) → AskedComesRound asked → (response : ℕ)
        → least_response asked ≡ Some response → IsLeastResponse asked response }
    ensures is_found { (asked : Asked) → AskedComesRound asked → (response : ℕ)
        → IsLeastResponse asked response → least_response asked ≡ Some response }
{}

/// What is asked by the tasks in phase comes round, for any amount of work.
pub fn what_is_asked_by_phase_comes_round()
    ensures { (system : System) → IsSound system → (task own : ℕ)
        → task < length system.tasks → AskedComesRound (asked_by_phase system task own) }
{}

/// Whichever tasks are in phase: if what is asked for whole jobs of a task is answered within a
/// response that its deadline allows, its jobs always finish within it. If what is asked up to a
/// runnable is answered within some time, the jobs always have finished that within it.
pub fn answered_jobs_finish()
    ensures whole { (system : System) → IsSound system → (in_phase : ℕ → Bool)
        → (cycle task response : ℕ) → task < length system.tasks
        → response ≤ (timing_at system task).deadline
        → AnswersWithin (asked_with system in_phase cycle task (greatest_execution (timing_at system task))) response
        → AlwaysFinishesWithin system task response }
    ensures part { (system : System) → IsSound system → (in_phase : ℕ → Bool)
        → (cycle task response : ℕ) → task < length system.tasks
        → response ≤ (timing_at system task).deadline
        → AnswersWithin (asked_with system in_phase cycle task (greatest_execution (timing_at system task))) response
        → (place through : ℕ) → place < length (timing_at system task).ranges
        → AnswersWithin (asked_with system in_phase cycle task (greatest_through (timing_at system task) place)) through
        → AlwaysFinishesThrough system task place through }
{}

/// A task of a sound system with a response by phases is timely: its jobs always finish within it,
/// and it is at most the deadline. Its runnables always finish within those of their places.
pub fn responses_by_phase_hold()
    ensures timely { (system : System) → IsSound system → (task response : ℕ)
        → IsSettledByPhase system task response → IsTimely system task response }
    ensures through { (system : System) → IsSound system → (task response : ℕ)
        → IsSettledByPhase system task response
        → (place through : ℕ) → place < length (timing_at system task).ranges
        → response_through system task place ≡ Some through
        → AlwaysFinishesThrough system task place through }
{}

/// A settled task has a response by phases, which is no later, and so has one that is settled by its
/// tight question. Whichever tasks with fixed arrivals are in phase, what is asked with none of them
/// in phase is answered no sooner.
pub fn responses_by_phase_are_no_later()
    ensures report { (system : System) → IsSound system → (task response : ℕ)
        → IsSettled system task response
        → (by_phase : ℕ) × IsSettledByPhase system task by_phase × (by_phase ≤ response) }
    ensures tight { (system : System) → IsSound system → (task response : ℕ)
        → IsTightlySettled system task response
        → (by_phase : ℕ) × IsSettledByPhase system task by_phase × (by_phase ≤ response) }
    ensures choice { (system : System) → IsSound system → (in_phase : ℕ → Bool)
        → (cycle task own response : ℕ) → task < length system.tasks
        → AnswersWithin (asked_with system (λ _. false) cycle task own) response
        → AnswersWithin (asked_with system in_phase cycle task own) response }
{}

/// The response by phases of a task is at least its greatest jitter plus its greatest execution
/// time. Where it has one, so have its runnables up to each place, and theirs is sooner by at least
/// the greatest times of the runnables behind that place.
pub fn responses_by_phase_lie_between()
    ensures execution { (system : System) → IsSound system → (task response : ℕ)
        → IsSettledByPhase system task response
        → greatest_jitter (timing_at system task).pattern + greatest_execution (timing_at system task) ≤ response }
    ensures through { (system : System) → IsSound system → (task response : ℕ)
        → IsSettledByPhase system task response
        → (place : ℕ) → place < length (timing_at system task).ranges
        → (through : ℕ) × (response_through system task place ≡ Some through)
        × (through + greatest_behind (timing_at system task) place ≤ response) }
{}

/// Longer times are answered no sooner: where a task has a response by phases, it has one that is no
/// later in each system where it and what it waits for take no longer. If it is late there, it is
/// late here. What is said of its response holds of those of its runnables up to a place, too.
pub fn longer_times_are_answered_no_sooner()
    ensures whole { (less more : System) → IsSound less → IsSound more
        → (task : ℕ) → TakesNoMore less more task
        → (response : ℕ) → IsSettledByPhase more task response
        → (sooner : ℕ) × IsSettledByPhase less task sooner × (sooner ≤ response) }
    ensures late { (less more : System) → IsSound less → IsSound more
        → (task : ℕ) → TakesNoMore less more task → task < length more.tasks
        → response_by_phase less task ≡ None → response_by_phase more task ≡ None }
    ensures through { (less more : System) → IsSound less → IsSound more
        → (task : ℕ) → TakesNoMore less more task → task < length more.tasks → (place : ℕ)
        → greatest_through (timing_at less task) place ≤ greatest_through (timing_at more task) place
        → (response : ℕ) → response_through more task place ≡ Some response
        → (sooner : ℕ) × (response_through less task place ≡ Some sooner) × (sooner ≤ response) }
{}
