//! What an explanation promises, over every valid model.
ghost use Rattle.std.specs.Prelude.{◌≡◌, ℕ, ◌<◌, List, ◌∷◌, length};
ghost use Rattle.cl_model.specs.{declared.model.SystemModel.SystemModel, ByNumber.chain_at, Groups.groups_at, Validity.IsValid};
ghost use Rattle.cl_runs.specs.{SystemOf.system_of, TaskTiming.timing_at};
ghost use Rattle.cl_hop.specs.{declared.group_timing.GroupTiming.GroupTiming, Bounds.Lengths};
ghost use Rattle.cl_resp.specs.{Question.question_of, Response.Response};
ghost use Rattle.cl_bound.specs.{declared.answer.TaskAnswer.TheVariants.{Settled, Late}, Answers.{answers_of, answer_at}, Bounds.settled_timings};
ghost use Rattle.cl_analyse.specs.{declared.findings.ChainAnswer.TheVariants.Bounds, ChainAnswers.chain_answer_of};
ghost use Rattle.cl_tight.specs.TightFindings.{tight_chain_answer_of};
ghost use Rattle.cl_explain.specs.{Accepted.accepted_text, Explanation.explanation, Parts.time_over, Promises.{AddUpToResponse, AddUpPastDeadline, AddUpToBounds, ShowsItsWalk, IsSafeExplanation, IsSafeAcceptance}};

/// The parts of a settled task of a valid model add up to its response: its jitter, its blocking,
/// its own execution time, and the time that the tasks above it take of the window of the response.
pub fn parts_add_up_to_responses()
    ensures { (model : SystemModel) → IsValid model → (task : ℕ) (response : Response)
        → task < length model.tasks
        → answer_at (answers_of (system_of model)) task ≡ Settled response
        → AddUpToResponse (system_of model) task response }
{}

/// The parts of a late task of a valid model, counted over all of its deadline that the jitter
/// leaves, add up to its deadline and the excess that an explanation names, which is a tick or
/// more.
pub fn parts_add_up_past_deadlines()
    ensures { (model : SystemModel) → IsValid model → (task : ℕ) → task < length model.tasks
        → answer_at (answers_of (system_of model)) task ≡ Late
        → AddUpPastDeadline (system_of model) task (time_over (question_of (system_of model) (timing_at (system_of model) task))) }
{}

/// The bounds of a chain of a valid model follow from the lines of its groups and hops. The
/// reaction is the distance of the first group minus its read, plus the forward hops, plus the
/// write of the last group; the reduced age is the write of the last group minus the read of the
/// first, plus the backward hops; and the age is the reduced age plus the distance of the last
/// group.
pub fn groups_add_up_to_bounds()
    ensures { (model : SystemModel) → IsValid model → (chain : ℕ) (bounds : Lengths)
        → chain < length model.chains
        → chain_answer_of model (chain_at model chain) ≡ Bounds bounds
        → (first : GroupTiming) (later : List GroupTiming)
        → settled_timings (system_of model) (groups_at model chain) ≡ first ∷ later
        → AddUpToBounds first later bounds }
{}

/// The walk that is shown of a chain of a valid model with tight bounds lasts as long as the tight
/// bound on its reaction: the bound is the last arrival that is taken minus the first that is
/// missed, plus the latest write of the last group after its arrival, minus the earliest read of
/// the first group after its arrival.
pub fn walks_last_as_long_as_bounds()
    ensures { (model : SystemModel) → IsValid model → (chain : ℕ) (bounds : Lengths)
        → chain < length model.chains
        → tight_chain_answer_of model (chain_at model chain) ≡ Bounds bounds
        → ShowsItsWalk (system_of model) (groups_at model chain) bounds.reaction }
{}

/// What an explanation of a valid model shows is safe, and its numbers add up.
pub fn explanations_are_safe()
    ensures { (model : SystemModel) → IsValid model → (text : List ℕ) → text ≡ explanation model
        → IsSafeExplanation model text }
{}

/// A task of a valid model that is called late has no response within its deadline by phases, and
/// each other always finishes within its deadline.
pub fn late_tasks_have_no_response()
    ensures { (model : SystemModel) → IsValid model → (text : List ℕ) → text ≡ accepted_text model
        → IsSafeAcceptance model text }
{}
