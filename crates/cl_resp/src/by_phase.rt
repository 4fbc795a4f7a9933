//! How the response of a task by phases is found. Times are in ticks, and moments may lie before 0.
ghost use Rattle.std.specs.Prelude.{◌≡◌, ◌+◌, ◌*◌, ◌<◌, ◌≤◌, pos, ◌+ℤ◌, ◌≤ℤ◌, ◌<ℤ◌, true, false, [], length, Some, None, MatchOption, MatchResult, IfOk, IfSome};
ghost use Rattle.std.specs.Option.{IsSomeAnd};
ghost use Rattle.cl_model.specs.{declared.limits.TheConstants.MOST_TICKS, Validity.IsValid};
ghost use Rattle.cl_runs.specs.{Responses.AlwaysFinishesWithin, SystemOf.system_of, TaskTiming.timing_at};
ghost use Rattle.cl_stim.specs.{Integers.IsIntegerWithin, Phase.arrives_at};
ghost use Rattle.cl_cycle.specs.Promises.{IsCycleOf};
ghost use Rattle.cl_resp.specs.{Asked.{is_answered, suffices, least_response}, ByPhase.{response_by_phase, response_through, IsSettledByPhase}, Clear.greatest_behind, Promises.AlwaysFinishesThrough, Question.{tight_question_of, IsQuestionInRange}, Response.busy_window};
ghost use Rattle.cl_resp.specs.Inner.{Phased.{asked_of, IsPhasedInRange, ServesAnywhere}, Searching.{IsSearchOf, IsLeastSoFar, NoneSuffices}};

use crate::answering::settle;
use crate::asking::ask_tight;
use crate::phased::{PhasedQuestion, ask_by_phase, ask_in_cycle};
use crate::question::Question;
use crate::settled::{Late, Settled};
use cl_cycle::Cycle;
use cl_model::ValidModel;
use cl_time::NoMemory;
use std::alloc::Global;

/// What a search knows: the least window of the tasks that aren't in phase alone, a window that
/// holds whatever is asked, if one is known, and a response within which all is answered, if one is
/// known.
#[derive(Clone, Copy)]
struct Search {
    least: u64,
    widest: Option<u64>,
    most: Option<u64>,
}

impl Search {
    /// Checks whether no answer is longer, since all is answered within the longest.
    fn is_done(&self, question: &PhasedQuestion, longest: u64) -> bool
        requires in_range { IsPhasedInRange question.now }
        requires search { IsSearchOf question.now self.now }
        ensures { result ≡ true → suffices (asked_of question.now) longest ≡ true }
    {
        match self.most {
            Some(most) => longest == most,
            None => false,
        }
    }

    /// Checks whether a window that begins at `start` may end later than the longest answer after
    /// the arrival.
    fn may_be_longer(&self, arrival: i64, start: i64, longest: u64) -> bool
        requires arrival { IsIntegerWithin (20000 * MOST_TICKS) arrival }
        requires start { IsIntegerWithin (20000 * MOST_TICKS) start }
        requires longest { longest ≤ MOST_TICKS }
        requires short { IfSome self.now.widest (λ width. width ≤ MOST_TICKS) }
        ensures { result ≡ false → IsSomeAnd self.now.widest
            (λ width. (start +ℤ pos width) ≤ℤ (arrival +ℤ pos longest)) }
    {
        match self.widest {
            Some(widest) => start + widest as i64 > arrival + longest as i64,
            None => true,
        }
    }

    /// Answers an arrival: asks for windows from its latest release down to the arrival before it,
    /// and only where they can be longer than the longest answer so far. Returns the longer one.
    /// `None` comes where a window doesn't end by the deadline.
    fn answer(&self, question: &PhasedQuestion, arrival: i64, so_far: u64) -> Option<u64>
        requires in_range { IsPhasedInRange question.now }
        requires search { IsSearchOf question.now self.now }
        requires arrival { (pos 0 ≤ℤ arrival) × (arrival <ℤ pos question.now.cycle) }
        requires arrives { arrives_at question.now.arrivals arrival ≡ true }
        requires so_far { IsLeastSoFar (asked_of question.now) so_far }
        ensures { MatchOption result (NoneSuffices (asked_of question.now))
            (λ longest. IsLeastSoFar (asked_of question.now) longest × (so_far ≤ longest)
            × (is_answered (asked_of question.now) longest arrival ≡ true)) }
    {
        let before = question.arrivals.last_arrival(arrival - 1);
        let latest = arrival + question.beside.deadline as i64;
        let mut longest = so_far;
        let mut start = arrival + question.beside.jitter as i64;
        while start > before && self.may_be_longer(arrival, start, longest) {
            let width = question.window_from(start, self.least, (latest - start) as u64)?;
            longest = longest.max((start + width as i64 - arrival).max(0) as u64);
            start = question.last_release_before(start).unwrap_or(before);
        }
        Some(longest)
    }

    /// Answers all arrivals of a cycle.
    fn answer_all(&self, question: &PhasedQuestion) -> Option<u64>
        requires in_range { IsPhasedInRange question.now }
        requires search { IsSearchOf question.now self.now }
        ensures { result ≡ least_response (asked_of question.now) }
    {
        let end = question.cycle as i64;
        let mut longest = 0;
        let mut arrival = question.arrivals.first_arrival(0);
        while arrival < end && !self.is_done(question, longest) {
            longest = self.answer(question, arrival, longest)?;
            arrival = question.arrivals.first_arrival(arrival + 1);
        }
        Some(longest)
    }

    /// Answers all moments of a cycle, where a job can arrive at each and has no jitter. It asks
    /// only where a job of a task in phase is released at the latest, and where the cycle ends, and
    /// there only if a window as wide as the longest so far doesn't hold its own demand.
    fn answer_each_moment(&self, question: &PhasedQuestion) -> Option<u64>
        requires in_range { IsPhasedInRange question.now }
        requires search { IsSearchOf question.now self.now }
        requires each { question.now.arrivals.period ≡ 1 }
        requires jitter { question.now.beside.jitter ≡ 0 }
        ensures { result ≡ least_response (asked_of question.now) }
    {
        let mut longest = 0;
        let mut start = question.cycle as i64 - 1;
        while start >= 0 && !self.is_done(question, longest) {
            if !question.holds(start, longest) {
                let width = question.window_from(start, self.least, question.beside.deadline)?;
                longest = longest.max(width);
            }
            start = question.last_release_before(start).unwrap_or(-1);
        }
        Some(longest)
    }
}

/// Finds the response to a question by phases. `least` is the window of the tasks that aren't in
/// phase alone, if they have one, `widest` a window that holds whatever is asked, if one is known,
/// and `most` a response within which all is answered, if one is known.
fn longest_answer(
    question: &PhasedQuestion,
    least: Option<u64>,
    widest: Option<u64>,
    most: Option<u64>,
) -> Option<u64>
    requires in_range { IsPhasedInRange question.now }
    requires least { least ≡ busy_window question.now.beside }
    requires widest { IfSome widest (ServesAnywhere (asked_of question.now)) }
    requires short { IfSome widest (λ width. width ≤ MOST_TICKS) }
    requires most { IfSome most (λ response. suffices (asked_of question.now) response ≡ true) }
    ensures { result ≡ least_response (asked_of question.now) }
{
    let Some(least) = least else {
        return None;
    };
    let search = Search {
        least,
        widest,
        most,
    };
    if question.arrivals.period == 1 && question.beside.jitter == 0 {
        search.answer_each_moment(question)
    } else {
        search.answer_all(question)
    }
}

/// Finds the window of a question, if it has one.
fn window_of(question: &Question) -> Option<u64>
    requires { IsQuestionInRange question.now }
    ensures { result ≡ busy_window question.now }
{
    match settle(question) {
        Ok(settled) => Some(settled.window()),
        Err(Late) => None,
    }
}

/// Finds the window of the tasks above that aren't in phase alone. With none in phase these are
/// all, and it is the widest one.
fn least_window(question: &PhasedQuestion, widest: Option<u64>) -> Option<u64>
    requires in_range { IsPhasedInRange question.now }
    requires alone { question.now.in_phase ≡ [] → widest ≡ busy_window question.now.beside }
    ensures { result ≡ busy_window question.now.beside }
{
    if question.in_phase.is_empty() {
        widest
    } else {
        window_of(&question.beside)
    }
}

/// Computes the response that a window which holds whatever is asked leaves at the latest release.
fn response_in_window(question: &PhasedQuestion, widest: Option<u64>) -> Option<u64>
    requires in_range { IsPhasedInRange question.now }
    requires widest { IfSome widest (ServesAnywhere (asked_of question.now)) }
    requires short { IfSome widest (λ width. width ≤ MOST_TICKS) }
    ensures { IfSome result (λ response. suffices (asked_of question.now) response ≡ true) }
{
    Some(question.beside.jitter + widest?)
}

/// Finds the window of the tight question of a task, given by its number, if it has one: no window
/// of the task need be wider, whichever tasks above it are in phase. It counts no step. `NoMemory`
/// comes where there is no memory for the list of the tasks above; it leaves nothing.
pub fn widest_window(alloc: Global, model: &ValidModel, task: u32) -> Result<Option<u64>, NoMemory>
    requires { task < length model.now.tasks }
    ensures { IfOk result (λ widest. widest
        ≡ busy_window (tight_question_of (system_of model.now) (timing_at (system_of model.now) task))) }
{
    let question = ask_tight(alloc, model, task)?;
    Ok(window_of(&question))
}

/// Finds the response of a task by the phases of the tasks above it, given by its number. `widest`
/// is the window of its tight question, if it has one. `Late` comes exactly where the task has no
/// response within its deadline.
///
/// Each job of the task finishes at most the response after its arrival, in every legal run that
/// lasts until then. It counts no step. `NoMemory` comes where there is no memory for a list of the
/// tasks above; it leaves nothing.
pub fn respond_by_phase(
    alloc: Global,
    model: &ValidModel,
    task: u32,
    widest: Option<u64>,
) -> Result<Result<Settled, Late>, NoMemory>
    requires task { task < length model.now.tasks }
    requires widest { widest
        ≡ busy_window (tight_question_of (system_of model.now) (timing_at (system_of model.now) task)) }
    ensures response { IfOk result (λ answer. MatchResult answer
        (λ settled. response_by_phase (system_of model.now) task ≡ Some settled)
        (λ _. response_by_phase (system_of model.now) task ≡ None)) }
    ensures finishing { IfOk result (λ answer. IfOk answer (λ settled.
        AlwaysFinishesWithin (system_of model.now) task settled.response)) }
{
    let cycle = Cycle::of(model, task);
    respond_in_cycle(alloc, model, task, &cycle, widest)
}

/// Finds the response of a task as `respond_by_phase` does, where its cycle is known: which tasks
/// are in phase, and when they come round. No execution time is part of that.
pub fn respond_in_cycle(
    alloc: Global,
    model: &ValidModel,
    task: u32,
    cycle: &Cycle,
    widest: Option<u64>,
) -> Result<Result<Settled, Late>, NoMemory>
    requires task { task < length model.now.tasks }
    requires cycle { IsCycleOf (system_of model.now) task cycle.now }
    requires widest { widest
        ≡ busy_window (tight_question_of (system_of model.now) (timing_at (system_of model.now) task)) }
    ensures response { IfOk result (λ answer. MatchResult answer
        (λ settled. response_by_phase (system_of model.now) task ≡ Some settled)
        (λ _. response_by_phase (system_of model.now) task ≡ None)) }
    ensures finishing { IfOk result (λ answer. IfOk answer (λ settled.
        AlwaysFinishesWithin (system_of model.now) task settled.response)) }
{
    let question = ask_in_cycle(alloc, model, task, cycle)?;
    let least = least_window(&question, widest);
    let most = response_in_window(&question, widest);
    match longest_answer(&question, least, widest, most) {
        Some(response) => Ok(Ok(Settled {
            window: response - question.beside.jitter,
            response,
        })),
        None => Ok(Err(Late)),
    }
}

/// Finds within how many ticks of its arrival the runnables of a job up to one have finished, by
/// the phases of the tasks above. The task, given by its number, has this response by phases.
///
/// Each job has finished them so long after its arrival at most, in every legal run that lasts
/// until then. It counts no step. `NoMemory` comes where there is no memory for a list of the tasks
/// above; it leaves nothing.
pub fn respond_through(
    alloc: Global,
    model: &ValidModel,
    task: u32,
    place: u32,
    response: u64,
) -> Result<u64, NoMemory>
    requires place { place < length (timing_at (system_of model.now) task).ranges }
    requires settled { IsSettledByPhase (system_of model.now) task response }
    ensures through { IfOk result
        (λ through. response_through (system_of model.now) task place ≡ Some through) }
    ensures finishing { IfOk result
        (λ through. AlwaysFinishesThrough (system_of model.now) task place through) }
{
    let behind = time_behind(model, task, place);
    if behind == 0 {
        return Ok(response);
    }
    let widest = widest_window(alloc, model, task)?;
    let mut question = ask_by_phase(alloc, model, task)?;
    question.beside.time -= behind;
    let least = window_of(&question.beside);
    let most = response - behind;
    Ok(longest_answer(&question, least, widest, Some(most)).unwrap_or(most))
}

/// Computes the greatest time of the runnables of a task behind one.
fn time_behind(model: &ValidModel, task: u32, place: u32) -> u64
    requires task { task < length model.now.tasks }
    requires place { place < length (timing_at (system_of model.now) task).ranges }
    ensures time { result ≡ greatest_behind (timing_at (system_of model.now) task) place }
    ensures valid { IsValid model.now }
{
    let mut time = 0;
    for runnable in &model.task(task).runnables.as_slice()[place as usize + 1..] {
        time += runnable.greatest;
    }
    time
}
