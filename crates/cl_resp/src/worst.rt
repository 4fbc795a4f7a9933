//! The window in which a task is answered worst. Times are in ticks, and moments may lie before 0.
ghost use Rattle.std.specs.Prelude.{◌≡◌, ◌↔◌, IsTrue, ◌<◌, ◌≤◌, ◌*◌, pos, ◌+ℤ◌, ◌-ℤ◌, ◌≤ℤ◌, ◌<ℤ◌, ℤ, true, false, length, Some, None, is_some, All, MatchOption, IfOk};
ghost use Rattle.std.specs.List.{list_any};
ghost use Rattle.std.specs.Option.{option_map};
ghost use Rattle.cl_model.specs.declared.limits.TheConstants.{MOST_TICKS};
ghost use Rattle.cl_runs.specs.SystemOf.{system_of};
ghost use Rattle.cl_stim.specs.{Integers.IsIntegerWithin, Phase.{IsArrivalOf, IsPhaseInRange, phase_of}};
ghost use Rattle.cl_cycle.specs.declared.cycle.TheConstants.{MOST_IN_CYCLE};
ghost use Rattle.cl_resp.specs.{declared.phased.InPhase.InPhase, Asked.{EndsBy, suffices}, ByPhase.response_by_phase, Response.Response, Worst.{less_than, NoneEndsBy, IsFirstUnanswered, is_released_in, IsWorstWindowOf}, Inner.{Phased.{asked_of, IsPhasedInRange}, Worst.IsAllAnswered}};
ghost use Rattle.cl_resp.specs.Inner.Worst.{IsLatestUnanswered, AreAnsweredBefore, IsCandidateOf, AreCandidatesAnswered, IsLeastAfter};

use crate::phased::{InPhase, PhasedQuestion, ask_by_phase};
use cl_model::{StimulusKind, ValidModel};
use cl_time::NoMemory;
use std::alloc::Global;

/// A window of a task: which arrival it is of, and where it begins.
#[derive(Clone, Copy, PartialEq, Eq)]
pub struct WorstWindow {
    /// When the job arrives, in ticks.
    pub arrival: i64,
    /// When the window begins, in ticks. It may lie before 0.
    pub start: i64,
}

/// Checks whether no window that begins at `start` ends by `latest`.
fn is_late(question: &PhasedQuestion, start: i64, latest: i64) -> bool
    requires in_range { IsPhasedInRange question.now }
    requires start { IsIntegerWithin (20000 * MOST_TICKS) start }
    requires latest { IsIntegerWithin (30000 * MOST_TICKS) latest }
    requires near { latest ≤ℤ (start +ℤ pos (2 * MOST_TICKS)) }
    ensures late { result ≡ true → NoneEndsBy (asked_of question.now) start latest }
    ensures ends { result ≡ false → EndsBy (asked_of question.now) start latest }
{
    let most = (latest - start).max(0) as u64;
    question.window_from(start, 1, most).is_none()
}

/// Finds the latest moment at which the window of an arrival may begin and from which on none ends
/// within so many ticks of it.
fn latest_unanswered(question: &PhasedQuestion, arrival: i64, within: u64) -> Option<i64>
    requires in_range { IsPhasedInRange question.now }
    requires not_before { pos 0 ≤ℤ arrival }
    requires in_cycle { arrival <ℤ pos question.now.cycle }
    requires within { within ≤ MOST_TICKS }
    ensures { MatchOption result (IsAllAnswered (asked_of question.now) within arrival)
        (IsLatestUnanswered (asked_of question.now) within arrival) }
{
    let before = question.arrivals.last_arrival(arrival - 1);
    let latest = arrival + within as i64;
    let mut start = arrival + question.beside.jitter as i64;
    while start > before {
        if is_late(question, start, latest) {
            return Some(start);
        }
        start = question.last_release_before(start).unwrap_or(before);
    }
    None
}

/// Finds the window of the first arrival in the cycle that isn't answered within so many ticks.
fn first_unanswered(question: &PhasedQuestion, within: u64) -> Option<WorstWindow>
    requires in_range { IsPhasedInRange question.now }
    requires within { within ≤ MOST_TICKS }
    ensures { MatchOption result (suffices (asked_of question.now) within ≡ true)
        (IsFirstUnanswered (asked_of question.now) within) }
{
    let end = question.cycle as i64;
    let mut arrival = question.arrivals.first_arrival(0);
    while arrival < end {
        if let Some(start) = latest_unanswered(question, arrival, within) {
            return Some(WorstWindow { arrival, start });
        }
        arrival = question.arrivals.first_arrival(arrival + 1);
    }
    None
}

/// Checks whether a job of a task that arrives in the cycle is released at a moment, when it waits
/// for its whole jitter.
fn is_released_by(above: &InPhase, cycle: u64, start: i64) -> bool
    requires phase { IsPhaseInRange above.now.phase }
    requires jitter { above.now.jitter ≤ MOST_TICKS }
    requires cycle { cycle ≤ MOST_IN_CYCLE * MOST_TICKS }
    requires start { IsIntegerWithin (20000 * MOST_TICKS) start }
    ensures { result ≡ is_released_in cycle start above.now.phase above.now.jitter }
{
    let arrival = start - above.jitter as i64;
    if arrival < 0 {
        return false;
    }
    if arrival >= cycle as i64 {
        return false;
    }
    above.phase.last_arrival(arrival) == arrival
}

/// Checks whether a job of a task in phase that arrives in the cycle is released at a moment, when
/// it waits for its whole jitter.
fn is_released(question: &PhasedQuestion, start: i64) -> bool
    requires in_range { IsPhasedInRange question.now }
    requires start { IsIntegerWithin (20000 * MOST_TICKS) start }
    ensures { result ≡ list_any (λ above.
        is_released_in question.now.cycle start above.phase above.jitter) question.now.in_phase }
{
    for above in question.in_phase.as_slice() {
        if is_released_by(above, question.cycle, start) {
            return true;
        }
    }
    false
}

/// Checks whether the worst window of a task without fixed arrivals may begin at a moment: where a
/// job of a task in phase is released, or at 0 where none is in phase.
fn is_candidate(question: &PhasedQuestion, start: i64) -> bool
    requires in_range { IsPhasedInRange question.now }
    requires start { IsIntegerWithin (20000 * MOST_TICKS) start }
    ensures { IsTrue result ↔ IsCandidateOf question.now start }
{
    if question.in_phase.is_empty() {
        start == 0
    } else {
        is_released(question, start)
    }
}

/// Checks whether a moment is a candidate from which on no window ends within so many ticks.
fn is_unanswered(question: &PhasedQuestion, start: i64, within: u64) -> bool
    requires in_range { IsPhasedInRange question.now }
    requires start { IsIntegerWithin (20000 * MOST_TICKS) start }
    requires within { within ≤ MOST_TICKS }
    ensures yes { result ≡ true → IsCandidateOf question.now start
        × NoneEndsBy (asked_of question.now) start (start +ℤ pos within) }
    ensures no { result ≡ false → IsCandidateOf question.now start
        → EndsBy (asked_of question.now) start (start +ℤ pos within) }
{
    is_candidate(question, start) && is_late(question, start, start + within as i64)
}

/// Finds a moment before another, from 0 on or the one before it, such that no candidate lies
/// between them.
fn candidate_before(question: &PhasedQuestion, start: i64) -> i64
    requires in_range { IsPhasedInRange question.now }
    requires not_before { pos 0 ≤ℤ start }
    requires start { IsIntegerWithin (20000 * MOST_TICKS) start }
    ensures before { result <ℤ start }
    ensures none { (moment : ℤ) → result <ℤ moment → moment <ℤ start
        → IsCandidateOf question.now moment → ⊥ }
{
    question
        .last_release_before(start)
        .unwrap_or(start.min(1) - 1)
}

/// Finds the longest jitter of the tasks in phase.
fn longest_jitter(question: &PhasedQuestion) -> u64
    requires in_range { IsPhasedInRange question.now }
    ensures all { All (λ (above : InPhase). above.jitter ≤ result) question.now.in_phase }
    ensures short { result ≤ MOST_TICKS }
{
    let mut longest: u64 = 0;
    for above in question.in_phase.as_slice() {
        longest = longest.max(above.jitter);
    }
    longest
}

/// Finds the least candidate from which on no window ends within so many ticks.
fn least_unanswered(question: &PhasedQuestion, within: u64) -> Option<i64>
    requires in_range { IsPhasedInRange question.now }
    requires within { within ≤ MOST_TICKS }
    ensures { MatchOption result
        (AreCandidatesAnswered question.now within (pos 0 -ℤ pos 1))
        (IsLeastAfter question.now within (pos 0 -ℤ pos 1)) }
{
    let mut found = None;
    let mut start = candidate_before(question, (question.cycle + longest_jitter(question)) as i64);
    while start >= 0 {
        found = if is_unanswered(question, start, within) {
            Some(start)
        } else {
            found
        };
        start = candidate_before(question, start);
    }
    found
}

/// Computes within how many ticks some arrival isn't answered, at most: one less than the response,
/// or the deadline of a late task.
fn less_than(response: Option<u64>, deadline: u64) -> u64
    ensures { result ≡ less_than response deadline }
{
    match response {
        Some(response) => response.saturating_sub(1),
        None => deadline,
    }
}

/// Checks whether the arrivals of a stimulus are fixed.
fn is_fixed(kind: StimulusKind) -> bool
    ensures { result ≡ is_some (phase_of kind) }
{
    match kind {
        StimulusKind::Periodic { .. } => true,
        StimulusKind::Sporadic { .. } => false,
        StimulusKind::Burst { .. } => true,
    }
}

/// Finds the worst window of a task, given by its number and its response by phases; `None` stands
/// for a late task.
///
/// Of a task with fixed arrivals it is that of the first arrival in the cycle that takes the
/// response, or isn't answered by the deadline, and of it the one that begins last. Of another task
/// it is the one that begins first, of those that begin where a job of a task in phase is released
/// at the latest.
///
/// Each task has one. `NoMemory` comes where there is no memory for a list of the tasks above; it
/// leaves nothing.
pub fn worst_window(
    alloc: Global,
    model: &ValidModel,
    task: u32,
    response: Option<u64>,
) -> Result<WorstWindow, NoMemory>
    requires task { task < length model.now.tasks }
    requires response { option_map (λ (settled : Response). settled.response)
        (response_by_phase (system_of model.now) task) ≡ response }
    ensures { IfOk result (IsWorstWindowOf (system_of model.now) task) }
{
    let question = ask_by_phase(alloc, model, task)?;
    let within = less_than(response, question.beside.deadline);
    if is_fixed(model.stimulus_of(task)) {
        match first_unanswered(&question, within) {
            Some(window) => Ok(window),
            None => unreachable!(),
        }
    } else {
        match least_unanswered(&question, within) {
            Some(start) => Ok(WorstWindow {
                arrival: start,
                start,
            }),
            None => unreachable!(),
        }
    }
}
