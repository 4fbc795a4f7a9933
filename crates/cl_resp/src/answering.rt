//! How the response of a task is found. Times are in ticks.
ghost use Rattle.std.specs.Prelude.{◌≡◌, ◌+◌, ◌*◌, ◌^◌, ◌≤◌, Some, None, MatchResult, IfOk};
ghost use Rattle.cl_stim.specs.{AnyStimulus.kind_of, Releases.most_releases};
ghost use Rattle.cl_resp.specs.{Question.IsQuestionInRange, Promises.AnswersFor, Response.{demand, busy_window, response_to, NoneServesBelow}};

use crate::question::{Above, Question};
use crate::rising::Rising;
use crate::settled::{Late, Settled};
use cl_model::{MOST_RUNNABLES, MOST_TASKS_OF_CORE, MOST_TICKS};
use cl_stim::{Arrivals, MOST_WIDTH};
use cl_time::Steps;
use std::sync::ledger::Ledger;

/// Computes how many ticks a task of higher priority takes at most of a window of `width` ticks.
pub(crate) fn taken(above: &Above, width: u64) -> u128
    requires width { width ≤ MOST_WIDTH }
    requires time { above.now.time ≤ MOST_RUNNABLES * MOST_TICKS }
    ensures taken { result ≡ most_releases (kind_of above.now.stimulus) width * above.now.time }
    ensures small { result ≤ 2 ^ 64 * (MOST_RUNNABLES * MOST_TICKS) }
{
    u128::from(above.stimulus.most(width)) * u128::from(above.time)
}

/// Computes the most ticks that a job of the task and what goes before it need in a window of
/// `width` ticks: the block, the execution time of the task, and what the tasks above take. Takes
/// no memory.
pub fn demand(question: &Question, width: u64) -> u128
    requires in_range { IsQuestionInRange question.now }
    requires width { width ≤ MOST_WIDTH }
    ensures { result ≡ demand question.now width }
{
    small_demand(question, width)
}

/// As `demand`, which is small enough for more to be added.
pub(crate) fn small_demand(question: &Question, width: u64) -> u128
    requires in_range { IsQuestionInRange question.now }
    requires width { width ≤ MOST_WIDTH }
    ensures demand { result ≡ demand question.now width }
    ensures small { result
        ≤ 2 ^ 64 + MOST_TASKS_OF_CORE * (2 ^ 64 * (MOST_RUNNABLES * MOST_TICKS)) }
{
    let mut needed = u128::from(question.block) + u128::from(question.time);
    for above in question.above.as_slice() {
        needed += taken(above, width);
    }
    needed
}

/// Finds the least window that holds its own demand, up to the deadline less the jitter. The search
/// starts at a width below which none does, and goes on to the demand as long as that is greater.
fn window(question: &Question, start: u64) -> Option<u64>
    requires in_range { IsQuestionInRange question.now }
    requires start { NoneServesBelow question.now start }
    ensures { result ≡ busy_window question.now }
{
    let end = question.deadline - question.jitter;
    let mut rising = Rising::new();
    let mut width = start.max(question.block + question.time);
    while width <= end {
        let needed = rising.demand(question, width, end)?;
        if needed <= width {
            return Some(width);
        }
        width = needed;
    }
    None
}

/// Finds the window and the response of a task. `Late` comes exactly where no window, from 1 tick
/// up to the deadline less the jitter, holds its own demand.
///
/// Each job of a task of a sound system of which the question asks enough finishes at most the
/// response after its arrival, in every legal run that lasts until then. It takes no memory, and
/// counts one analysing step, whatever it answers.
pub fn respond<L: Ledger>(question: &Question, steps: &mut Steps<L>) -> Result<Settled, Late>
    requires { IsQuestionInRange question.now }
    ensures response { MatchResult result
        (λ settled. response_to question.now ≡ Some settled)
        (λ _. response_to question.now ≡ None) }
    ensures finishing { IfOk result (λ settled. AnswersFor question.now settled.response) }
    ensures steps { steps.new ≡ steps.old + 1 }
{
    let anew = 0;
    respond_from(question, anew, steps)
}

/// Answers as `respond`, by a search that starts at the width `start`, below which none holds its
/// own demand. `Late` comes exactly where it does there. It takes no memory, and counts one
/// analysing step, whatever it answers.
pub fn respond_from<L: Ledger>(
    question: &Question,
    start: u64,
    steps: &mut Steps<L>,
) -> Result<Settled, Late>
    requires in_range { IsQuestionInRange question.now }
    requires start { NoneServesBelow question.now start }
    ensures response { MatchResult result
        (λ settled. response_to question.now ≡ Some settled)
        (λ _. response_to question.now ≡ None) }
    ensures finishing { IfOk result (λ settled. AnswersFor question.now settled.response) }
    ensures steps { steps.new ≡ steps.old + 1 }
{
    steps.tick();
    settle_from(question, start)
}

/// As `respond`, but counts no step: for a second question about a task.
pub fn settle(question: &Question) -> Result<Settled, Late>
    requires { IsQuestionInRange question.now }
    ensures response { MatchResult result
        (λ settled. response_to question.now ≡ Some settled)
        (λ _. response_to question.now ≡ None) }
    ensures finishing { IfOk result (λ settled. AnswersFor question.now settled.response) }
{
    let anew = 0;
    settle_from(question, anew)
}

/// Answers a question, by a search that starts at the width `start`, below which none holds its own
/// demand.
fn settle_from(question: &Question, start: u64) -> Result<Settled, Late>
    requires in_range { IsQuestionInRange question.now }
    requires start { NoneServesBelow question.now start }
    ensures response { MatchResult result
        (λ settled. response_to question.now ≡ Some settled)
        (λ _. response_to question.now ≡ None) }
    ensures finishing { IfOk result (λ settled. AnswersFor question.now settled.response) }
{
    match window(question, start) {
        Some(window) => Ok(Settled {
            window,
            response: question.jitter + window,
        }),
        None => Err(Late),
    }
}
