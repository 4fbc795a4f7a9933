//! Tight findings. Times are in ticks.
ghost use Rattle.std.specs.Prelude.{◌≡◌, ◌+◌, ◌<◌, ◌≤◌, not, length, map, IsTrue, IfOk};
ghost use Rattle.std.specs.List.{list_all};
ghost use Rattle.cl_model.specs.{ByNumber.chain_at, Groups.groups_at, Validity.IsValid};
ghost use Rattle.cl_runs.specs.{SystemOf.system_of, Requirements.{required_chain, IsInTime}, TaskTiming.timing_at};
ghost use Rattle.cl_resp.specs.{Question.tight_question_of, Response.busy_window};
ghost use Rattle.cl_bound.specs.Answers.{is_late, answer_at, NoneIsLate};
ghost use Rattle.cl_phase.specs.TightBounds.{tight_bounds};
ghost use Rattle.cl_tight.specs.{TightAnswers.tight_answers_of, TightFindings.{tight_chain_answer_of, tight_chain_answers_of, has_exact_bounds, tight_verdict_of, tight_findings_of, is_verified}, Promises.AreSafeTightFindings, TightTimings.tight_timing, Found.AreWindowsOf};
ghost use Rattle.cl_tight.specs.Inner.Windows.{window_in};
ghost use Rattle.cl_analyse.specs.Verdicts.{is_met};

use crate::access_windows::AccessWindows;
use crate::findings::TightFindings;
use cl_analyse::{ChainAnswer, Verdict, answer_tasks, first_late, required_bound, verdict_on};
use cl_bound::TaskAnswer;
use cl_exact::{is_timed_periodic, is_within_limit};
use cl_hop::Bounds;
use cl_model::{List, RequirementDef, ValidModel};
use cl_phase::tight_bounds;
use cl_resp::{Block, respond_by_phase, widest_window};
use cl_time::{NoMemory, Steps};
use std::alloc::Global;
use std::sync::ledger::Ledger;

/// Analyses a model by phases: finds the response of each task by the phases of the tasks above it,
/// the tight bounds of each chain none of whose tasks is late by these, and the verdict on each
/// requirement.
///
/// In each legal run, of any length, each job of a settled task finishes at most the response after
/// its arrival, if the run lasts until then, and each bound is at least the length of each complete
/// chain of its kind. A requirement that is found met is kept by each complete chain of its chain
/// and kind, and one that is found broken is broken by some such chain of some legal run.
///
/// It counts a step for each task. `NoMemory` comes where there is no memory for the findings, for
/// a list of the tasks above one or for the order in which tasks are asked; it leaves nothing.
pub fn tighten<L: Ledger>(
    alloc: Global,
    model: &ValidModel,
    steps: &mut Steps<L>,
) -> Result<TightFindings, NoMemory>
    ensures findings { IfOk result (λ findings. findings ≡ tight_findings_of model.now) }
    ensures safe { IfOk result (AreSafeTightFindings model.now) }
    ensures steps { steps.new ≤ steps.old + length model.now.tasks }
{
    let tasks = answer_tightly(alloc, model, steps)?;
    let chains = tighten_chains(alloc, model, &tasks)?;
    let verdicts = judge_all_tightly(alloc, model, &chains)?;
    Ok(TightFindings {
        tasks,
        chains,
        verdicts,
    })
}

/// Answers all tasks by phases, in file order. It first answers their tight questions from the top
/// of each core down, since their windows cut short the search by phases. It counts a step for each
/// task. `NoMemory` comes where there is no memory for the answers, for a list of the tasks above
/// one or for the order in which tasks are asked; it leaves nothing.
pub fn answer_tightly<L: Ledger>(
    alloc: Global,
    model: &ValidModel,
    steps: &mut Steps<L>,
) -> Result<List<TaskAnswer>, NoMemory>
    ensures answers { IfOk result (λ answers. answers ≡ tight_answers_of (system_of model.now)) }
    ensures steps { steps.new ≤ steps.old + length model.now.tasks }
    ensures valid { IsValid model.now }
{
    let plain = answer_tasks(alloc, model, Block::OfLower, steps)?;
    let mut answers = List::new(alloc);
    for task in 0..model.tasks() {
        let widest = window_in(&plain.as_slice()[task as usize]);
        answers.push(answer_within(alloc, model, task, widest)?)?;
    }
    Ok(answers)
}

/// Returns the window of an answer in ticks, if it has one.
fn window_in(answer: &TaskAnswer) -> Option<u64>
    ensures { result ≡ window_in answer.now }
{
    match answer {
        TaskAnswer::Settled(settled) => Some(settled.window()),
        TaskAnswer::Late => None,
    }
}

/// Answers a task, given by its number, by phases. `widest` is the window of its tight question, if
/// it has one.
fn answer_within(
    alloc: Global,
    model: &ValidModel,
    task: u32,
    widest: Option<u64>,
) -> Result<TaskAnswer, NoMemory>
    requires task { task < length model.now.tasks }
    requires widest { widest
        ≡ busy_window (tight_question_of (system_of model.now) (timing_at (system_of model.now) task)) }
    ensures { IfOk result
        (λ answer. answer ≡ answer_at (tight_answers_of (system_of model.now)) task) }
{
    match respond_by_phase(alloc, model, task, widest)? {
        Ok(settled) => Ok(TaskAnswer::Settled(settled)),
        Err(_) => Ok(TaskAnswer::Late),
    }
}

/// Answers a task, given by its number, by phases: finds its response, or that it is late. It
/// counts one step. `NoMemory` comes where there is no memory for a list of the tasks above it; it
/// leaves nothing.
pub fn answer_by_phase<L: Ledger>(
    alloc: Global,
    model: &ValidModel,
    task: u32,
    steps: &mut Steps<L>,
) -> Result<TaskAnswer, NoMemory>
    requires { task < length model.now.tasks }
    ensures answer { IfOk result
        (λ answer. answer ≡ answer_at (tight_answers_of (system_of model.now)) task) }
    ensures steps { steps.new ≡ steps.old + 1 }
{
    steps.tick();
    let widest = widest_window(alloc, model, task)?;
    answer_within(alloc, model, task, widest)
}

/// Answers for all chains, from the answers by phases for all tasks.
fn tighten_chains(
    alloc: Global,
    model: &ValidModel,
    tasks: &List<TaskAnswer>,
) -> Result<List<ChainAnswer>, NoMemory>
    requires { tasks.now ≡ tight_answers_of (system_of model.now) }
    ensures { IfOk result (λ answers. answers ≡ tight_chain_answers_of model.now) }
{
    let mut windows = AccessWindows::new(alloc, model)?;
    let mut answers = List::new(alloc);
    for chain in 0..model.chains() {
        answers.push(tighten_chain(alloc, model, chain, tasks, &mut windows)?)?;
    }
    Ok(answers)
}

/// Finds the tight bounds of a chain, none of whose tasks is late.
fn bound_chain(
    alloc: Global,
    model: &ValidModel,
    chain: u32,
    tasks: &List<TaskAnswer>,
    windows: &mut AccessWindows,
) -> Result<Bounds, NoMemory>
    requires chain { chain < length model.now.chains }
    requires answers { tasks.now ≡ tight_answers_of (system_of model.now) }
    requires not_late { NoneIsLate tasks.now (groups_at model.now chain) }
    requires windows { AreWindowsOf (system_of model.now) windows.old }
    ensures bounds { IfOk result (λ bounds. bounds ≡ tight_bounds (system_of model.now) (tight_timing (system_of model.now))
        (groups_at model.now chain)) }
    ensures windows { AreWindowsOf (system_of model.now) windows.new }
{
    let groups = model.groups(chain);
    let timings = windows.timings(alloc, model, groups, tasks)?;
    Ok(tight_bounds(model, groups, timings.as_slice()))
}

/// Answers for a chain, from the answers by phases for all tasks: finds its tight bounds, or the
/// first of its tasks that is late.
fn tighten_chain(
    alloc: Global,
    model: &ValidModel,
    chain: u32,
    tasks: &List<TaskAnswer>,
    windows: &mut AccessWindows,
) -> Result<ChainAnswer, NoMemory>
    requires chain { chain < length model.now.chains }
    requires answers { tasks.now ≡ tight_answers_of (system_of model.now) }
    requires windows { AreWindowsOf (system_of model.now) windows.old }
    ensures answer { IfOk result
        (λ answer. answer ≡ tight_chain_answer_of model.now (chain_at model.now chain)) }
    ensures windows { AreWindowsOf (system_of model.now) windows.new }
{
    match first_late(model, chain, tasks) {
        Some(task) => Ok(ChainAnswer::Late { task }),
        None => Ok(ChainAnswer::Bounds(bound_chain(alloc, model, chain, tasks, windows)?)),
    }
}

/// Checks whether the tight bounds of a chain are its exact lengths by a rule: its tasks are all
/// timed and periodic, and its hyperperiod is within the limit.
fn has_exact_bounds(model: &ValidModel, chain: u32) -> bool
    requires chain { chain < length model.now.chains }
    requires valid { IsValid model.now }
    ensures { result ≡ has_exact_bounds model.now chain }
{
    is_timed_periodic(model, chain) && is_within_limit(model, chain)
}

/// Judges all requirements, in file order.
fn judge_all_tightly(
    alloc: Global,
    model: &ValidModel,
    chains: &List<ChainAnswer>,
) -> Result<List<Verdict>, NoMemory>
    ensures { IfOk result
        (λ verdicts. verdicts ≡ map (tight_verdict_of model.now chains.now) model.now.requirements) }
{
    let mut verdicts = List::new(alloc);
    for requirement in model.plain().requirements.as_slice() {
        verdicts.push(judge_tightly(model, chains, requirement))?;
    }
    Ok(verdicts)
}

/// Judges a requirement of the model.
fn judge_tightly(
    model: &ValidModel,
    chains: &List<ChainAnswer>,
    requirement: &RequirementDef,
) -> Verdict
    requires known { required_chain model.now requirement.now < length model.now.chains }
    requires valid { IsValid model.now }
    ensures { result ≡ tight_verdict_of model.now chains.now requirement.now }
{
    let chain = model.chain_named(&requirement.chain).unwrap_or(0);
    let bound = required_bound(chains, chain, requirement.kind);
    let exact = if has_exact_bounds(model, chain) {
        bound
    } else {
        None
    };
    verdict_on(requirement.most, exact, bound)
}

/// Checks whether each task is settled and each requirement met, by the tight findings of the
/// model. If so, then in each legal run of any length, each job whose deadline lies within the run
/// has finished by then, and each complete chain of a requirement's chain and kind is at most as
/// long as the requirement says. It takes no memory.
pub fn is_verified(model: &ValidModel, findings: &TightFindings) -> bool
    requires { findings.now ≡ tight_findings_of model.now }
    ensures verified { result ≡ is_verified findings.now }
    ensures in_time { IsTrue result → IsInTime model.now }
{
    are_in_time(model, findings.tasks.as_slice()) && are_met(findings.verdicts.as_slice())
}

/// Checks whether no task of the model is late, by the answers by phases for all of them.
fn are_in_time(model: &ValidModel, answers: &[TaskAnswer]) -> bool
    requires { answers.now ≡ tight_answers_of (system_of model.now) }
    ensures timely { result ≡ list_all (λ answer. not (is_late answer)) answers.now }
    ensures valid { IsValid model.now }
{
    for task in 0..model.tasks() {
        if answers[task as usize].is_late() {
            return false;
        }
    }
    true
}

/// Checks whether each requirement is met.
fn are_met(verdicts: &[Verdict]) -> bool
    ensures { result ≡ list_all is_met verdicts.now }
{
    verdicts.iter().all(|verdict| is_met(verdict))
}

/// Checks whether a requirement is met.
fn is_met(verdict: &Verdict) -> bool
    ensures { result ≡ is_met verdict.now }
{
    matches!(verdict, Verdict::Met { .. })
}
