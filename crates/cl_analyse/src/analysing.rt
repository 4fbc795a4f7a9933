//! The analysis of a model. Times are in ticks.
ghost use Rattle.std.specs.Prelude.{◌≡◌, ◌+◌, ◌*◌, ◌<◌, ◌≤◌, length, slice_index_or, IfOk};
ghost use Rattle.cl_model.specs.{Groups.steps_of, ByNumber.chain_at, Validity.IsValid};
ghost use Rattle.cl_runs.specs.SystemOf.{system_of};
ghost use Rattle.cl_bound.specs.Answers.{answers_of, answer_at, is_late};
ghost use Rattle.cl_analyse.specs.{ChainAnswers.{first_late, chain_answer_of, chain_answers_of, OnLate}, Findings.AreFindings, Headline.AreSafeFindings};

use crate::exact_answers::answer_exacts;
use crate::findings::{ChainAnswer, Findings};
use crate::judging::judge_all;
use crate::task_answers::answer_tasks;
use cl_bound::{TaskAnswer, bound};
use cl_model::{List, ValidModel};
use cl_resp::Block;
use cl_time::{NoMemory, Steps};
use std::alloc::Global;
use std::sync::ledger::Ledger;

/// Analyses a model: finds the response of each task, the bounds of each chain none of whose tasks
/// is late, its exact lengths where its tasks are also all timed and periodic and its hyperperiod
/// is within the limit, and the verdict on each requirement.
///
/// In each legal run, of any length, each job of a settled task finishes at most the response after
/// its arrival, if the run lasts until then, and each bound and each exact length is at least the
/// length of each complete chain of its kind. The witness of an exact length is such a chain, of
/// that length, in each legal run that lasts to its end or, for a reduced age, one period of its
/// last task longer. A requirement that is found met is kept by each complete chain of its chain
/// and kind.
///
/// It counts a step for each task, for each chain that has bounds, and for each whose exact lengths
/// are sought. `NoMemory` comes where there is no memory for the findings, for a question or for
/// the order in which tasks are asked; it leaves nothing.
pub fn analyse<L: Ledger>(
    alloc: Global,
    model: &ValidModel,
    steps: &mut Steps<L>,
) -> Result<Findings, NoMemory>
    ensures findings { IfOk result (AreFindings model.now) }
    ensures safe { IfOk result (AreSafeFindings model.now) }
    ensures steps { steps.new ≤ steps.old + (length model.now.tasks + 2 * length model.now.chains) }
{
    let tasks = answer_plainly(alloc, model, steps)?;
    let chains = answer_chains(alloc, model, &tasks, steps)?;
    let exacts = answer_exacts(alloc, model, &chains, steps)?;
    let verdicts = judge_all(alloc, model, &chains, &exacts)?;
    Ok(Findings {
        tasks,
        chains,
        exacts,
        verdicts,
    })
}

/// Answers the questions of all tasks.
fn answer_plainly<L: Ledger>(
    alloc: Global,
    model: &ValidModel,
    steps: &mut Steps<L>,
) -> Result<List<TaskAnswer>, NoMemory>
    ensures answers { IfOk result (λ answers. answers ≡ answers_of (system_of model.now)) }
    ensures steps { steps.new ≤ steps.old + length model.now.tasks }
    ensures valid { IsValid model.now }
{
    answer_tasks(alloc, model, Block::WithOwn, steps)
}

/// Answers for all chains, from the answers for all tasks.
fn answer_chains<L: Ledger>(
    alloc: Global,
    model: &ValidModel,
    tasks: &List<TaskAnswer>,
    steps: &mut Steps<L>,
) -> Result<List<ChainAnswer>, NoMemory>
    requires { tasks.now ≡ answers_of (system_of model.now) }
    ensures answers { IfOk result (λ answers. answers ≡ chain_answers_of model.now) }
    ensures steps { steps.new ≤ steps.old + length model.now.chains }
{
    let mut answers = List::new(alloc);
    for chain in 0..model.chains() {
        answers.push(answer_chain(model, chain, tasks, steps))?;
    }
    Ok(answers)
}

/// Answers for a chain, given by its number, from the answers for all tasks: finds its bounds,
/// which counts a step, or the first of its tasks that is late, which counts none. It takes no
/// memory.
pub fn answer_chain<L: Ledger>(
    model: &ValidModel,
    chain: u32,
    tasks: &List<TaskAnswer>,
    steps: &mut Steps<L>,
) -> ChainAnswer
    requires chain { chain < length model.now.chains }
    requires answers { tasks.now ≡ answers_of (system_of model.now) }
    ensures answer { result ≡ chain_answer_of model.now (chain_at model.now chain) }
    ensures steps { steps.new ≤ steps.old + 1 }
    ensures late { OnLate result (steps.new ≡ steps.old) }
{
    match first_late(model, chain, tasks) {
        Some(task) => ChainAnswer::Late { task },
        None => ChainAnswer::Bounds(bound(model, chain, tasks, steps)),
    }
}

/// Finds the first late task along the steps of a chain, given by its number, by the answers for
/// all tasks. It is `None` exactly where no task of the chain is late. A task without an answer
/// counts as late. It takes no memory.
pub fn first_late(model: &ValidModel, chain: u32, answers: &List<TaskAnswer>) -> Option<u32>
    requires { chain < length model.now.chains }
    ensures { result ≡ first_late answers.now (steps_of model.now (chain_at model.now chain)) }
{
    for place in 0..model.group_count(chain) {
        let task = model.group(chain, place).task;
        if task_is_late(answers, task) {
            return Some(task);
        }
    }
    None
}

/// Checks whether a task is late. A task without an answer counts as late.
fn task_is_late(answers: &List<TaskAnswer>, task: u32) -> bool
    ensures { result ≡ is_late (answer_at answers.now task) }
{
    match answers.at(task as usize) {
        Some(answer) => answer.is_late(),
        None => true,
    }
}
