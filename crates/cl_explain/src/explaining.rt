//! Why the responses and the bounds of a model are what they are. Times are in ticks.
ghost use Rattle.std.specs.Prelude.{◌≡◌, ◌+◌, ◌<◌, ◌≤◌, ◌++◌, length, OnOk, IfOk};
ghost use Rattle.std.specs.List.{flat_map, range_with_len};
ghost use Rattle.cl_model.specs.{ByNumber.chain_at, Validity.IsValid};
ghost use Rattle.cl_runs.specs.SystemOf.{system_of};
ghost use Rattle.cl_resp.specs.{Question.IsQuestionInRange, Response.response_to};
ghost use Rattle.cl_bound.specs.Answers.{answer_with, answers_of, answer_at};
ghost use Rattle.cl_tight.specs.TightAnswers.{tight_answers_of};
ghost use Rattle.cl_analyse.specs.ChainAnswers.{chain_answer_of};
ghost use Rattle.cl_explain.specs.Explanation.{core_line, task_lines_of, lines_where_bounded, report_lines_of, chain_lines_of, explanation};

use crate::groups::put_groups;
use crate::loads::{MILLION, load_of_core};
use crate::numbers::put_wide;
use crate::parts::put_parts;
use crate::tight::put_tight;
use cl_analyse::{ChainAnswer, answer_chain};
use cl_bound::TaskAnswer;
use cl_model::{List, ValidModel};
use cl_report::{put_chain, put_name, put_task};
use cl_resp::{Question, ask, settle};
use cl_text::Text;
use cl_tight::{AccessWindows, answer_tightly};
use cl_time::{NoMemory, Steps};
use std::alloc::Global;
use std::sync::ledger::Ledger;

/// Builds the explanation of a model: a title; the load of each core; the line of each task,
/// followed by the parts that add up to its response or, where it is late, that exceed its
/// deadline; and the line of each chain, followed by the groups and hops that add up to its bounds,
/// and by its tight bounds with the arrivals of a walk that lasts as long as the one on its
/// reaction. A chain with a late task has no lines of groups and hops, and one with a task that is
/// late by phases no lines of tight bounds. Cores, tasks and chains are each in file order.
///
/// It counts at most a step for each task and one for each chain. `NoMemory` comes where there is
/// no memory for the answers, the text, a question or a list of tasks; it leaves nothing.
pub fn explain<L: Ledger>(
    alloc: Global,
    model: &ValidModel,
    steps: &mut Steps<L>,
) -> Result<Text, NoMemory>
    ensures text { IfOk result (λ text. text ≡ explanation model.now) }
    ensures steps { steps.new ≤ steps.old + (length model.now.tasks + length model.now.chains) }
{
    let mut text = Text::new(alloc);
    text.put(b"chainlat explain 1\n")?;
    put_cores(&mut text, model)?;
    let settled = put_tasks(alloc, &mut text, model)?;
    let tight = answer_tightly(alloc, model, steps)?;
    put_chains(alloc, &mut text, model, &settled, &tight, steps)?;
    Ok(text)
}

/// Puts the lines of all cores in file order.
fn put_cores(text: &mut Text, model: &ValidModel) -> Result<(), NoMemory>
    ensures { OnOk result
        (text.new ≡ text.old ++ flat_map (core_line model.now) (range_with_len 0 (length model.now.cores))) }
{
    for core in 0..model.cores() {
        put_core(text, model, core)?;
    }
    Ok(())
}

/// Puts the line of a core: its load, with each task's load rounded up.
fn put_core(text: &mut Text, model: &ValidModel, core: u32) -> Result<(), NoMemory>
    requires valid { IsValid model.now }
    requires core { core < length model.now.cores }
    ensures { OnOk result (text.new ≡ text.old ++ core_line model.now core) }
{
    let round_up = true;
    text.put(b"core ")?;
    put_name(text, &model.core(core).name)?;
    text.put(b" load ")?;
    put_wide(text, load_of_core(model, core, round_up))?;
    text.put(b" of ")?;
    put_wide(text, MILLION)?;
    text.put(b"\n")
}

/// Puts the lines of all tasks and returns the answers for them, both in file order. Counts no
/// step.
fn put_tasks(
    alloc: Global,
    text: &mut Text,
    model: &ValidModel,
) -> Result<List<TaskAnswer>, NoMemory>
    ensures answers { IfOk result (λ answers. answers ≡ answers_of (system_of model.now)) }
    ensures text { OnOk result
        (text.new ≡ text.old ++ flat_map (task_lines_of model.now) (range_with_len 0 (length model.now.tasks))) }
{
    let mut answers = List::new(alloc);
    for task in 0..model.tasks() {
        answers.push(put_task_parts(alloc, text, model, task)?)?;
    }
    Ok(answers)
}

/// Puts the lines of a task and returns the answer for it. Counts no step.
fn put_task_parts(
    alloc: Global,
    text: &mut Text,
    model: &ValidModel,
    task: u32,
) -> Result<TaskAnswer, NoMemory>
    requires { task < length model.now.tasks }
    ensures answer { IfOk result
        (λ answer. answer ≡ answer_at (answers_of (system_of model.now)) task) }
    ensures text { OnOk result (text.new ≡ text.old ++ task_lines_of model.now task) }
{
    let question = ask(alloc, model, task)?;
    let answer = answer_to(&question);
    put_task(text, model, &answer, task)?;
    put_parts(text, model, task, &question, &answer)?;
    Ok(answer)
}

/// Answers the question of a task. Counts no step.
fn answer_to(question: &Question) -> TaskAnswer
    requires { IsQuestionInRange question.now }
    ensures { result ≡ answer_with (response_to question.now) }
{
    match settle(question) {
        Ok(settled) => TaskAnswer::Settled(settled),
        Err(_) => TaskAnswer::Late,
    }
}

/// Puts the lines of all chains in file order. Counts at most a step for each chain.
fn put_chains<L: Ledger>(
    alloc: Global,
    text: &mut Text,
    model: &ValidModel,
    settled: &List<TaskAnswer>,
    tight: &List<TaskAnswer>,
    steps: &mut Steps<L>,
) -> Result<(), NoMemory>
    requires answers { settled.now ≡ answers_of (system_of model.now) }
    requires tight { tight.now ≡ tight_answers_of (system_of model.now) }
    ensures text { OnOk result
        (text.new ≡ text.old ++ flat_map (chain_lines_of model.now) (range_with_len 0 (length model.now.chains))) }
    ensures steps { steps.new ≤ steps.old + length model.now.chains }
{
    let mut windows = AccessWindows::new(alloc, model)?;
    for chain in 0..model.chains() {
        put_chain_lines(text, model, chain, settled, steps)?;
        put_tight(alloc, text, model, chain, tight, &mut windows)?;
    }
    Ok(())
}

/// Puts the line of a chain and, if it has bounds, those of its groups and hops. Counts at most one
/// step.
fn put_chain_lines<L: Ledger>(
    text: &mut Text,
    model: &ValidModel,
    chain: u32,
    settled: &List<TaskAnswer>,
    steps: &mut Steps<L>,
) -> Result<(), NoMemory>
    requires valid { IsValid model.now }
    requires chain { chain < length model.now.chains }
    requires answers { settled.now ≡ answers_of (system_of model.now) }
    ensures text { OnOk result (text.new ≡ text.old ++ report_lines_of model.now chain) }
    ensures steps { steps.new ≤ steps.old + 1 }
{
    let answer = answer_chain(model, chain, settled, steps);
    put_chain(text, model, &answer, chain)?;
    put_if_bounded(text, model, chain, &answer, settled)
}

/// Puts the lines of the groups and hops of a chain, if it has bounds.
fn put_if_bounded(
    text: &mut Text,
    model: &ValidModel,
    chain: u32,
    answer: &ChainAnswer,
    settled: &List<TaskAnswer>,
) -> Result<(), NoMemory>
    requires chain { chain < length model.now.chains }
    requires answers { settled.now ≡ answers_of (system_of model.now) }
    requires answer { answer.now ≡ chain_answer_of model.now (chain_at model.now chain) }
    ensures { OnOk result (text.new ≡ text.old ++ lines_where_bounded model.now chain answer.now) }
{
    match answer {
        ChainAnswer::Bounds(_) => put_groups(text, model, chain, settled),
        ChainAnswer::Late { .. } => Ok(()),
    }
}
