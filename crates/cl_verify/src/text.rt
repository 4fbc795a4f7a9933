//! The text of what is decided of a model. Times are in ticks.
ghost use Rattle.std.specs.Prelude.{◌≡◌, ◌+◌, ◌^◌, ◌<◌, ◌++◌, length, count_by, OnOk, IfOk};
ghost use Rattle.cl_verify.specs.{Decisions.{AreRequirementDecisions, AreDecisionsOf}, VerifyText.{is_task_met, is_task_broken, is_task_unshown, is_requirement_met, is_requirement_broken, is_requirement_unshown, sum_line, task_decision_lines, decision_lines, verify_text}};

use crate::decision::{Decision, Decisions, TaskDecision};
use crate::lines::{put_requirement, put_task};
use cl_model::{List, ValidModel};
use cl_text::Text;
use cl_time::NoMemory;
use std::alloc::Global;

/// Builds the text of what is decided of a model: a title, how many lines say met, broken and
/// unshown, and a line for each task and each requirement, each in file order. Times are in ticks.
/// The decisions are those of the model.
///
/// `NoMemory` comes where there is no memory for the text; it leaves nothing.
pub fn verify_text(
    alloc: Global,
    model: &ValidModel,
    decisions: &Decisions,
) -> Result<Text, NoMemory>
    requires { AreDecisionsOf model.now decisions.now }
    ensures { IfOk result (λ text. text ≡ verify_text model.now decisions.now) }
{
    let tasks = model.tasks();
    prove!(decisions.tasks.len() == tasks as usize);
    let mut text = Text::new(alloc);
    text.put(b"chainlat verify 2\n")?;
    put_sum(&mut text, decisions)?;
    put_tasks(&mut text, model, &decisions.tasks)?;
    put_requirements(&mut text, model, &decisions.requirements)?;
    Ok(text)
}

/// Counts the tasks that are met.
fn count_met_tasks(decisions: &[TaskDecision]) -> usize
    ensures { result ≡ count_by is_task_met decisions.now }
{
    decisions
        .iter()
        .filter(|decision| matches!(decision, TaskDecision::Met { .. }))
        .count()
}

/// Counts the tasks that are broken.
fn count_broken_tasks(decisions: &[TaskDecision]) -> usize
    ensures { result ≡ count_by is_task_broken decisions.now }
{
    decisions
        .iter()
        .filter(|decision| matches!(decision, TaskDecision::Broken))
        .count()
}

/// Counts the tasks of which nothing is shown.
fn count_unshown_tasks(decisions: &[TaskDecision]) -> usize
    ensures { result ≡ count_by is_task_unshown decisions.now }
{
    decisions
        .iter()
        .filter(|decision| matches!(decision, TaskDecision::Unshown { .. }))
        .count()
}

/// Counts the requirements that are met.
fn count_met(decisions: &[Decision]) -> usize
    ensures { result ≡ count_by is_requirement_met decisions.now }
{
    decisions
        .iter()
        .filter(|decision| matches!(decision, Decision::Met { .. }))
        .count()
}

/// Counts the requirements that are broken.
fn count_broken(decisions: &[Decision]) -> usize
    ensures { result ≡ count_by is_requirement_broken decisions.now }
{
    decisions
        .iter()
        .filter(|decision| matches!(decision, Decision::Broken { .. }))
        .count()
}

/// Counts the requirements of which nothing is shown.
fn count_unshown(decisions: &[Decision]) -> usize
    ensures { result ≡ count_by is_requirement_unshown decisions.now }
{
    decisions
        .iter()
        .filter(|decision| { matches!(decision, Decision::Unshown { .. } | Decision::Late { .. }) })
        .count()
}

/// Puts the line that says how many lines say what.
fn put_sum(text: &mut Text, decisions: &Decisions) -> Result<(), NoMemory>
    requires { length decisions.now.tasks + length decisions.now.requirements < 2 ^ 64 }
    ensures { OnOk result (text.new ≡ text.old ++ sum_line decisions.now) }
{
    let tasks = decisions.tasks.as_slice();
    let requirements = decisions.requirements.as_slice();
    text.put(b"sum met ")?;
    text.put_number(count_met_tasks(tasks) as u64 + count_met(requirements) as u64)?;
    text.put(b" broken ")?;
    text.put_number(count_broken_tasks(tasks) as u64 + count_broken(requirements) as u64)?;
    text.put(b" unshown ")?;
    text.put_number(count_unshown_tasks(tasks) as u64 + count_unshown(requirements) as u64)?;
    text.put(b"\n")
}

/// Puts the lines of all tasks in file order. There is one decision for each task.
fn put_tasks(
    text: &mut Text,
    model: &ValidModel,
    decisions: &List<TaskDecision>,
) -> Result<(), NoMemory>
    requires { length decisions.now ≡ length model.now.tasks }
    ensures { OnOk result (text.new ≡ text.old ++ task_decision_lines model.now decisions.now) }
{
    for task in 0..model.tasks() {
        put_task(text, model, task, decisions.as_slice()[task as usize])?;
    }
    Ok(())
}

/// Puts the lines of all requirements in file order.
fn put_requirements(
    text: &mut Text,
    model: &ValidModel,
    decisions: &List<Decision>,
) -> Result<(), NoMemory>
    requires { AreRequirementDecisions model.now decisions.now }
    ensures { OnOk result (text.new ≡ text.old ++ decision_lines model.now decisions.now) }
{
    let requirements = model.plain().requirements.as_slice();
    for place in 0..requirements.len() {
        put_requirement(
            text,
            model,
            &requirements[place],
            decisions.as_slice()[place],
        )?;
    }
    Ok(())
}
