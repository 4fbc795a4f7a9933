//! What an engineer should know of an accepted model.
ghost use Rattle.std.specs.Prelude.{◌≡◌, ◌+◌, ◌<◌, ◌≤◌, ◌++◌, nat_lt, length, filter, position, OnOk, IfOk};
ghost use Rattle.std.specs.List.{flat_map, range_with_len};
ghost use Rattle.cl_model.specs.Validity.{IsValid};
ghost use Rattle.cl_runs.specs.SystemOf.{system_of};
ghost use Rattle.cl_bound.specs.Answers.{is_late, answer_at};
ghost use Rattle.cl_tight.specs.TightAnswers.{tight_answers_of};
ghost use Rattle.cl_explain.specs.{Loads.sure_load, Accepted.{overloaded_line, late_task_line, all_label_lines, names_stimulus, apart_line, apart_from, apart_lines, accepted_text}};

use crate::labels::{LabelUse, Marks, put_labels, put_named};
use crate::loads::{MILLION, load_of_core};
use crate::times::put_times;
use cl_model::{StimulusDef, StimulusKind, TaskDef, ValidModel};
use cl_report::put_name;
use cl_text::Text;
use cl_tight::answer_by_phase;
use cl_time::{NoMemory, Steps};
use std::alloc::Global;
use std::sync::ledger::Ledger;

/// Builds the text on an accepted model: a title, and the line `accepted`; the cores whose tasks
/// take more than all of their time, even with each task's load rounded down; the tasks that are
/// late by phases; for each sporadic stimulus, its first task paired with each of its other tasks,
/// since the jobs of the two don't arrive together; the runnables that take more than half of the
/// least distance of their task; and the labels that are only read, those that are only written,
/// and those that are neither. Each kind of line is in file order.
///
/// It counts at most a step for each task. `NoMemory` comes where there is no memory for the names,
/// the text or a list of tasks; it leaves nothing.
pub fn accepted<L: Ledger>(
    alloc: Global,
    model: &ValidModel,
    steps: &mut Steps<L>,
) -> Result<Text, NoMemory>
    ensures text { IfOk result (λ text. text ≡ accepted_text model.now) }
    ensures steps { steps.new ≤ steps.old + length model.now.tasks }
{
    let mut text = Text::new(alloc);
    text.put(b"chainlat check 2\naccepted\n")?;
    put_overloaded(&mut text, model)?;
    put_late(alloc, &mut text, model, steps)?;
    put_apart(&mut text, model)?;
    put_times(&mut text, model)?;
    put_all_labels(alloc, &mut text, model)?;
    Ok(text)
}

/// Puts the lines of the labels that are only read, then of those that are only written, then of
/// those that are neither.
fn put_all_labels(alloc: Global, text: &mut Text, model: &ValidModel) -> Result<(), NoMemory>
    ensures { OnOk result (text.new ≡ text.old ++ all_label_lines model.now) }
{
    let marks = Marks::of(alloc, model)?;
    put_labels(text, model, &marks, LabelUse::Input)?;
    put_labels(text, model, &marks, LabelUse::Output)?;
    put_labels(text, model, &marks, LabelUse::Unused)
}

/// Puts the lines of the overloaded cores in file order.
fn put_overloaded(text: &mut Text, model: &ValidModel) -> Result<(), NoMemory>
    ensures { OnOk result
        (text.new ≡ text.old ++ flat_map (overloaded_line model.now) (range_with_len 0 (length model.now.cores))) }
{
    for core in 0..model.cores() {
        put_if_overloaded(text, model, core)?;
    }
    Ok(())
}

/// Checks whether the tasks of a core take more than all of its time, with each task's load rounded
/// down.
fn is_overloaded(model: &ValidModel, core: u32) -> bool
    requires valid { IsValid model.now }
    requires core { core < length model.now.cores }
    ensures { result ≡ nat_lt MILLION (sure_load (system_of model.now) core) }
{
    let round_up = false;
    load_of_core(model, core, round_up) > MILLION
}

/// Puts the line of a core if it is overloaded.
fn put_if_overloaded(text: &mut Text, model: &ValidModel, core: u32) -> Result<(), NoMemory>
    requires valid { IsValid model.now }
    requires core { core < length model.now.cores }
    ensures { OnOk result (text.new ≡ text.old ++ overloaded_line model.now core) }
{
    if is_overloaded(model, core) {
        put_named(text, b"overloaded ", &model.core(core).name)
    } else {
        Ok(())
    }
}

/// Puts the lines of the tasks that are late by phases, in file order. Counts at most a step for
/// each task.
fn put_late<L: Ledger>(
    alloc: Global,
    text: &mut Text,
    model: &ValidModel,
    steps: &mut Steps<L>,
) -> Result<(), NoMemory>
    ensures text { OnOk result
        (text.new ≡ text.old ++ flat_map (late_task_line model.now) (range_with_len 0 (length model.now.tasks))) }
    ensures steps { steps.new ≤ steps.old + length model.now.tasks }
{
    for task in 0..model.tasks() {
        put_if_late(alloc, text, model, task, steps)?;
    }
    Ok(())
}

/// Checks whether a task is late by phases. Counts at most one step.
fn is_late<L: Ledger>(
    alloc: Global,
    model: &ValidModel,
    task: u32,
    steps: &mut Steps<L>,
) -> Result<bool, NoMemory>
    requires { task < length model.now.tasks }
    ensures late { IfOk result
        (λ late. late ≡ is_late (answer_at (tight_answers_of (system_of model.now)) task)) }
    ensures steps { steps.new ≤ steps.old + 1 }
{
    Ok(answer_by_phase(alloc, model, task, steps)?.is_late())
}

/// Puts the line of a task if it is late by phases. Counts at most one step.
fn put_if_late<L: Ledger>(
    alloc: Global,
    text: &mut Text,
    model: &ValidModel,
    task: u32,
    steps: &mut Steps<L>,
) -> Result<(), NoMemory>
    requires { task < length model.now.tasks }
    ensures text { OnOk result (text.new ≡ text.old ++ late_task_line model.now task) }
    ensures steps { steps.new ≤ steps.old + 1 }
{
    if is_late(alloc, model, task, steps)? {
        put_named(text, b"late ", &model.task(task).name)
    } else {
        Ok(())
    }
}

/// Puts the lines of the tasks that name one sporadic stimulus, whose jobs don't arrive together.
fn put_apart(text: &mut Text, model: &ValidModel) -> Result<(), NoMemory>
    ensures { OnOk result
        (text.new ≡ text.old ++ flat_map (apart_lines model.now) model.now.stimuli) }
{
    for stimulus in model.plain().stimuli.as_slice() {
        if matches!(stimulus.kind, StimulusKind::Sporadic { .. }) {
            put_apart_of(text, model.plain().tasks.as_slice(), stimulus)?;
        }
    }
    Ok(())
}

/// Checks whether a task names a stimulus.
fn names(task: &TaskDef, stimulus: &StimulusDef) -> bool
    ensures { result ≡ names_stimulus stimulus.now task.now }
{
    task.stimulus == stimulus.name
}

/// Finds the place of the first task that names a stimulus.
fn first_of(tasks: &[TaskDef], stimulus: &StimulusDef) -> Option<usize>
    ensures { result ≡ position (names_stimulus stimulus.now) tasks.now }
{
    tasks.iter().position(|task| names(task, stimulus))
}

/// Puts a line for each task that names a stimulus, except the first such task.
fn put_apart_of(text: &mut Text, tasks: &[TaskDef], stimulus: &StimulusDef) -> Result<(), NoMemory>
    ensures { OnOk result
        (text.new ≡ text.old ++ apart_from stimulus.now (filter (names_stimulus stimulus.now) tasks.now)) }
{
    match first_of(tasks, stimulus) {
        Some(first) => put_others(text, &tasks[first + 1..], stimulus, &tasks[first]),
        None => Ok(()),
    }
}

/// Puts a line for each of these tasks that names a stimulus, with the first task that names it.
fn put_others(
    text: &mut Text,
    tasks: &[TaskDef],
    stimulus: &StimulusDef,
    first: &TaskDef,
) -> Result<(), NoMemory>
    ensures { OnOk result (text.new
        ≡ text.old ++ flat_map (apart_line stimulus.now first.now) (filter (names_stimulus stimulus.now) tasks.now)) }
{
    for task in tasks {
        if names(task, stimulus) {
            put_pair(text, stimulus, first, task)?;
        }
    }
    Ok(())
}

/// Puts the line of two tasks that name one stimulus.
fn put_pair(
    text: &mut Text,
    stimulus: &StimulusDef,
    first: &TaskDef,
    other: &TaskDef,
) -> Result<(), NoMemory>
    ensures { OnOk result (text.new ≡ text.old ++ apart_line stimulus.now first.now other.now) }
{
    text.put(b"apart ")?;
    put_name(text, &stimulus.name)?;
    text.put(b" ")?;
    put_name(text, &first.name)?;
    text.put(b" ")?;
    put_name(text, &other.name)?;
    text.put(b"\n")
}
