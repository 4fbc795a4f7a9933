//! Questions on what is known of tasks by the phases of the tasks above them. Times are in ticks,
//! and moments may lie before 0.
ghost use Rattle.std.specs.Prelude.{◌≡◌, ◌<◌, length, Some, None};
ghost use Rattle.std.specs.Option.{option_map};
ghost use Rattle.cl_runs.specs.SystemOf.{system_of};
ghost use Rattle.cl_resp.specs.{ByPhase.{response_by_phase, IsSettledByPhase}, Response.Response};

use crate::words::put_number;
use cl_cycle::Cycle;
use cl_lead::lead_of;
use cl_model::ValidModel;
use cl_report::put_task_name;
use cl_resp::{Late, WorstWindow, respond_by_phase, respond_through, widest_window, worst_window};
use cl_text::Text;
use cl_time::NoMemory;
use std::alloc::Global;

/// Answers `phases MODEL`: for each task, in file order, its cycle and the tasks above it that are
/// in phase, the leads of its runnables, its response, those of its runnables, and its worst
/// window, a line each. A late task has no line of the responses of its runnables.
pub(crate) fn phases_lines(alloc: Global, model: &ValidModel) -> Result<Text, NoMemory> {
    let mut text = Text::new(alloc);
    for task in 0..model.tasks() {
        put_cycle(&mut text, model, task)?;
        put_leads(&mut text, model, task)?;
        put_response(alloc, &mut text, model, task)?;
    }
    Ok(text)
}

/// Puts the words with which each line of a task begins.
fn put_task(text: &mut Text, model: &ValidModel, task: u32) -> Result<(), NoMemory>
    requires { task < length model.now.tasks }
{
    text.put(b"task ")?;
    put_task_name(text, model, task)
}

/// Puts the cycle of a task and the names of the tasks in phase, on a line.
fn put_cycle(text: &mut Text, model: &ValidModel, task: u32) -> Result<(), NoMemory>
    requires { task < length model.now.tasks }
{
    let cycle = Cycle::of(model, task);
    put_task(text, model, task)?;
    put_number(text, b" cycle ", cycle.ticks())?;
    text.put(b" in phase")?;
    put_in_phase(text, model, &cycle)?;
    text.put(b"\n")
}

/// Puts the names of the tasks in phase, in file order, or `none`.
fn put_in_phase(text: &mut Text, model: &ValidModel, cycle: &Cycle) -> Result<(), NoMemory> {
    let mut is_some = false;
    for other in 0..model.tasks() {
        if cycle.has(other) {
            text.put(b" ")?;
            put_task_name(text, model, other)?;
            is_some = true;
        }
    }
    if is_some { Ok(()) } else { text.put(b" none") }
}

/// Puts the leads of the runnables of a task, on a line.
fn put_leads(text: &mut Text, model: &ValidModel, task: u32) -> Result<(), NoMemory>
    requires { task < length model.now.tasks }
{
    put_task(text, model, task)?;
    text.put(b" leads")?;
    for place in 0..model.task(task).runnables.len() as u32 {
        put_number(text, b" ", lead_of(model, task, place))?;
    }
    text.put(b"\n")
}

/// Puts the response of a task or that it is late, the responses of its runnables, and its worst
/// window.
fn put_response(
    alloc: Global,
    text: &mut Text,
    model: &ValidModel,
    task: u32,
) -> Result<(), NoMemory>
    requires { task < length model.now.tasks }
{
    let widest = widest_window(alloc, model, task)?;
    match respond_by_phase(alloc, model, task, widest)? {
        Ok(settled) => put_in_time(alloc, text, model, task, settled.response()),
        Err(Late) => put_late(alloc, text, model, task),
    }
}

/// Puts the response of a task that isn't late, those of its runnables, and its worst window.
fn put_in_time(
    alloc: Global,
    text: &mut Text,
    model: &ValidModel,
    task: u32,
    response: u64,
) -> Result<(), NoMemory>
    requires task { task < length model.now.tasks }
    requires settled { IsSettledByPhase (system_of model.now) task response }
{
    put_task(text, model, task)?;
    put_number(text, b" response ", response)?;
    text.put(b"\n")?;
    put_through(alloc, text, model, task, response)?;
    put_worst(alloc, text, model, task, Some(response))
}

/// Puts that a task is late, and its worst window.
fn put_late(alloc: Global, text: &mut Text, model: &ValidModel, task: u32) -> Result<(), NoMemory>
    requires task { task < length model.now.tasks }
    requires response { response_by_phase (system_of model.now) task ≡ None }
{
    put_task(text, model, task)?;
    text.put(b" late\n")?;
    put_worst(alloc, text, model, task, None)
}

/// Puts the responses of the runnables of a task up to each place, on a line. The task has this
/// response.
#[tactic(auto, using(cl_resp::proofs::PhasedAnswers::ranges_counted))]
fn put_through(
    alloc: Global,
    text: &mut Text,
    model: &ValidModel,
    task: u32,
    response: u64,
) -> Result<(), NoMemory>
    requires task { task < length model.now.tasks }
    requires settled { IsSettledByPhase (system_of model.now) task response }
{
    put_task(text, model, task)?;
    text.put(b" through")?;
    for place in 0..model.task(task).runnables.len() as u32 {
        let through = respond_through(alloc, model, task, place, response)?;
        put_number(text, b" ", through)?;
    }
    text.put(b"\n")
}

/// Puts the arrival and the beginning of the worst window of a task, on a line.
fn put_worst(
    alloc: Global,
    text: &mut Text,
    model: &ValidModel,
    task: u32,
    response: Option<u64>,
) -> Result<(), NoMemory>
    requires task { task < length model.now.tasks }
    requires response { option_map (λ (settled : Response). settled.response)
        (response_by_phase (system_of model.now) task) ≡ response }
{
    put_task(text, model, task)?;
    let WorstWindow { arrival, start } = worst_window(alloc, model, task, response)?;
    text.put(format!(in alloc; " worst {arrival} from {start}\n")?.as_bytes())
}
