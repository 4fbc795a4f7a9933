//! When each task of a run runs. Times are in ticks.
ghost use Rattle.std.specs.Prelude.{◌≡◌, ℕ, ◌<◌, length, Some, IfOk, OnOk};
ghost use Rattle.cl_run_data.specs.Stretches.{entries_from, AreLongest};
ghost use Rattle.cl_runs.specs.{Run.{IsInForm, core_entries}, SystemOf.system_of, TaskTiming.timing_at};
ghost use Rattle.cl_draw.specs.Inner.Spans.{spans_at, AreEmpty, PutsSpan, PutsCore, AreSpans};

use cl_model::{List, ValidModel};
use cl_run_data::{RunData, Stretch};
use cl_time::NoMemory;
use std::alloc::Global;

/// The ticks `from..to`.
#[derive(Clone, Copy, PartialEq, Eq)]
pub struct Span {
    pub from: u64,
    pub to: u64,
}

/// Builds an empty list of spans for each of `tasks` tasks.
fn no_spans(alloc: Global, tasks: u32) -> Result<Vec<List<Span>>, NoMemory>
    ensures { IfOk result (λ spans. AreEmpty tasks spans.items) }
{
    let mut spans = Vec::new(alloc);
    for _ in 0..tasks {
        spans.push(List::new(alloc))?;
    }
    Ok(spans)
}

/// Appends a span to the list of the task `who`, if there is such a task and it has a list.
fn put_span(spans: &mut Vec<List<Span>>, who: Option<u32>, span: Span) -> Result<(), NoMemory>
    ensures { OnOk result (PutsSpan who span spans.old.items spans.new.items) }
{
    if let Some(task) = who {
        if (task as usize) < spans.len() {
            let list = &mut spans[task as usize];
            list.push(span)?;
        }
    }
    Ok(())
}

/// Appends the stretches of a core to the lists of the tasks that run in them.
fn put_core(spans: &mut Vec<List<Span>>, stretches: &[Stretch]) -> Result<(), NoMemory>
    requires { AreLongest 0 stretches.now }
    ensures { OnOk result
        (PutsCore (entries_from 0 stretches.now) spans.old.items spans.new.items) }
{
    let mut from = 0;
    for stretch in stretches {
        let to = stretch.end;
        put_span(spans, stretch.who, Span { from, to })?;
        from = to;
    }
    Ok(())
}

/// Finds when the tasks of a model run: for each task in file order the list of its stretches, in
/// order.
pub(crate) fn spans_of(
    alloc: Global,
    model: &ValidModel,
    run: &RunData,
) -> Result<Vec<List<Span>>, NoMemory>
    requires { IsInForm (system_of model.now) run.now }
    ensures count { IfOk result (λ spans. length spans.items ≡ length model.now.tasks) }
    ensures spans { IfOk result (λ spans. (task : ℕ) → task < length model.now.tasks
        → AreSpans (core_entries run.now (timing_at (system_of model.now) task).core) task (spans_at spans.items task)) }
{
    let mut spans = no_spans(alloc, model.tasks())?;
    for core in 0..model.cores() {
        put_core(&mut spans, run.stretches(core))?;
    }
    Ok(spans)
}
