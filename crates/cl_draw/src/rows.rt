//! The rows of the tasks of a model.
ghost use Rattle.std.specs.Prelude.{◌≡◌, ◌<◌, length, IfOk};
ghost use Rattle.cl_runs.specs.{Legal.IsLegal, Run.core_entries, SystemOf.system_of, TaskTiming.timing_at};
ghost use Rattle.cl_picture.specs.Window.{IsPictureWindow};
ghost use Rattle.cl_draw.specs.{Rows.IsRowOf, Picture.AreTaskRows, Inner.{TaskRuns.IsTaskRun, Spans.AreSpans}};

use crate::items::{bands_in, part_items};
use crate::parts::work_of;
use crate::spans::{Span, spans_of};
use crate::task_run::TaskRun;
use cl_model::{List, ValidModel};
use cl_picture::{Bar, Window, bars_of};
use cl_run_data::RunData;
use cl_time::NoMemory;
use std::alloc::Global;

/// The bars of a row: those of the bands of the task's jobs, and those of the parts of what it
/// executes.
#[derive(Drop)]
pub struct Row {
    pub bands: List<Bar>,
    pub parts: List<Bar>,
}

/// Builds the row of a task that runs in these spans.
fn row_of(alloc: Global, window: Window, of: TaskRun<'_>, spans: &[Span]) -> Result<Row, NoMemory>
    requires window { IsPictureWindow window }
    requires of { IsTaskRun of.model.now of.run.now of.task }
    requires spans { AreSpans (core_entries of.run.now (timing_at (system_of of.model.now) of.task).core) of.task spans.now }
    ensures { IfOk result (IsRowOf of.entry.model.now of.entry.run.now window of.entry.task) }
{
    let work = work_of(alloc, of, spans)?;
    let bands = bands_in(alloc, window, of, work.finishes.as_slice())?;
    let parts = part_items(alloc, window, of, work.parts.as_slice())?;
    Ok(Row {
        bands: bars_of(alloc, window, bands.as_slice())?,
        parts: bars_of(alloc, window, parts.as_slice())?,
    })
}

/// Builds the rows of all tasks, in file order.
pub(crate) fn rows_of(
    alloc: Global,
    model: &ValidModel,
    run: &RunData,
    window: Window,
) -> Result<List<Row>, NoMemory>
    requires window { IsPictureWindow window }
    requires legal { IsLegal (system_of model.now) run.now }
    ensures count { IfOk result (λ rows. length rows ≡ length model.now.tasks) }
    ensures rows { IfOk result (AreTaskRows model.now run.now window) }
{
    let spans = spans_of(alloc, model, run)?;
    let mut rows = List::new(alloc);
    for task in 0..model.tasks() {
        let of = TaskRun { model, run, task };
        rows.push(row_of(alloc, window, of, spans[task as usize].as_slice())?)?;
    }
    Ok(rows)
}
