//! The items of a row: the parts of what a task executes, and the bands of its jobs. Times are in
//! ticks.
ghost use Rattle.std.specs.Prelude.{◌≡◌, ◌<◌, length, map, filter, slice_get, nat_le, All, IfOk};
ghost use Rattle.cl_model.specs.ByNumber.{task_at, deadline_of};
ghost use Rattle.cl_runs.specs.Run.{jobs_of};
ghost use Rattle.cl_picture.specs.{Window.IsPictureWindow, Bars.counts};
ghost use Rattle.cl_draw.specs.{Items.{is_whole, part_kind, part_item, band, bands}, Parts.due_at, Inner.TaskRuns.{IsTaskRun, IsPartOf, passing}};

use crate::keeping::keep;
use crate::parts::{Part, due_of};
use crate::task_run::TaskRun;
use cl_model::List;
use cl_picture::{Item, Rest, Window};
use cl_time::NoMemory;
use std::alloc::Global;

/// Checks whether a part begins at the moment at which its job is due, or later.
fn is_past(of: TaskRun<'_>, part: &Part) -> bool
    requires of { IsTaskRun of.model.now of.run.now of.task }
    requires part { IsPartOf of.model.now of.run.now of.task part.now }
    ensures { result ≡ nat_le (due_at (jobs_of of.entry.run.now of.entry.task) (deadline_of of.entry.model.now of.entry.task) part.now.job) part.now.from }
{
    match of.jobs()[part.job].arrival.checked_add(of.deadline()) {
        Some(due) => due <= part.from,
        None => false,
    }
}

/// Checks whether a part executes a whole runnable.
fn is_whole(of: TaskRun<'_>, part: &Part) -> bool
    requires of { IsTaskRun of.model.now of.run.now of.task }
    requires part { IsPartOf of.model.now of.run.now of.task part.now }
    ensures { result ≡ is_whole (task_at of.entry.model.now of.entry.task).runnables part.now.place }
{
    of.runnables()[part.place].whole
}

/// Returns the class in which a part is drawn: 2 where it is past the deadline of its job, else 1
/// in a whole runnable, and else 0.
fn part_kind(of: TaskRun<'_>, part: &Part) -> u8
    requires of { IsTaskRun of.model.now of.run.now of.task }
    requires part { IsPartOf of.model.now of.run.now of.task part.now }
    ensures { result ≡ part_kind (jobs_of of.entry.run.now of.entry.task) (deadline_of of.entry.model.now of.entry.task)
        (task_at of.entry.model.now of.entry.task).runnables part.now }
{
    if is_past(of, part) {
        2
    } else if is_whole(of, part) {
        1
    } else {
        0
    }
}

/// Returns the item of a part, if it shares a tick with the window.
fn part_in(window: Window, of: TaskRun<'_>, part: &Part) -> Option<Item>
    requires of { IsTaskRun of.model.now of.run.now of.task }
    requires part { IsPartOf of.model.now of.run.now of.task part.now }
    ensures { result ≡ passing (counts window)
        (part_item (jobs_of of.entry.run.now of.entry.task) (deadline_of of.entry.model.now of.entry.task) (task_at of.entry.model.now of.entry.task).runnables part.now) }
{
    let item = Item {
        job: part.job as u64,
        from: part.from,
        to: part.to,
        kind: part_kind(of, part),
        rest: Rest::Part { place: part.place },
    };
    if window.counts(&item) {
        Some(item)
    } else {
        None
    }
}

/// Collects the items of the parts that share a tick with the window, in order.
pub(crate) fn part_items(
    alloc: Global,
    window: Window,
    of: TaskRun<'_>,
    parts: &[Part],
) -> Result<List<Item>, NoMemory>
    requires of { IsTaskRun of.model.now of.run.now of.task }
    requires parts { All (IsPartOf of.model.now of.run.now of.task) parts.now }
    ensures { IfOk result (λ items. items ≡ filter (counts window)
        (map (part_item (jobs_of of.entry.run.now of.entry.task) (deadline_of of.entry.model.now of.entry.task) (task_at of.entry.model.now of.entry.task).runnables) parts.now)) }
{
    let mut items = List::new(alloc);
    for part in parts {
        keep(&mut items, part_in(window, of, part))?;
    }
    Ok(items)
}

/// Returns the finish of a job, if it finishes.
fn finish_at(finishes: &[u64], job: usize) -> Option<u64>
    ensures { result ≡ slice_get finishes.now job }
{
    finishes.get(job).copied()
}

/// Returns the band of a job, if it shares a tick with the window. It lasts from the release of the
/// job to its finish, or to the end of the run where it doesn't finish.
fn band_in(window: Window, of: TaskRun<'_>, finishes: &[u64], job: usize) -> Option<Item>
    requires window { IsPictureWindow window }
    requires of { IsTaskRun of.model.now of.run.now of.task }
    requires in_table { job < length (jobs_of of.run.now of.task) }
    ensures { result ≡ passing (counts window) (band (jobs_of of.entry.run.now of.entry.task) (deadline_of of.entry.model.now of.entry.task) finishes.now of.entry.run.now.table.ticks job) }
{
    let finish = finish_at(finishes, job);
    let it = &of.jobs()[job];
    let band = Item {
        job: job as u64,
        from: it.release,
        to: finish.unwrap_or(of.ticks()),
        kind: 0,
        rest: Rest::Band {
            arrival: it.arrival,
            due: due_of(of, job),
            finished: finish.is_some(),
        },
    };
    if window.counts(&band) {
        Some(band)
    } else {
        None
    }
}

/// Collects the bands of jobs that share a tick with the window, in order.
pub(crate) fn bands_in(
    alloc: Global,
    window: Window,
    of: TaskRun<'_>,
    finishes: &[u64],
) -> Result<List<Item>, NoMemory>
    requires window { IsPictureWindow window }
    requires of { IsTaskRun of.model.now of.run.now of.task }
    ensures { IfOk result (λ items. items ≡ filter (counts window)
        (bands (jobs_of of.entry.run.now of.entry.task) (deadline_of of.entry.model.now of.entry.task) finishes.now of.entry.run.now.table.ticks)) }
{
    let mut items = List::new(alloc);
    for job in 0..of.jobs().len() {
        keep(&mut items, band_in(window, of, finishes, job))?;
    }
    Ok(items)
}
