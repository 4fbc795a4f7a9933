//! What a task executes, and when. Times are in ticks.
ghost use Rattle.std.specs.Prelude.{◌≡◌, ◌≢◌, ◌<◌, ◌≤◌, ◌^◌, ◌-◌, length, min, MatchOption, IfOk, OnOk};
ghost use Rattle.cl_runs.specs.{Run.{jobs_of, core_entries}, SystemOf.system_of, TaskTiming.timing_at};
ghost use Rattle.cl_model.specs.ByNumber.{deadline_of};
ghost use Rattle.cl_draw.specs.{Parts.{due_at, AreParts, AreFinishes}, Inner.{TaskRuns.IsTaskRun, Spans.AreSpans, Cursors.{IsWorkAt, IsCutAt, RunsFrom, IsFurther}, Ends.part_end}};

use crate::cursor::Cursor;
use crate::keeping::keep;
use crate::spans::Span;
use crate::task_run::TaskRun;
use cl_model::List;
use cl_time::NoMemory;
use std::alloc::Global;

/// A part of a stretch of a task: some ticks of one runnable of one job, on one side of the job's
/// deadline.
#[derive(Clone, Copy, PartialEq, Eq)]
pub struct Part {
    /// The job, counted from 0.
    pub job: usize,
    /// The place of the runnable in the task.
    pub place: usize,
    pub from: u64,
    pub to: u64,
}

/// What a task executes, as parts in order, and when its jobs finish, in order of the jobs that do.
#[derive(Drop)]
pub(crate) struct Work {
    pub(crate) parts: List<Part>,
    pub(crate) finishes: List<u64>,
}

/// Returns when a job is due, or the greatest number of 64 bits where that is later.
pub(crate) fn due_of(of: TaskRun<'_>, job: usize) -> u64
    requires of { IsTaskRun of.model.now of.run.now of.task }
    requires in_table { job < length (jobs_of of.run.now of.task) }
    ensures { result ≡ min (due_at (jobs_of of.entry.run.now of.entry.task) (deadline_of of.entry.model.now of.entry.task) job) (2 ^ 64 - 1) }
{
    of.jobs()[job].arrival.saturating_add(of.deadline())
}

/// Returns where a part ends that begins at `from`: where the `left` ticks of its runnable are
/// executed or at the end of the span, whichever is earlier, but at the job's deadline `due` if
/// that lies between.
fn part_end(due: u64, left: u64, from: u64, end: u64) -> u64
    requires { from < end }
    ensures { result ≡ part_end due left from end }
{
    let to = if left < end - from { from + left } else { end };
    if from < due && due < to { due } else { to }
}

/// Returns the finish of the job of a cursor, `to`, if the next cursor stands in another job.
fn finish_between(cursor: Cursor, next: Cursor, to: u64) -> Option<u64>
    ensures { MatchOption result (next.job ≡ cursor.job)
        (λ finish. (finish ≡ to) × (next.job ≢ cursor.job)) }
{
    if next.job == cursor.job {
        None
    } else {
        Some(to)
    }
}

/// Puts the first part of the rest of a span, from `from` to `end`, and returns where it ends. The
/// cursor moves there.
fn put_part(
    work: &mut Work,
    cursor: &mut Cursor,
    of: TaskRun<'_>,
    from: u64,
    end: u64,
) -> Result<u64, NoMemory>
    requires of { IsTaskRun of.model.now of.run.now of.task }
    requires stands { IsWorkAt (system_of of.model.now) of.run.now of.task work.old cursor.old from }
    requires cut { IsCutAt (system_of of.model.now) of.run.now of.task work.old.parts cursor.old from }
    requires some { from < end }
    requires by_end { end ≤ of.run.now.table.ticks }
    requires runs { RunsFrom (system_of of.model.now) of.run.now of.task from end }
    ensures { IfOk result
        (IsFurther (system_of of.entry.model.now) of.entry.run.now of.entry.task from end work.new cursor.new) }
{
    let to = part_end(due_of(of, cursor.job), cursor.left, from, end);
    let next = cursor.after(of, to - from);
    work.parts.push(Part {
        job: cursor.job,
        place: cursor.place,
        from,
        to,
    })?;
    keep(&mut work.finishes, finish_between(*cursor, next, to))?;
    *cursor = next;
    Ok(to)
}

/// Puts the parts of a span. The cursor moves to its end.
fn put_span(
    work: &mut Work,
    cursor: &mut Cursor,
    of: TaskRun<'_>,
    span: Span,
) -> Result<(), NoMemory>
    requires of { IsTaskRun of.model.now of.run.now of.task }
    requires stands { IsWorkAt (system_of of.model.now) of.run.now of.task work.old cursor.old span.from }
    requires cut { IsCutAt (system_of of.model.now) of.run.now of.task work.old.parts cursor.old span.from }
    requires some { span.from < span.to }
    requires by_end { span.to ≤ of.run.now.table.ticks }
    requires runs { RunsFrom (system_of of.model.now) of.run.now of.task span.from span.to }
    ensures { OnOk result
        (IsWorkAt (system_of of.entry.model.now) of.entry.run.now of.entry.task work.new cursor.new span.to) }
{
    let mut from = span.from;
    'parts: while from < span.to {
        from = put_part(work, cursor, of, from, span.to)?;
    }
    Ok(())
}

/// Finds what a task executes in its spans, and when its jobs finish.
pub(crate) fn work_of(alloc: Global, of: TaskRun<'_>, spans: &[Span]) -> Result<Work, NoMemory>
    requires of { IsTaskRun of.model.now of.run.now of.task }
    requires spans { AreSpans (core_entries of.run.now (timing_at (system_of of.model.now) of.task).core) of.task spans.now }
    ensures parts { IfOk result
        (λ work. AreParts (system_of of.entry.model.now) of.entry.run.now of.entry.task work.parts) }
    ensures finishes { IfOk result
        (λ work. AreFinishes (system_of of.entry.model.now) of.entry.run.now of.entry.task work.finishes) }
{
    let mut work = Work {
        parts: List::new(alloc),
        finishes: List::new(alloc),
    };
    let mut cursor = Cursor::start(of);
    for span in spans {
        put_span(&mut work, &mut cursor, of, *span)?;
    }
    Ok(work)
}
